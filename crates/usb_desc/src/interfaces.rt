//! The interfaces of a configuration, with the settings of each put together: USB 2.0, section
//! 9.6.5.

ghost use Rattle.std.specs.Prelude.{◌≡◌, ◌≢◌, ℕ, ◌-◌, ◌<◌, ◌≤◌, List, [], ◌∷◌, ◌++◌, All, IfOk, OnOk, length, slice_index_or};
ghost use Rattle.std.specs.Iterator.{YieldsFirst, item_count};
ghost use Rattle.usb_desc.specs.Fields.{interface_number};
ghost use Rattle.usb_desc.specs.Interfaces as spec;

use crate::error::NoMemory;
use crate::interface::{AltSettings, InterfaceDescriptor};
use std::alloc::{AllocError, Global};
use std::marker::Model;
use std::{slice, vec};

/// The settings of one interface, in the order of their descriptors: at least one, and all with
/// the same interface number.
#[derive(Debug, Drop)]
pub struct InterfaceDescriptors<'a> {
    settings: Vec<InterfaceDescriptor<'a>>,
}

impl<'a> Model for InterfaceDescriptors<'a> {
    ghost use Rattle.std.specs.Prelude.{List, ℕ};
    ghost use Rattle.usb_desc.specs.Forms.{IsInterface};

    ghost Value = { List (List ℕ) };

    ghost view = { λ s. s.settings.items };

    ghost invariant = { λ s. IsInterface s.settings.items };
}

impl<'a> InterfaceDescriptors<'a> {
    fn one(
        alloc: Global,
        setting: InterfaceDescriptor<'a>,
    ) -> Result<InterfaceDescriptors<'a>, AllocError>
        ensures items { IfOk result (λ made. made ≡ setting.entry ∷ []) }
    {
        let mut settings = Vec::new(alloc);
        settings.push(setting)?;
        Ok(InterfaceDescriptors { settings })
    }

    fn push(&mut self, setting: InterfaceDescriptor<'a>) -> Result<(), AllocError>
        requires same { interface_number setting ≡ spec.number_of self.old }
        ensures items { OnOk result (self.new ≡ self.old ++ setting.entry ∷ []) }
    {
        self.settings.push(setting)?;
        Ok(())
    }

    /// The number that all these settings have.
    pub fn interface_number(&self) -> u8
        ensures first { result ≡ spec.number_of self.now }
        ensures each { All (λ setting. interface_number setting ≡ result) self.now }
    {
        self.settings[0].interface_number()
    }

    /// The settings, in the order of their descriptors.
    pub fn alt_settings(&self) -> GroupSettings<'_, 'a>
        ensures items { result ≡ self.now }
    {
        GroupSettings {
            rest: self.settings.iter(),
        }
    }

    /// The first setting.
    pub fn first_alt_setting(&self) -> InterfaceDescriptor<'a>
        ensures first { result ≡ slice_index_or self.now 0 [] }
        ensures any { self.now ≢ [] }
    {
        self.settings[0].copy()
    }

    /// A copy of the interface: its settings stand for the same bytes.
    pub fn clone(&self) -> Result<InterfaceDescriptors<'a>, NoMemory>
        ensures same { IfOk result (λ copy. copy ≡ self.now) }
    {
        let settings = self.settings.clone()?;
        Ok(InterfaceDescriptors { settings })
    }
}

// The place behind the last interface whose number is below this one. It is sought from the back,
// since settings mostly come by rising number.
fn place_of(groups: &[InterfaceDescriptors], number: u8) -> usize
    ensures within { result ≤ length groups.now }
    ensures below { 0 < result
        → spec.number_of (slice_index_or groups.now (result - 1) []) < number }
    ensures behind { (k : ℕ) → result ≤ k → k < length groups.now
        → number ≤ spec.number_of (slice_index_or groups.now k []) }
{
    'places: for place in (0..groups.len()).rev() {
        if groups[place].interface_number() < number {
            return place + 1;
        }
    }
    0
}

// Puts one more setting among those of interfaces by rising number.
fn add_setting<'a>(
    alloc: Global,
    groups: &mut Vec<InterfaceDescriptors<'a>>,
    setting: InterfaceDescriptor<'a>,
) -> Result<(), AllocError>
    ensures added { (settings : List (List ℕ)) → groups.old.items ≡ spec.interfaces_among settings
        → OnOk result (groups.new.items ≡ spec.interfaces_among (settings ++ setting.entry ∷ [])) }
{
    let number = setting.interface_number();
    let place = place_of(groups, number);
    if place < groups.len() && groups[place].interface_number() == number {
        let group = &mut groups[place];
        group.push(setting)
    } else {
        let group = InterfaceDescriptors::one(alloc, setting)?;
        groups.insert(place, group)?;
        Ok(())
    }
}

/// Settings put together by their interface number.
pub(crate) fn interfaces_among<'a>(
    alloc: Global,
    settings: AltSettings<'a>,
) -> Result<Interfaces<'a>, AllocError>
    ensures items { IfOk result (λ made. made ≡ spec.interfaces_among settings.entry) }
{
    let mut groups = Vec::new(alloc);
    for setting in settings {
        add_setting(alloc, &mut groups, setting)?;
    }
    Ok(Interfaces {
        groups: groups.into_iter(),
    })
}

/// The settings of one interface: seen as the list of those that are left.
#[derive(Drop)]
pub struct GroupSettings<'b, 'a> {
    rest: slice::Iter<'b, InterfaceDescriptor<'a>>,
}

impl<'b, 'a> Model for GroupSettings<'b, 'a> {
    ghost use Rattle.std.specs.Prelude.{List, ℕ};
    ghost use Rattle.std.specs.Slice.Iter.{iter_rest};

    ghost Value = { List (List ℕ) };

    ghost view = { λ s. iter_rest s.rest };
}

impl<'b, 'a> Iterator for GroupSettings<'b, 'a> {
    type Item = InterfaceDescriptor<'a>;

    ghost next_gives = { YieldsFirst (λ items. items) };

    ghost remaining = { item_count (λ items. items) };

    fn next(&mut self) -> Option<InterfaceDescriptor<'a>> {
        let setting = self.rest.next()?;
        Some(setting.copy())
    }
}

/// The interfaces of a configuration, by rising number: seen as the list of those that are left.
#[derive(Drop)]
pub struct Interfaces<'a> {
    groups: vec::IntoIter<InterfaceDescriptors<'a>>,
}

impl<'a> Model for Interfaces<'a> {
    ghost use Rattle.std.specs.Prelude.{List, ℕ};
    ghost use Rattle.std.specs.Vec.Iter.{into_iter_items};

    ghost Value = { List (List (List ℕ)) };

    ghost view = { λ s. into_iter_items s.groups };
}

impl<'a> Iterator for Interfaces<'a> {
    type Item = InterfaceDescriptors<'a>;

    ghost next_gives = { YieldsFirst (λ items. items) };

    ghost remaining = { item_count (λ items. items) };

    fn next(&mut self) -> Option<InterfaceDescriptors<'a>> {
        self.groups.next()
    }
}
