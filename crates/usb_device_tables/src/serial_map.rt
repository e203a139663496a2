//! Values in places that are used again, each named by a plain number.

ghost use Rattle.std.specs.Prelude.{ℕ, ◌≡◌, ◌+◌, ◌-◌, ◌^◌, ◌<◌, ◌++◌, ◌∷◌, [], length, set, take, Some, None, OnOk, OnErr, IfOk, IfSome, IfNone, IsSome};
ghost use Rattle.std.specs.Option.{option_copied};
ghost use Rattle.usb_device_tables.specs.History.{value_at, live_count};
ghost use Rattle.usb_device_tables.specs.Entries.{HasSerialAt, IsPlaced};

use crate::entry::{Entry, take_at_place, value_at_place};
use slab::Slab;
use std::alloc::{AllocError, Global};
use std::marker::Model;

/// Values, each named by the number of values that were put in before it, and found in constant
/// time. A number is never used again, unless it was taken back. Contracts see the list of all
/// values that were put in, by number, with `None` for each that was taken out.
///
/// It takes 8 bytes for each value that was ever put in and not taken back, and the memory of those
/// that are there: of as many as were there at once. Where either is full, it grows to twice that.
#[derive(Drop)]
pub struct SerialMap<T> {
    entries: Slab<Entry<T>>,
    // The place of each number. Where its value was taken out, another value may stand there now.
    places: Vec<usize>,
}

impl<T> Model for SerialMap<T> {
    ghost use Rattle.std.specs.Prelude.{List, Option, length};
    ghost use Rattle.std.specs.Coded.{coded_list, coded_option};

    ghost Value = { List (Option T) };

    ghost use Rattle.usb_device_tables.specs.Entries.{history, IsPlaced};

    ghost view = { λ m. history m.entries.slots (length m.places.items) };

    ghost invariant = { λ m. IsPlaced m.entries.slots m.places.items };
}

/// The place of the value of a number, if it is there.
fn place_of<T>(entries: &Slab<Entry<T>>, places: &[usize], serial: usize) -> Option<usize>
    requires placed { IsPlaced entries.now.slots places.now }
    ensures found { IfSome result (HasSerialAt entries.now.slots serial) }
    ensures absent { IfNone result
        ((place : ℕ) → HasSerialAt entries.now.slots serial place → ⊥) }
{
    let place = *places.get(serial)?;
    let entry = entries.get(place)?;
    if entry.serial == serial as u64 {
        Some(place)
    } else {
        None
    }
}

impl<T: Drop> SerialMap<T> {
    /// No value.
    pub fn new(alloc: Global) -> SerialMap<T>
        ensures empty { result ≡ [] }
    {
        SerialMap {
            entries: Slab::new(alloc),
            places: Vec::new(alloc),
        }
    }

    /// Puts a value in. Its number is the number of values that were put in before. An `Err` is
    /// want of memory: no value has changed.
    pub fn insert(&mut self, value: T) -> Result<usize, AllocError>
        ensures serial { IfOk result (λ serial. serial ≡ length self.old) }
        ensures small { IfOk result (λ serial. serial + 1 < 2 ^ 64) }
        ensures ok { OnOk result (self.new ≡ self.old ++ Some value ∷ []) }
        ensures err { OnErr result (self.new ≡ self.old) }
    {
        self.places.reserve(1)?;
        self.entries.reserve(1)?;
        let serial = self.places.len();
        let place = self.entries.insert_reserved(Entry {
            serial: serial as u64,
            value,
        });
        self.places.push_reserved(place);
        Ok(serial)
    }

    /// The value of a number, if it is there.
    pub fn get(&self, serial: usize) -> Option<&T>
        ensures value { option_copied result ≡ value_at self.now serial }
    {
        match place_of(&self.entries, &self.places, serial) {
            Some(place) => value_at_place(&self.entries, place),
            None => None,
        }
    }

    /// Puts another value in the place of one that is there.
    pub fn replace(&mut self, serial: usize, value: T)
        requires there { IsSome (value_at self.old serial) }
        ensures replaced { self.new ≡ set self.old serial (Some value) }
    {
        let place = place_of(&self.entries, &self.places, serial).unwrap();
        self.entries[place].value = value;
    }

    /// Takes the value of a number out, if it is there. Its memory is that of a later value.
    pub fn remove(&mut self, serial: usize) -> Option<T>
        ensures value { result ≡ value_at self.old serial }
        ensures rest { self.new ≡ set self.old serial None }
    {
        match place_of(&self.entries, &self.places, serial) {
            Some(place) => take_at_place(&mut self.entries, place),
            None => None,
        }
    }

    /// Takes the last number back, with its value: as if none had been put in for it.
    pub fn take_back(&mut self)
        requires some { 0 < length self.old }
        ensures rest { self.new ≡ take (length self.old - 1) self.old }
    {
        let serial = self.places.len() - 1;
        let _ = self.remove(serial);
        let _ = self.places.pop();
    }

    /// How many values are there.
    pub fn len(&self) -> usize
        ensures live { result ≡ live_count self.now }
    {
        self.entries.len()
    }
}
