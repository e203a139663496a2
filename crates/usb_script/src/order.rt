//! The rules that look back at the lines before.

ghost use Rattle.std.specs.Prelude.{◌≡◌, ◌<◌, ◌==◌, ◌&&◌, ◌++◌, ◌∷◌, [], vec_len, vec_capacity, Err, OnOk, OnErr, IfErr};
ghost use Rattle.std.specs.List.{list_any};
ghost use Rattle.usb_script_words.specs.declared.line_error.LineError.TheVariants.{Memory};
ghost use Rattle.usb_script_lines.specs.declared.reading.Reading.TheVariants.{Read};
ghost use Rattle.usb_script.specs.Order.{has_name, has_bus_address, is_free_device, may_follow, with_reading};
ghost use Rattle.usb_script_words.specs.Outcome.{Gives};
ghost use Rattle.usb_script.specs.Taken.{taken_of};

use std::alloc::Global;
use std::marker::Model;
use usb_script_lines::Item;
use usb_script_words::{LineError, Name};

/// What a device line takes: its name, and its bus with its address.
#[derive(Clone, Copy)]
struct Taken {
    device: Name,
    bus: u8,
    address: u8,
}

/// Adds what the item takes, if it is a device line.
fn add_taken(taken: &mut Vec<Taken>, item: &Item) -> Result<(), LineError>
    ensures ok { OnOk result (taken.new.items ≡ taken.old.items ++ taken_of (item.now ∷ [])) }
    ensures err { OnErr result (taken.new.items ≡ taken.old.items) }
    ensures only { IfErr result (λ e. e ≡ Memory) }
{
    if let Item::Device {
        device,
        bus,
        address,
        ..
    } = item
    {
        taken.push(Taken {
            device: *device,
            bus: *bus,
            address: *address,
        })?;
    }
    Ok(())
}

/// Makes room for the item, and adds what it takes.
fn prepare(items: &mut Vec<Item>, taken: &mut Vec<Taken>, item: &Item) -> Result<(), LineError>
    ensures items { items.new.items ≡ items.old.items }
    ensures room { OnOk result (vec_len items.new < vec_capacity items.new) }
    ensures ok { OnOk result (taken.new.items ≡ taken.old.items ++ taken_of (item.now ∷ [])) }
    ensures err { OnErr result (taken.new.items ≡ taken.old.items) }
    ensures only { IfErr result (λ e. e ≡ Memory) }
{
    items.reserve(1)?;
    add_taken(taken, item)
}

/// Drops the item, which is not added. It stands by itself, so that adding one pays for no drop.
#[cold]
fn refuse(_item: Item, error: LineError) -> Result<(), LineError>
    ensures value { result ≡ Err error }
{
    Err(error)
}

fn is_name_in(taken: &[Taken], name: Name) -> bool
    ensures value { result ≡ list_any (λ t. t.device == name) taken.now }
{
    taken.iter().any(|t| t.device == name)
}

fn is_place_in(taken: &[Taken], bus: u8, address: u8) -> bool
    ensures value { result ≡ list_any (λ t. t.bus == bus && t.address == address) taken.now }
{
    taken.iter().any(|t| t.bus == bus && t.address == address)
}

/// The items of the lines so far. A contract sees the list of them.
#[derive(Drop)]
pub struct ItemsBefore {
    items: Vec<Item>,
    /// Whether no call and no step is among them.
    are_setup: bool,
    /// What their device lines take, so that a further one looks at no other line.
    taken: Vec<Taken>,
}

impl Model for ItemsBefore {
    ghost use Rattle.std.specs.Prelude.{List};
    ghost use Rattle.usb_script_lines.specs.declared.item.Item.{Item};
    ghost use Rattle.usb_script.specs.Taken.{IsKnown};

    ghost Value = { List Item };

    ghost view = { λ before. before.items.items };

    ghost invariant = { λ before. IsKnown before.items.items before.are_setup before.taken.items };
}

impl ItemsBefore {
    /// No items, before the first line.
    pub fn new(alloc: Global) -> ItemsBefore
        ensures value { result ≡ [] }
    {
        ItemsBefore {
            items: Vec::new(alloc),
            are_setup: true,
            taken: Vec::new(alloc),
        }
    }

    /// The items in order, given back.
    pub fn into_items(self) -> Vec<Item>
        ensures value { result.items ≡ self }
    {
        self.items
    }

    fn is_name_taken(&self, name: Name) -> bool
        ensures value { result ≡ list_any (has_name name) self.now }
    {
        is_name_in(self.taken.as_slice(), name)
    }

    fn is_place_taken(&self, bus: u8, address: u8) -> bool
        ensures value { result ≡ list_any (has_bus_address bus address) self.now }
    {
        is_place_in(self.taken.as_slice(), bus, address)
    }

    /// Whether a device line may stand behind these items.
    #[tactic(auto, unfolding(crate::specs::Order::is_free_device))]
    fn is_free_device(&self, device: Name, bus: u8, address: u8) -> bool
        ensures value { result ≡ is_free_device self.now device bus address }
    {
        self.are_setup && !self.is_name_taken(device) && !self.is_place_taken(bus, address)
    }

    /// Whether the item may stand behind these.
    #[tactic(auto, unfolding(crate::specs::Order::may_follow))]
    fn may_follow(&self, item: &Item) -> bool
        ensures value { result ≡ may_follow self.now item.now }
    {
        match item {
            Item::Device {
                device,
                bus,
                address,
                ..
            } => self.is_free_device(*device, *bus, *address),
            item => !item.is_setup() || self.are_setup,
        }
    }

    /// One more item, where it may follow them.
    pub fn add(&mut self, item: Item) -> Result<(), LineError>
        ensures value { Gives (λ _. self.new) result (with_reading self.old (Read item)) }
        ensures more { OnOk result (self.new ≡ self.old ++ item ∷ []) }
    {
        let prepared = if self.may_follow(&item) {
            prepare(&mut self.items, &mut self.taken, &item)
        } else {
            Err(LineError::Malformed)
        };
        match prepared {
            Ok(()) => {
                let is_setup = item.is_setup();
                self.items.push_reserved(item);
                self.are_setup = self.are_setup && is_setup;
                Ok(())
            }
            Err(error) => refuse(item, error),
        }
    }
}
