//! A registry of values.

ghost use Rattle.std.specs.Prelude.{◌≡◌, ◌↔◌, IsTrue, ◌+◌, ◌^◌, ◌<◌, ◌≤◌, ◌++◌, ◌∷◌, [], ℕ, length, set, Some, None, OnOk, OnErr, IfOk, IfErr, IfSome, IfNone, IsOk, IsSome, is_some};
ghost use Rattle.std.specs.Option.{option_copied, option_copied_mut};
ghost use Rattle.std.specs.Borrow.{sem};
ghost use Rattle.usb_device_tables.specs.History.{value_at, live_count};
ghost use Rattle.usb_device_tables.specs.Entries.{HasSerialAt};

use crate::entry::{Entry, take_at_place, value_at_place, write_at_place};
use slab::Slab;
use std::alloc::{AllocError, AllocFailed, Global};
use std::marker::Model;

/// The name of a value: the number of values that were put in before it, and the place at which it
/// is looked for first. No answer depends on the place.
#[derive(Clone, Copy, Debug)]
pub struct Key {
    /// The number of values that were put in before.
    pub serial: u64,
    place: usize,
}

/// Values, each named by the number of values that were put in before it. A place is used again; a
/// serial number never is. Contracts see the list of all values that were put in, by serial number,
/// with `None` for each that was taken out, and for how many values at once there is memory.
#[derive(Drop)]
pub struct Registry<T> {
    entries: Slab<Entry<T>>,
    next: u64,
}

impl<T> Model for Registry<T> {
    ghost use Rattle.usb_device_tables.specs.History.{RegistryState, registry_code};

    ghost Value = { RegistryState T };

    ghost coded = { registry_code T.code };

    ghost use Rattle.usb_device_tables.specs.Entries.{history, IsSound};

    ghost view = { λ r. record {
      values = history r.entries.slots r.next;
      capacity = r.entries.capacity;
    } };

    ghost invariant = { λ r. IsSound r.entries.slots r.next };
}

/// The place of the entry with a serial number, which is sought at the key's place first.
fn find_place<T>(entries: &Slab<Entry<T>>, key: Key) -> Option<usize>
    ensures found { IfSome result (HasSerialAt entries.now.slots key.serial) }
    ensures absent { IfNone result
        ((place : ℕ) → HasSerialAt entries.now.slots key.serial place → ⊥) }
{
    if let Some(entry) = entries.get(key.place) {
        if entry.serial == key.serial {
            return Some(key.place);
        }
    }
    for (place, entry) in entries.iter() {
        if entry.serial == key.serial {
            return Some(place);
        }
    }
    None
}

impl<T> Registry<T> {
    ghost use Rattle.usb_device_tables.specs.Lends.{lends_value, lends_get};

    /// No value, and memory for none.
    pub fn new(alloc: Global) -> Registry<T>
        ensures empty { result ≡ record { values = []; capacity = 0 } }
    {
        Registry {
            entries: Slab::new(alloc),
            next: 0,
        }
    }

    /// Puts a value in. Its serial number is the number of values that were put in before. An `Err`
    /// is want of memory, or the serial numbers below 2^64 - 1 are used up: the value comes back, and
    /// no value has changed. Memory is taken only where there is none for one value more, so it is
    /// bounded by how many values are there at once.
    pub fn insert(&mut self, value: T) -> Result<Key, AllocFailed<T>>
        ensures serial { IfOk result (λ key. key.serial ≡ length self.old.values) }
        ensures ok { OnOk result (self.new.values ≡ self.old.values ++ Some value ∷ []) }
        ensures err { OnErr result (self.new.values ≡ self.old.values) }
        ensures back { IfErr result (λ failed. failed.value ≡ value) }
        ensures succeeds { live_count self.old.values < self.old.capacity →
            length self.old.values + 1 < 2 ^ 64 → IsOk result }
        ensures had_room { live_count self.old.values < self.old.capacity →
            self.new.capacity ≡ self.old.capacity }
    {
        match self.reserve() {
            Ok(()) => Ok(self.insert_reserved(value)),
            Err(AllocError) => Err(AllocFailed { value }),
        }
    }

    /// Makes room for one value more, of which `insert_reserved` needs no memory. Where there is none
    /// it asks for room for as many more as are there, and at least one. An `Err` is want of memory,
    /// or the serial numbers below 2^64 - 1 are used up.
    pub fn reserve(&mut self) -> Result<(), AllocError>
        ensures room { OnOk result (live_count self.new.values < self.new.capacity) }
        ensures serials { OnOk result (length self.new.values + 1 < 2 ^ 64) }
        ensures values { self.new ≡ record self.old { capacity = self.new.capacity } }
        ensures succeeds { live_count self.old.values < self.old.capacity →
            length self.old.values + 1 < 2 ^ 64 → IsOk result }
        ensures had_room { live_count self.old.values < self.old.capacity →
            self.new.capacity ≡ self.old.capacity }
    {
        if self.next == u64::MAX {
            return Err(AllocError);
        }
        let count = self.entries.len();
        if count < self.entries.capacity() {
            return Ok(());
        }
        self.entries.reserve_exact(count.max(1))
    }

    /// Puts a value in where there is room for it, and takes no memory. Its serial number is the
    /// number of values that were put in before.
    pub fn insert_reserved(&mut self, value: T) -> Key
        requires room { live_count self.old.values < self.old.capacity }
        requires serials { length self.old.values + 1 < 2 ^ 64 }
        ensures serial { result.serial ≡ length self.old.values }
        ensures inserted { self.new ≡ record self.old {
          values = self.old.values ++ Some value ∷ [];
        } }
    {
        let serial = self.next;
        let place = self.entries.insert_reserved(Entry { serial, value });
        self.next = serial + 1;
        Key { serial, place }
    }

    /// The value of a key, if it is there.
    pub fn get(&self, key: Key) -> Option<&T>
        ensures value { option_copied result ≡ value_at self.now.values key.serial }
    {
        match find_place(&self.entries, key) {
            Some(place) => value_at_place(&self.entries, place),
            None => None,
        }
    }

    /// Whether the value of a key is there.
    pub fn contains(&self, key: Key) -> bool
        ensures there { result ≡ is_some (value_at self.now.values key.serial) }
    {
        self.get(key).is_some()
    }

    /// The value of a key, which must be there, for writing.
    fn value_mut(&mut self, key: Key) -> &mut T
        requires there { IsSome (value_at self.old.values key.serial) }
        ensures* writes_back { sem 𝓛 (lends_value T.row self.entry key.serial result) }
        ensures value { value_at self.old.values key.serial ≡ Some result.now }
    {
        let Some(place) = find_place(&self.entries, key) else {
            unreachable!();
        };
        let entry = &mut self.entries[place];
        &mut entry.value
    }

    /// The value of a key for writing, if it is there.
    pub fn get_mut(&mut self, key: Key) -> Option<&mut T>
        ensures* writes_back { sem 𝓛 (lends_get T.row self.entry key.serial result) }
        ensures value { option_copied_mut result ≡ value_at self.old.values key.serial }
    {
        if self.contains(key) {
            Some(self.value_mut(key))
        } else {
            None
        }
    }

    /// Takes the value of a key out, if it is there. Its memory is that of a later value.
    pub fn remove(&mut self, key: Key) -> Option<T>
        ensures value { result ≡ value_at self.old.values key.serial }
        ensures rest { self.new ≡ record self.old {
          values = set self.old.values key.serial None;
        } }
    {
        match find_place(&self.entries, key) {
            Some(place) => take_at_place(&mut self.entries, place),
            None => None,
        }
    }

    /// Puts another value in the place of one that is there, which comes out. Where it is gone the
    /// new one comes back.
    pub fn replace(&mut self, key: Key, value: T) -> Result<T, T>
        ensures was { IfOk result (λ was. value_at self.old.values key.serial ≡ Some was) }
        ensures ok { OnOk result (self.new ≡ record self.old {
          values = set self.old.values key.serial (Some value);
        }) }
        ensures gone { OnErr result (value_at self.old.values key.serial ≡ None) }
        ensures err { OnErr result (self.new ≡ self.old) }
        ensures back { IfErr result (λ back. back ≡ value) }
    {
        match find_place(&self.entries, key) {
            Some(place) => write_at_place(&mut self.entries, place, value),
            None => Err(value),
        }
    }

    /// How many values are there.
    pub fn len(&self) -> usize
        ensures live { result ≡ live_count self.now.values }
    {
        self.entries.len()
    }

    /// Whether no value is there.
    pub fn is_empty(&self) -> bool
        ensures empty { IsTrue result ↔ (live_count self.now.values ≡ 0) }
    {
        self.len() == 0
    }

    /// How many values fit with no allocation.
    pub fn capacity(&self) -> usize
        ensures capacity { result ≡ self.now.capacity }
        ensures holds_all { live_count self.now.values ≤ result }
    {
        self.entries.capacity()
    }
}
