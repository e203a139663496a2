//! Values in slots that are used again.

ghost use Rattle.std.specs.Prelude.{◌≡◌, ◌≢◌, ◌==◌, ℕ, ◌+◌, ◌^◌, ◌<◌, ◌≤◌, [], length, Some, None, OnOk, if◌then◌else◌};
ghost use Rattle.std.specs.Option.{option_copied};
ghost use Rattle.usb_device_ledger.specs.Pools.{PoolState, value_of, kept_count, inserted, key_of, replaced, removed};
ghost use Rattle.usb_device_ledger.specs.declared.pool.SlotKey.{SlotKey};

use std::alloc::{AllocError, Global};
use std::marker::Model;

/// A slot and the generation in which its value stands there.
#[derive(Clone, Copy, Debug)]
pub(crate) struct SlotKey {
    /// The slot.
    pub slot: usize,
    /// The generation, which a slot has once.
    pub generation: u64,
}

/// A slot: the generation of the value that stands in it, or that stood in it last.
#[derive(Drop)]
struct Slot<T> {
    generation: u64,
    value: Option<T>,
}

/// Values in slots. A value goes into the slot that became free last, and into a new one only where
/// none is free.
#[derive(Drop)]
pub(crate) struct Pool<T> {
    slots: Vec<Slot<T>>,
    free: Vec<usize>,
    count: u64,
}

impl<T> Model for Pool<T> {
    ghost use Rattle.usb_device_ledger.specs.Pools.{PoolState, pool_code};

    ghost Value = { PoolState T };

    ghost coded = { pool_code T.code };

    ghost use Rattle.usb_device_ledger.specs.PoolFacts.{pool_state, IsKept};

    ghost view = { pool_state };

    ghost invariant = { IsKept };
}

impl<T: Drop> Pool<T> {
    /// No slot.
    pub fn new(alloc: Global) -> Pool<T>
        ensures slots { result.slots ≡ [] }
        ensures free { result.free ≡ [] }
        ensures count { result.count ≡ 0 }
    {
        Pool {
            slots: Vec::new(alloc),
            free: Vec::new(alloc),
            count: 0,
        }
    }

    /// How many slots there are.
    pub fn slot_count(&self) -> usize
        ensures slots { result ≡ length self.now.slots }
        ensures all { kept_count self.now ≤ result }
    {
        self.slots.len()
    }

    /// Makes room for one slot more.
    pub fn reserve(&mut self) -> Result<(), AllocError>
        ensures room { OnOk result (1 ≤ self.new.room) }
        ensures rest { self.new ≡ record self.old { room = self.new.room } }
    {
        self.slots.reserve(1)?;
        let places = self.slots.len() - self.free.len();
        self.free.reserve(places + 1)
    }

    /// Puts a value in: into the slot that became free last, and into a new one only where none is
    /// free. It takes no memory.
    pub fn insert(&mut self, value: T) -> SlotKey
        requires room { self.old.free ≡ [] → 1 ≤ self.old.room }
        requires number { self.old.count + 1 < 2 ^ 64 }
        ensures key { result ≡ key_of self.old }
        ensures inserted { self.new ≡ inserted self.old value }
        ensures value { value_of self.new result ≡ Some value }
        ensures others { (key : SlotKey) → key.generation ≢ self.old.count
            → value_of self.new key ≡ value_of self.old key }
        ensures kept { kept_count self.new ≡ kept_count self.old + 1 }
        ensures raised { length self.new.slots ≡ (if kept_count self.old == length self.old.slots
            then length self.old.slots + 1 else length self.old.slots) }
    {
        let generation = self.count;
        self.count += 1;
        let full = Slot {
            generation,
            value: Some(value),
        };
        match self.free.pop() {
            Some(slot) => {
                self.slots[slot] = full;
                SlotKey { slot, generation }
            }
            None => {
                let slot = self.slots.len();
                self.slots.push_reserved(full);
                SlotKey { slot, generation }
            }
        }
    }

    /// The value of a key, if it is there.
    pub fn get(&self, key: SlotKey) -> Option<&T>
        ensures value { option_copied result ≡ value_of self.now key }
    {
        let slot = self.slots.get(key.slot)?;
        if slot.generation == key.generation {
            slot.value.as_ref()
        } else {
            None
        }
    }

    /// Puts another value in the place of that of a key, which comes out, if it is there. The key
    /// names the new one.
    pub fn replace(&mut self, key: SlotKey, value: T) -> Option<T>
        ensures value { result ≡ value_of self.old key }
        ensures replaced { self.new ≡ replaced self.old key value }
    {
        if key.slot >= self.slots.len() {
            return None;
        }
        let slot = &mut self.slots[key.slot];
        if slot.generation != key.generation {
            return None;
        }
        let old = slot.value.take()?;
        slot.value = Some(value);
        Some(old)
    }

    /// Takes the value of a key out, if it is there, and its slot is free. It takes no memory.
    pub fn remove(&mut self, key: SlotKey) -> Option<T>
        ensures value { result ≡ value_of self.old key }
        ensures removed { self.new ≡ removed self.old key }
    {
        if key.slot >= self.slots.len() {
            return None;
        }
        let slot = &mut self.slots[key.slot];
        if slot.generation != key.generation {
            return None;
        }
        let value = slot.value.take()?;
        self.free.push_reserved(key.slot);
        Some(value)
    }
}

/// A key whose value is not there stays so: the next value has another generation.
pub(crate) fn stale_keys_stay_so()
    ensures stale { (p : PoolState ℕ) (v : ℕ) (key : SlotKey) → key.generation < p.count
        → value_of p key ≡ None → value_of (inserted p v) key ≡ None }
{}
