//! A value with its serial number, and what is done with those that a slab has.

ghost use Rattle.std.specs.Prelude.{◌≡◌, Some, None, OnErr, IfOk, IfErr, IsOk};
ghost use Rattle.std.specs.Option.{option_copied, option_map};
ghost use Rattle.slab.specs.Slab.{get, Updates};
ghost use Rattle.usb_device_tables.specs.declared.entry.Entry.{Entry};

use slab::Slab;
use std::mem;

/// A value with its serial number.
#[derive(Drop)]
pub(crate) struct Entry<T> {
    pub serial: u64,
    pub value: T,
}

/// The value at a place.
pub(crate) fn value_at_place<T>(entries: &Slab<Entry<T>>, place: usize) -> Option<&T>
    ensures value { option_copied result
        ≡ option_map (λ (e : Entry T). e.value) (get entries.now place) }
{
    match entries.get(place) {
        Some(entry) => Some(&entry.value),
        None => None,
    }
}

/// Takes the value at a place out.
pub(crate) fn take_at_place<T>(entries: &mut Slab<Entry<T>>, place: usize) -> Option<T>
    ensures value { result ≡ option_map (λ (e : Entry T). e.value) (get entries.old place) }
    ensures updates { Updates entries.old entries.new place None }
    ensures capacity { entries.new.capacity ≡ entries.old.capacity }
{
    match entries.try_remove(place) {
        Some(entry) => Some(into_value(entry)),
        None => None,
    }
}

/// Writes another value at a place. The value that was there comes out; where none was there, the
/// new one comes back, and nothing has changed.
pub(crate) fn write_at_place<T>(
    entries: &mut Slab<Entry<T>>,
    place: usize,
    value: T,
) -> Result<T, T>
    ensures was { IfOk result
        (λ was. option_map (λ (e : Entry T). e.value) (get entries.old place) ≡ Some was) }
    ensures back { IfErr result (λ back. back ≡ value) }
    ensures err { OnErr result (entries.new ≡ entries.old) }
    ensures updates { (e : Entry T) → get entries.old place ≡ Some e
        → IsOk result
        × Updates entries.old entries.new place (Some (record e { value = value })) }
    ensures capacity { entries.new.capacity ≡ entries.old.capacity }
{
    match entries.get_mut(place) {
        Some(entry) => Ok(mem::replace(&mut entry.value, value)),
        None => Err(value),
    }
}

/// The value of an entry.
fn into_value<T>(entry: Entry<T>) -> T
    ensures value { result ≡ entry.value }
{
    let Entry { serial: _, value } = entry;
    value
}
