//! A registry of texts, which are not Copy: serial numbers go on, a stale key finds nothing, and
//! the memory of what went is used again.

use std::alloc::Global;
use std::test::Fail;
use usb_device_tables::{Key, Registry};

/// Puts a text of one letter in.
fn put(texts: &mut Registry<String>, alloc: Global, c: char) -> Result<Key, Fail> {
    let mut text = String::new(alloc);
    text.push(c)?;
    match texts.insert(text) {
        Ok(key) => Ok(key),
        Err(_) => Err("no memory".into()),
    }
}

/// Whether a key finds nothing.
fn is_stale(texts: &mut Registry<String>, alloc: Global, key: Key) -> bool {
    texts.get(key).is_none()
        && texts.remove(key).is_none()
        && texts.replace(key, String::new(alloc)).is_err()
}

/// Whether a letter that is appended to a text makes this of it.
fn changes(texts: &mut Registry<String>, key: Key, c: char, changed: &str) -> bool {
    if let Some(text) = texts.get_mut(key) {
        if text.push(c).is_err() {
            return false;
        }
    }
    matches!(texts.get(key), Some(text) if text.as_str() == changed)
}

fn goes_on(texts: &mut Registry<String>, alloc: Global) -> Result<bool, Fail> {
    let was_empty = texts.is_empty();
    let first = put(texts, alloc, 'a')?;
    let second = put(texts, alloc, 'b')?;
    let third = put(texts, alloc, 'c')?;
    let was_there = texts.remove(second).is_some();
    let fourth = put(texts, alloc, 'd')?;
    let serials = [first.serial, third.serial, fourth.serial];
    Ok(
        was_empty
            && was_there
            && serials == [0, 2, 3]
            && texts.len() == 3
            && is_stale(texts, alloc, second)
            && changes(texts, fourth, 'x', "dx"),
    )
}

#[test]
fn a_stale_key_finds_nothing(rt: HostRuntime) -> Result<(), Fail> {
    let mut texts = Registry::new(rt.alloc());
    assert!(rt; goes_on(&mut texts, rt.alloc())?);
    Ok(())
}

/// Puts the next value in and takes it out again: whether it had this serial number.
fn passes(values: &mut Registry<u64>, serial: u64) -> bool {
    match values.insert(serial) {
        Ok(key) => key.serial == serial && values.remove(key) == Some(serial),
        Err(_) => false,
    }
}

/// Whether a thousand values that pass one by one use the memory of the first.
fn keeps_memory(values: &mut Registry<u64>) -> bool {
    let had_none = values.capacity() == 0;
    if !passes(values, 0) {
        return false;
    }
    let capacity = values.capacity();
    for serial in 1..1000u64 {
        if !passes(values, serial) {
            return false;
        }
    }
    had_none && values.capacity() == capacity && values.is_empty()
}

#[test]
fn memory_is_that_of_what_is_there(rt: HostRuntime) {
    let mut values = Registry::new(rt.alloc());
    assert!(rt; keeps_memory(&mut values));
}
