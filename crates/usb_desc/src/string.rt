//! String descriptors: USB 2.0, section 9.6.7.

ghost use Rattle.std.specs.Prelude.{◌≡◌, ◌<◌, ◌+◌, ◌↔◌, IfOk, string_bytes, true, false};
ghost use Rattle.std.specs.Iterator.{YieldsFirst, item_count};
ghost use Rattle.usb_desc.specs.Strings as spec;

use crate::error::NoMemory;
use crate::layout::{STRING_TYPE, read_word};
use std::alloc::{AllocError, Global};
use std::error::Error;
use std::fmt;
use std::marker::Model;

/// Languages of string descriptors.
pub mod language_id {
    /// English of the United States.
    pub const US_ENGLISH: u16 = 0x0409;
}

/// Why a string descriptor gave no text.
#[derive(Clone, Copy, Debug, PartialEq, Eq)]
pub enum StringError {
    /// The bytes are no string descriptor.
    Invalid,
    /// There was no memory.
    Memory,
}

impl fmt::Display for StringError {
    fn fmt<W: fmt::Write>(&self, f: &mut fmt::Formatter<W>) -> fmt::Result {
        match self {
            StringError::Invalid => f.write_str("invalid string descriptor"),
            StringError::Memory => f.write_str("out of memory"),
        }
    }
}

impl Error for StringError {}

impl From<AllocError> for StringError {
    ghost use Rattle.std.specs.Prelude.{◌≡◌};
    ghost use Rattle.usb_desc.specs.declared.string.StringError.TheVariants.{Memory};

    ghost from_gives = { λ _ error. error ≡ Memory };

    fn from(_error: AllocError) -> StringError {
        StringError::Memory
    }
}

/// Whether the bytes are a string descriptor: at least two, of which the first counts all and the
/// second is 3.
pub fn validate_string_descriptor(bytes: &[u8]) -> bool
    ensures value { result ≡ spec.is_string bytes.now }
{
    bytes.len() >= 2 && usize::from(bytes[0]) == bytes.len() && bytes[1] == STRING_TYPE
}

/// The text of a string descriptor: UTF-16 from byte 2 on, low bytes first. An odd last byte is
/// left out, and a surrogate that has no partner becomes U+FFFD.
pub fn decode_string_descriptor(alloc: Global, bytes: &[u8]) -> Result<String, StringError>
    ensures text { IfOk result
        (λ made. (spec.is_string bytes.now ≡ true)
        × (string_bytes made ≡ spec.text bytes.now)) }
    ensures invalid { result ≡ Err StringError.Invalid ↔ (spec.is_string bytes.now ≡ false) }
{
    if !validate_string_descriptor(bytes) {
        return Err(StringError::Invalid);
    }
    let (_header, units) = bytes.split_at(2);
    let units = collect_words(alloc, units)?;
    Ok(String::from_utf16_lossy(alloc, &units)?)
}

fn collect_words(alloc: Global, bytes: &[u8]) -> Result<Vec<u16>, AllocError>
    ensures items { IfOk result (λ v. v.items ≡ spec.words bytes.now) }
{
    Words { rest: bytes }.collect(alloc)
}

// The little-endian words of bytes: seen as the list of those that are left.
#[derive(Drop)]
struct Words<'a> {
    rest: &'a [u8],
}

impl<'a> Model for Words<'a> {
    ghost use Rattle.std.specs.Prelude.{List, ℕ};
    ghost use Rattle.usb_desc.specs.Strings.{words};

    ghost Value = { List ℕ };

    ghost view = { λ s. words s.rest.now };
}

impl<'a> Iterator for Words<'a> {
    type Item = u16;

    ghost next_gives = { YieldsFirst (λ items. items) };

    ghost remaining = { item_count (λ items. items) };

    fn next(&mut self) -> Option<u16> {
        let [low, high, rest @ ..] = self.rest else {
            return None;
        };
        self.rest = rest;
        Some(u16::from_le_bytes([*low, *high]))
    }
}

/// The languages that a device has strings in, as its string descriptor 0 lists them: seen as the
/// list of those that are left.
#[derive(Debug, Drop)]
pub struct Languages {
    bytes: Vec<u8>,
    at: usize,
}

impl Model for Languages {
    ghost use Rattle.std.specs.Prelude.{List, ℕ, drop};
    ghost use Rattle.usb_desc.specs.Strings.{words};

    ghost Value = { List ℕ };

    ghost view = { λ s. words (drop s.at s.bytes.items) };
}

impl Languages {
    /// The words from byte 2 on, low bytes first; an odd last byte is left out.
    pub fn new(bytes: Vec<u8>) -> Languages
        ensures items { result ≡ spec.words_of_string bytes.items }
    {
        Languages { bytes, at: 2 }
    }

    /// A copy that has the same languages left.
    pub fn clone(&self) -> Result<Languages, NoMemory>
        ensures same { IfOk result (λ copy. copy ≡ self.now) }
    {
        let bytes = self.bytes.clone()?;
        Ok(Languages { bytes, at: self.at })
    }
}

impl Iterator for Languages {
    type Item = u16;

    ghost next_gives = { YieldsFirst (λ items. items) };

    ghost remaining = { item_count (λ items. items) };

    fn next(&mut self) -> Option<u16> {
        if self.bytes.len().saturating_sub(self.at) < 2 {
            return None;
        }
        let word = read_word(&self.bytes, self.at);
        self.at += 2;
        Some(word)
    }
}
