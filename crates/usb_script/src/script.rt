//! A whole script.

ghost use Rattle.std.specs.Prelude.{◌≡◌, ◌+◌, ◌<◌, ◌≤◌, ◌∷◌, length, IfOk, OnOk, IfErr};
ghost use Rattle.usb_script_words.specs.Fields.{texts};
ghost use Rattle.usb_script_words.specs.Lines.{lines_of};
ghost use Rattle.usb_script.specs.Parse.{with_line, with_words, with_first, script_of};
ghost use Rattle.usb_script.specs.Outcome.{OrMemory, IsParsingError};
ghost use Rattle.usb_script_words.specs.Outcome.{Gives};
ghost use Rattle.usb_script_lines.specs.ItemKinds.{place_count};

use crate::error::SessionError;
use crate::order::ItemsBefore;
use std::alloc::Global;
use std::marker::Model;
use usb_desc::NoMemory;
use usb_script_lines::{Item, Reading, read_line, read_words};
use usb_script_words::{LineError, is_skipped, split_first_line};

/// The most bytes that a script has.
pub const MAX_SCRIPT: usize = 1048576;

/// A script. A contract sees the list of its items.
#[derive(Clone, Drop)]
pub struct Script {
    items: Vec<Item>,
}

impl Model for Script {
    ghost use Rattle.std.specs.Prelude.{List};
    ghost use Rattle.usb_script_lines.specs.declared.item.Item.{Item};
    ghost use Rattle.usb_script.specs.ScriptFacts.{IsBounded};

    ghost Value = { List Item };

    ghost view = { λ s. s.items.items };

    ghost invariant = { λ s. IsBounded s.items.items };
}

impl Script {
    /// The same script once more.
    pub fn clone(&self) -> Result<Script, NoMemory>
        ensures same { IfOk result (λ copy. copy ≡ self.now) }
    {
        Ok(Clone::clone(self)?)
    }

    /// The items in order.
    pub fn items(&self) -> &[Item]
        ensures value { result.now ≡ self.now }
        ensures few { length result.now ≤ 1048576 }
        ensures places { place_count result.now ≤ 1048576 }
    {
        self.items.as_slice()
    }

    /// The items in order, given back.
    pub fn into_items(self) -> Vec<Item>
        ensures value { result.items ≡ self }
        ensures few { length result.items ≤ 1048576 }
        ensures places { place_count result.items ≤ 1048576 }
    {
        self.items
    }

    /// How many places of the kernel the items may use in all.
    pub fn place_count(&self) -> usize
        ensures value { result ≡ place_count self.now }
    {
        places_of_all(self.items())
    }
}

/// How many places of the kernel these items may use in all.
fn places_of_all(items: &[Item]) -> usize
    requires few { place_count items.now ≤ 1048576 }
    ensures value { result ≡ place_count items.now }
{
    let mut count = 0usize;
    for item in items {
        count += item.place_count();
    }
    count
}

/// The first line without its LF, and the bytes after it.
fn first_line(bytes: &[u8]) -> (&[u8], &[u8])
    requires some { 0 < length bytes.now }
    ensures lines { lines_of bytes.now ≡ result.0.now ∷ lines_of result.1.now }
    ensures shorter { length result.1.now < length bytes.now }
    ensures within { length result.0.now + length result.1.now ≤ length bytes.now }
{
    for (i, b) in bytes.iter().enumerate() {
        if *b == b'\n' {
            return (&bytes[..i], &bytes[i + 1..]);
        }
    }
    (bytes, &bytes[bytes.len()..])
}

/// The items with those of one more line, which is split into these words. It stands by itself, so
/// that a line which is split as it is found pays nothing for it.
#[inline(never)]
fn add_line<'a>(
    alloc: Global,
    items: &mut ItemsBefore,
    words: &mut Vec<&'a [u8]>,
    line: &'a [u8],
) -> Result<(), LineError>
    ensures value { Gives (λ _. items.new) result (with_line items.old line.now) }
    ensures few { OnOk result (length items.new ≤ length items.old + 1) }
    ensures places { OnOk result
        (place_count items.new ≤ place_count items.old + length line.now) }
{
    match read_line(alloc, words, line) {
        Ok(Reading::Skipped) => Ok(()),
        Ok(Reading::Read(item)) => items.add(item),
        Err(error) => Err(error),
    }
}

/// The items with that of a line of these words. A line with no word is skipped.
fn add_words(alloc: Global, items: &mut ItemsBefore, words: &[&[u8]]) -> Result<(), LineError>
    ensures value { Gives (λ _. items.new) result (with_words items.old (texts words.now)) }
    ensures few { OnOk result (length items.new ≤ length items.old + 1) }
    ensures places { OnOk result
        (place_count items.new ≤ place_count items.old + length words.now) }
{
    if words.is_empty() {
        return Ok(());
    }
    match read_words(alloc, words) {
        Ok(item) => items.add(item),
        Err(error) => Err(error),
    }
}

/// The items with those of the first line, which is split into these words, and the bytes behind it.
fn add_first_line<'a>(
    alloc: Global,
    items: &mut ItemsBefore,
    words: &mut Vec<&'a [u8]>,
    bytes: &'a [u8],
) -> Result<&'a [u8], LineError>
    requires some { 0 < length bytes.now }
    ensures value { Gives (λ after. (items.new, lines_of after.now)) result
        (with_first items.old (lines_of bytes.now)) }
    ensures shorter { IfOk result (λ after. length after.now < length bytes.now) }
    ensures few { IfOk result (λ after.
        length items.new + length after.now ≤ length items.old + length bytes.now) }
    ensures places { IfOk result (λ after.
        place_count items.new + length after.now ≤ place_count items.old + length bytes.now) }
{
    if let Some(after) = split_first_line(bytes, words)? {
        return match add_words(alloc, items, words.as_slice()) {
            Ok(()) => Ok(after),
            Err(error) => Err(error),
        };
    }
    let (line, after) = first_line(bytes);
    if is_skipped(line) {
        return Ok(after);
    }
    add_line(alloc, items, words, line)?;
    Ok(after)
}

/// The script that the bytes spell. A line outside the grammar is told by its number; a script of
/// more than [`MAX_SCRIPT`] bytes is too long, whatever it holds.
pub fn parse_script(alloc: Global, bytes: &[u8]) -> Result<Script, SessionError>
    ensures answer { OrMemory result (script_of bytes.now) }
    ensures only { IfErr result IsParsingError }
{
    if bytes.len() > MAX_SCRIPT {
        return Err(SessionError::TooLong);
    }
    let mut items = ItemsBefore::new(alloc);
    let mut words = Vec::new(alloc);
    let mut rest = bytes;
    let mut line = 1u32;
    while !rest.is_empty() {
        match add_first_line(alloc, &mut items, &mut words, rest) {
            Ok(after) => rest = after,
            Err(LineError::Malformed) => return Err(SessionError::Malformed { line }),
            Err(LineError::Memory) => return Err(SessionError::Memory),
        }
        line += 1;
    }
    Ok(Script {
        items: items.into_items(),
    })
}
