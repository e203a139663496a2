//! What devices are looked for by.

ghost use Rattle.std.specs.Prelude.{◌≡◌, ◌≤◌, length, take, drop, IfOk};
ghost use Rattle.usb_script_words.specs.Fields.{texts};
ghost use Rattle.usb_script_words.specs.Outcome.{Gives};
ghost use Rattle.usb_script_words.specs.Selectors.{serial_of, class_criterion, named_criterion, selector_of};

use crate::fields::{one_word, three_words, two_words};
use crate::line_error::LineError;
use crate::places::{text, value};
use crate::words::{hex_byte, hex_word, reads};
use std::alloc::Global;
use std::marker::Model;
use usb_desc::NoMemory;
use usb_enum_sysfs::Text;

/// A criterion by which devices are looked for.
#[derive(Clone, Drop)]
pub enum Criterion {
    /// `vid HHHH`: the vendor has this number.
    Vendor(u16),
    /// `vidpid HHHH HHHH`: the vendor and the product have these numbers.
    Product(u16, u16),
    /// `class HH`: this is the class code.
    Class(u8),
    /// `classsub HH HH`: these are the class and subclass codes.
    Subclass(u8, u8),
    /// `classsubproto HH HH HH`: these are the class, subclass and protocol codes.
    Protocol(u8, u8, u8),
    /// `serial VALUE`: this is the serial number.
    Serial(Text),
}

impl Criterion {
    /// The same criterion once more.
    pub fn clone(&self) -> Result<Criterion, NoMemory>
        ensures same { IfOk result (λ copy. copy ≡ self.now) }
    {
        Ok(Clone::clone(self)?)
    }
}

/// What devices are looked for by, as criteria in order. A contract sees the list of them.
#[derive(Clone, Drop)]
pub struct Selector {
    criteria: Vec<Criterion>,
}

impl Model for Selector {
    ghost use Rattle.std.specs.Prelude.{List};
    ghost use Rattle.usb_script_words.specs.declared.selector.Criterion.{Criterion};

    ghost Value = { List Criterion };

    ghost view = { λ selector. selector.criteria.items };
}

impl Selector {
    ghost use Rattle.usb_script_words.specs.Selectors.{selector_of};

    /// The same once more.
    pub fn clone(&self) -> Result<Selector, NoMemory>
        ensures same { IfOk result (λ copy. copy ≡ self.now) }
    {
        Ok(Clone::clone(self)?)
    }

    /// Its criteria, in order.
    pub fn as_slice(&self) -> &[Criterion]
        ensures value { result.now ≡ self.now }
    {
        self.criteria.as_slice()
    }

    /// The selector that the words spell.
    pub fn parse(alloc: Global, words: &[&[u8]]) -> Result<Selector, LineError>
        ensures value { Gives (λ selector. selector) result (selector_of (texts words.now)) }
    {
        let criteria = criteria(alloc, words)?;
        Ok(Selector { criteria })
    }
}

/// A serial number.
fn serial(alloc: Global, word: &[u8]) -> Result<Text, LineError>
    ensures value { Gives (λ text. text) result (serial_of word.now) }
{
    let bytes = value(alloc, word)?;
    text(alloc, bytes.as_slice())
}

/// The first words, so many where there are.
fn front<'w, 'a>(words: &'w [&'a [u8]], count: usize) -> &'w [&'a [u8]]
    ensures front { texts result.now ≡ take count (texts words.now) }
    ensures within { length result.now ≤ length words.now }
{
    if words.len() <= count {
        return words;
    }
    &words[..count]
}

/// The criterion of the class with this name, and how many words behind the name are its own.
#[tactic(auto, unfolding(crate::specs::Selectors::class_criterion, crate::specs::Fields::one_field, crate::specs::Fields::two_fields, crate::specs::Fields::three_fields))]
fn class_criterion(name: &[u8], words: &[&[u8]]) -> Result<(Criterion, usize), LineError>
    ensures value { Gives (λ x. (x.0, drop x.1 (texts words.now))) result
        (class_criterion name.now (texts words.now)) }
    ensures within { IfOk result (λ x. x.1 ≤ length words.now) }
{
    if reads(name, b"class") {
        let class = one_word(front(words, 1))?;
        Ok((Criterion::Class(hex_byte(class)?), 1))
    } else if reads(name, b"classsub") {
        let (class, subclass) = two_words(front(words, 2))?;
        Ok((
            Criterion::Subclass(hex_byte(class)?, hex_byte(subclass)?),
            2,
        ))
    } else if reads(name, b"classsubproto") {
        let (class, subclass, protocol) = three_words(front(words, 3))?;
        let criterion = Criterion::Protocol(
            hex_byte(class)?,
            hex_byte(subclass)?,
            hex_byte(protocol)?,
        );
        Ok((criterion, 3))
    } else {
        Err(LineError::Malformed)
    }
}

/// The criterion with this name, and how many words behind the name are its own.
#[tactic(auto, unfolding(crate::specs::Selectors::named_criterion, crate::specs::Fields::one_field, crate::specs::Fields::two_fields))]
fn named_criterion(
    alloc: Global,
    name: &[u8],
    words: &[&[u8]],
) -> Result<(Criterion, usize), LineError>
    ensures value { Gives (λ x. (x.0, drop x.1 (texts words.now))) result
        (named_criterion name.now (texts words.now)) }
    ensures within { IfOk result (λ x. x.1 ≤ length words.now) }
{
    if reads(name, b"vid") {
        let vendor = one_word(front(words, 1))?;
        Ok((Criterion::Vendor(hex_word(vendor)?), 1))
    } else if reads(name, b"vidpid") {
        let (vendor, product) = two_words(front(words, 2))?;
        Ok((Criterion::Product(hex_word(vendor)?, hex_word(product)?), 2))
    } else if reads(name, b"serial") {
        let number = one_word(front(words, 1))?;
        Ok((Criterion::Serial(serial(alloc, number)?), 1))
    } else {
        class_criterion(name, words)
    }
}

/// The criteria that the words spell, in order.
#[tactic(auto, unfolding(crate::specs::Selectors::selector_of))]
fn criteria(alloc: Global, words: &[&[u8]]) -> Result<Vec<Criterion>, LineError>
    ensures value { Gives (λ v. v.items) result (selector_of (texts words.now)) }
{
    let mut criteria = Vec::new(alloc);
    let mut start = 0usize;
    while start < words.len() {
        match named_criterion(alloc, words[start], &words[start + 1..]) {
            Ok((criterion, count)) => {
                criteria.push(criterion)?;
                start += 1 + count;
            }
            Err(error) => return Err(error),
        }
    }
    Ok(criteria)
}
