//! The words of lines, where many lines have the same fields: they are read together, so that a line has one place where
//! it may be malformed, and not one for each of its words.

ghost use Rattle.std.specs.Prelude.{◌≡◌, ◌≤◌, length, IfOk, OnOk};
ghost use Rattle.usb_script_words.specs.Fields.{texts, one_field, two_fields, three_fields};
ghost use Rattle.usb_script_words.specs.Outcome.{Gives};
ghost use Rattle.usb_script_words.specs.Words.{name_of, number_of, read_length_of, bytes_of, time_of};
ghost use Rattle.usb_script_lines.specs.Shapes.{field_and_steps};

use std::alloc::Global;
use usb_script_words::{
    Data, Length, LineError, Name, ReadLength, Steps, Timeout, byte, one_and_more, one_word,
    own_steps, three_words, two_words,
};

/// One name with this letter.
#[tactic(auto, unfolding(usb_script_words::specs::Fields::one_field))]
pub fn one_name(letter: u8, words: &[&[u8]]) -> Result<Name, LineError>
    ensures value { Gives (λ name. name) result (one_field (name_of letter) (texts words.now)) }
    ensures count { OnOk result (length words.now ≡ 1) }
{
    let word = one_word(words)?;
    Name::parse(letter, word)
}

/// A name with this letter, and a byte.
#[tactic(auto, unfolding(usb_script_words::specs::Fields::two_fields))]
pub fn name_and_byte(letter: u8, words: &[&[u8]]) -> Result<(Name, u8), LineError>
    ensures value { Gives (λ x. x) result
        (two_fields (name_of letter) (number_of 255) (texts words.now)) }
{
    let (name, word) = two_words(words)?;
    let name = Name::parse(letter, name)?;
    Ok((name, byte(word)?))
}

/// A name with this letter, and a length.
#[tactic(auto, unfolding(usb_script_words::specs::Fields::two_fields))]
pub fn name_and_length(letter: u8, words: &[&[u8]]) -> Result<(Name, Length), LineError>
    ensures value { Gives (λ x. x) result
        (two_fields (name_of letter) (number_of 65536) (texts words.now)) }
{
    let (name, word) = two_words(words)?;
    let name = Name::parse(letter, name)?;
    Ok((name, Length::parse(word)?))
}

/// A name with this letter, and how much is read.
#[tactic(auto, unfolding(usb_script_words::specs::Fields::two_fields))]
pub fn name_and_read_length(letter: u8, words: &[&[u8]]) -> Result<(Name, ReadLength), LineError>
    ensures value { Gives (λ x. x) result
        (two_fields (name_of letter) read_length_of (texts words.now)) }
{
    let (name, word) = two_words(words)?;
    let name = Name::parse(letter, name)?;
    Ok((name, ReadLength::parse(word)?))
}

/// A name with this letter, and bytes.
#[tactic(auto, unfolding(usb_script_words::specs::Fields::two_fields))]
pub fn name_and_data(alloc: Global, letter: u8, words: &[&[u8]]) -> Result<(Name, Data), LineError>
    ensures value { Gives (λ x. x) result (two_fields (name_of letter) bytes_of (texts words.now)) }
{
    let (name, word) = two_words(words)?;
    let name = Name::parse(letter, name)?;
    Ok((name, Data::parse(alloc, word)?))
}

/// A name with the first letter, a byte, and a name with the second.
#[tactic(auto, unfolding(usb_script_words::specs::Fields::three_fields))]
pub fn name_byte_name(first: u8, second: u8, words: &[&[u8]]) -> Result<(Name, u8, Name), LineError>
    ensures value { Gives (λ x. x) result
        (three_fields (name_of first) (number_of 255) (name_of second) (texts words.now)) }
{
    let (a, number, b) = three_words(words)?;
    let a = Name::parse(first, a)?;
    let number = byte(number)?;
    Ok((a, number, Name::parse(second, b)?))
}

/// A name with the first letter, one with the second, and a length.
#[tactic(auto, unfolding(usb_script_words::specs::Fields::three_fields))]
pub fn two_names_and_length(
    first: u8,
    second: u8,
    words: &[&[u8]],
) -> Result<(Name, Name, Length), LineError>
    ensures value { Gives (λ x. x) result
        (three_fields (name_of first) (name_of second) (number_of 65536) (texts words.now)) }
{
    let (a, b, length) = three_words(words)?;
    let a = Name::parse(first, a)?;
    let b = Name::parse(second, b)?;
    Ok((a, b, Length::parse(length)?))
}

/// A name with this letter, and the steps of the call.
#[tactic(auto, unfolding(crate::specs::Shapes::field_and_steps))]
pub fn name_and_steps(
    alloc: Global,
    letter: u8,
    words: &[&[u8]],
) -> Result<(Name, Steps), LineError>
    ensures value { Gives (λ x. x) result (field_and_steps (name_of letter) (texts words.now)) }
    ensures few { IfOk result (λ x. length x.1 ≤ length words.now) }
{
    let (word, more) = one_and_more(words)?;
    let field = Name::parse(letter, word)?;
    let steps = own_steps(alloc, more)?;
    Ok((field, steps))
}

/// How much is read, and the steps of the call.
#[tactic(auto, unfolding(crate::specs::Shapes::field_and_steps))]
pub fn read_length_and_steps(
    alloc: Global,
    words: &[&[u8]],
) -> Result<(ReadLength, Steps), LineError>
    ensures value { Gives (λ x. x) result (field_and_steps read_length_of (texts words.now)) }
    ensures few { IfOk result (λ x. length x.1 ≤ length words.now) }
{
    let (word, more) = one_and_more(words)?;
    let field = ReadLength::parse(word)?;
    let steps = own_steps(alloc, more)?;
    Ok((field, steps))
}

/// A time, and the steps of the call.
#[tactic(auto, unfolding(crate::specs::Shapes::field_and_steps))]
pub fn time_and_steps(alloc: Global, words: &[&[u8]]) -> Result<(Timeout, Steps), LineError>
    ensures value { Gives (λ x. x) result (field_and_steps time_of (texts words.now)) }
    ensures few { IfOk result (λ x. length x.1 ≤ length words.now) }
{
    let (word, more) = one_and_more(words)?;
    let field = Timeout::parse(word)?;
    let steps = own_steps(alloc, more)?;
    Ok((field, steps))
}
