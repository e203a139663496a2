//! The lines of a script, each by itself.

ghost use Rattle.std.specs.Prelude.{◌≡◌, ◌≤◌, length, IfOk};
ghost use Rattle.std.specs.List.{list_all};
ghost use Rattle.usb_script_words.specs.Lines.{is_printable, without_cr};
ghost use Rattle.usb_script_words.specs.Fields.{texts};
ghost use Rattle.usb_script_words.specs.Outcome.{Gives};
ghost use Rattle.usb_script_lines.specs.LineForms.{form_of, item_of, item_reading_of, reading_of};
ghost use Rattle.usb_script_lines.specs.ItemKinds.{places_in, places_read};

use crate::by_letter::with_first_word;
use crate::item::Item;
use crate::reading::Reading;
use std::alloc::Global;
use usb_script_words::{LineError, is_skipped, split_words};

/// Whether a line holds nothing but spaces and visible characters of ASCII.
fn is_printable(line: &[u8]) -> bool
    ensures value { result ≡ list_all is_printable line.now }
{
    line.iter().all(|b| 32 <= *b && *b <= 126)
}

/// The item of these words.
#[tactic(auto, unfolding(crate::specs::LineForms::form_of))]
pub fn read_words(alloc: Global, words: &[&[u8]]) -> Result<Item, LineError>
    ensures value { Gives (λ i. i) result (form_of (texts words.now)) }
    ensures few { IfOk result (λ item. places_in item ≤ length words.now) }
{
    match words {
        [name, rest @ ..] => with_first_word(alloc, *name, rest),
        [] => Err(LineError::Malformed),
    }
}

/// The item of a line, which is split into these words.
#[tactic(auto, unfolding(crate::specs::LineForms::item_of))]
fn item_line<'a>(
    alloc: Global,
    words: &mut Vec<&'a [u8]>,
    line: &'a [u8],
) -> Result<Item, LineError>
    ensures value { Gives (λ i. i) result (item_of line.now) }
    ensures few { IfOk result (λ item. places_in item ≤ length line.now) }
{
    split_words(line, words)?;
    read_words(alloc, words.as_slice())
}

/// What a line gives that isn't skipped.
#[tactic(auto, unfolding(crate::specs::LineForms::item_reading_of))]
fn read_item<'a>(
    alloc: Global,
    words: &mut Vec<&'a [u8]>,
    line: &'a [u8],
) -> Result<Reading, LineError>
    ensures value { Gives (λ r. r) result (item_reading_of line.now) }
    ensures few { IfOk result (λ reading. places_read reading ≤ length line.now) }
{
    if !is_printable(line) {
        return Err(LineError::Malformed);
    }
    match item_line(alloc, words, line) {
        Ok(item) => Ok(Reading::Read(item)),
        Err(error) => Err(error),
    }
}

/// The line without one CR at its end.
fn without_cr(line: &[u8]) -> &[u8]
    ensures value { result.now ≡ without_cr line.now }
    ensures within { length result.now ≤ length line.now }
{
    match line {
        [front @ .., b'\r'] => front,
        _ => line,
    }
}

/// What a line gives, which may have a CR at its end. It is split into these words, which are used for each line.
#[tactic(auto, unfolding(crate::specs::LineForms::reading_of, crate::specs::LineForms::own_reading_of))]
pub fn read_line<'a>(
    alloc: Global,
    words: &mut Vec<&'a [u8]>,
    line: &'a [u8],
) -> Result<Reading, LineError>
    ensures value { Gives (λ r. r) result (reading_of line.now) }
    ensures few { IfOk result (λ reading. places_read reading ≤ length line.now) }
{
    let line = without_cr(line);
    if is_skipped(line) {
        return Ok(Reading::Skipped);
    }
    read_item(alloc, words, line)
}
