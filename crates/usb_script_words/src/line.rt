//! The steps of a line.

ghost use Rattle.std.specs.Prelude.{◌≡◌, ◌≤◌, ◌+◌, length, drop, IfOk};
ghost use Rattle.usb_script_words.specs.Fields.{texts};
ghost use Rattle.usb_script_words.specs.Outcome.{Gives};
ghost use Rattle.usb_script_words.specs.KernelSteps.{IsFirstPart, steps_of, own_steps_of};

use crate::kernel_steps::Steps;
use crate::step::step;
use crate::{LineError, reads};
use std::alloc::Global;

/// The words before the first semicolon, and what begins with it.
fn first_part<'w, 'a>(words: &'w [&'a [u8]]) -> (&'w [&'a [u8]], &'w [&'a [u8]])
    ensures parts { IsFirstPart (texts words.now) (texts result.0.now) (texts result.1.now) }
    ensures back { result.1.now ≡ drop (length result.0.now) words.now }
    ensures all { length result.0.now + length result.1.now ≡ length words.now }
{
    for (i, word) in words.iter().enumerate() {
        if reads(*word, b";") {
            return words.split_at(i);
        }
    }
    words.split_at(words.len())
}

/// The steps of these words, at least one, joined by semicolons.
pub fn steps(alloc: Global, words: &[&[u8]]) -> Result<Steps, LineError>
    ensures value { Gives (λ s. s) result (steps_of (texts words.now)) }
    ensures few { IfOk result (λ steps. length steps ≤ length words.now + 1) }
{
    let mut steps = Vec::new(alloc);
    let mut start = 0usize;
    'parts: loop {
        let (part, after) = first_part(&words[start..]);
        let next = step(alloc, part)?;
        steps.push(next)?;
        if after.is_empty() {
            return Ok(Steps::from_vec(steps));
        }
        start += part.len() + 1;
    }
}

/// The steps of a call to the end of its line: none, or those behind a colon.
#[tactic(auto, unfolding(crate::specs::KernelSteps::own_steps_of))]
pub fn own_steps(alloc: Global, words: &[&[u8]]) -> Result<Steps, LineError>
    ensures value { Gives (λ s. s) result (own_steps_of (texts words.now)) }
    ensures few { IfOk result (λ steps. length steps ≤ length words.now) }
{
    match words {
        [] => Ok(Steps::from_vec(Vec::new(alloc))),
        [colon, behind @ ..] => {
            if reads(*colon, b":") {
                steps(alloc, behind)
            } else {
                Err(LineError::Malformed)
            }
        }
    }
}
