//! Steps by their first word.

ghost use Rattle.std.specs.Prelude.{IfOk, codes};
ghost use Rattle.usb_script_words.specs.Fields.{texts};
ghost use Rattle.usb_script_words.specs.Outcome.{Gives};
ghost use Rattle.usb_script_words.specs.Tables.{read_by};
ghost use Rattle.usb_script_words.specs.StepForms.{step_forms, step_of};
ghost use Rattle.usb_script_words.specs.StepRanges.{IsStepInRange};

use crate::{
    Data, LineError, MAX_TIME, Name, call, errno, hex_byte, no_word, number, one_word, reads,
    three_words, two_words,
};
use std::alloc::Global;
use usb_kernel::KernelStep;

/// The greatest number of a ticket that a script may name.
const MAX_TICKET: u64 = 4294967295;

/// `reap`, `reap T`
#[tactic(auto, unfolding(crate::specs::StepForms::step_forms, crate::specs::Fields::no_word, crate::specs::Fields::one_word, crate::specs::Fields::one_field))]
fn reap_step(words: &[&[u8]]) -> Result<KernelStep, LineError>
    ensures value { Gives (λ s. s) result (read_by step_forms (codes "reap") (texts words.now)) }
    ensures range { IfOk result IsStepInRange }
{
    if words.is_empty() {
        return Ok(KernelStep::Reap { ticket: None });
    }
    let ticket = number(MAX_TICKET, one_word(words)?)?;
    Ok(KernelStep::Reap {
        ticket: Some(ticket),
    })
}

/// The step with this first word.
#[tactic(auto, unfolding(crate::specs::StepForms::step_forms, crate::specs::Fields::one_field, crate::specs::Fields::two_fields, crate::specs::Fields::three_fields))]
fn named_step(alloc: Global, name: &[u8], words: &[&[u8]]) -> Result<KernelStep, LineError>
    ensures value { Gives (λ s. s) result (read_by step_forms name.now (texts words.now)) }
    ensures range { IfOk result IsStepInRange }
{
    if reads(name, b"pkt") {
        let (device, endpoint, sent) = three_words(words)?;
        Ok(KernelStep::Packet {
            device: Name::parse(b'k', device)?.number(),
            endpoint: hex_byte(endpoint)?,
            bytes: Data::parse(alloc, sent)?.into_bytes(),
        })
    } else if reads(name, b"ack") {
        let (device, endpoint) = two_words(words)?;
        Ok(KernelStep::Ack {
            device: Name::parse(b'k', device)?.number(),
            endpoint: hex_byte(endpoint)?,
        })
    } else if reads(name, b"echo") {
        let (device, output, input) = three_words(words)?;
        Ok(KernelStep::Echo {
            device: Name::parse(b'k', device)?.number(),
            output: hex_byte(output)?,
            input: hex_byte(input)?,
        })
    } else if reads(name, b"fail") {
        let (device, endpoint, code) = three_words(words)?;
        Ok(KernelStep::Fail {
            device: Name::parse(b'k', device)?.number(),
            endpoint: hex_byte(endpoint)?,
            errno: errno(code)?,
        })
    } else if reads(name, b"unplug") {
        let device = Name::parse(b'k', one_word(words)?)?.number();
        Ok(KernelStep::Unplug { device })
    } else if reads(name, b"clock") {
        let to = number(MAX_TIME, one_word(words)?)?;
        Ok(KernelStep::Clock { to })
    } else if reads(name, b"timer") {
        no_word(words)?;
        Ok(KernelStep::Timer)
    } else if reads(name, b"refuse") {
        let (device, kind, code) = three_words(words)?;
        Ok(KernelStep::Refuse {
            device: Name::parse(b'k', device)?.number(),
            call: call(kind)?,
            errno: errno(code)?,
        })
    } else if reads(name, b"reap") {
        reap_step(words)
    } else {
        Err(LineError::Malformed)
    }
}

/// The step of these words.
#[tactic(auto, unfolding(crate::specs::StepForms::step_of))]
pub fn step(alloc: Global, words: &[&[u8]]) -> Result<KernelStep, LineError>
    ensures value { Gives (λ s. s) result (step_of (texts words.now)) }
    ensures range { IfOk result IsStepInRange }
{
    match words {
        [name, rest @ ..] => named_step(alloc, *name, rest),
        _ => Err(LineError::Malformed),
    }
}
