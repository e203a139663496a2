//! The lines of completions, of the count of pending transfers, and of the clock.

ghost use Rattle.std.specs.Prelude.{◌≡◌, ◌++◌, OnOk, decimal, string_bytes};
ghost use Rattle.usb_xfer.specs.TransferTexts.{word_of_status};
ghost use Rattle.usb_session_text.specs.Completions.{done_line, polled_line, waited_line, count_line, now_line};
ghost use Rattle.usb_session_text.specs.Words.{part};

use crate::words::{end_line, push_bytes, push_number, push_number_part, push_space};
use usb_desc::NoMemory;
use usb_xfer::{Completion, TransferError};

/// Appends the word of a status.
pub fn push_status(out: &mut String, status: &Result<(), TransferError>) -> Result<(), NoMemory>
    ensures text { OnOk result
        (string_bytes out.new ≡ string_bytes out.old ++ word_of_status status.now) }
{
    match status {
        Ok(()) => out.push_str("ok")?,
        Err(TransferError::Cancelled) => out.push_str("cancelled")?,
        Err(TransferError::Stall) => out.push_str("stall")?,
        Err(TransferError::Disconnected) => out.push_str("disconnected")?,
        Err(TransferError::Fault) => out.push_str("fault")?,
        Err(TransferError::InvalidArgument) => out.push_str("invalid")?,
        Err(TransferError::Unknown(code)) => {
            out.push_str("unknown:")?;
            push_number(out, u64::from(*code))?;
        }
    }
    Ok(())
}

/// Appends the transferred and the requested length, each with a space before it.
fn push_lengths(out: &mut String, done: &Completion) -> Result<(), NoMemory>
    ensures text { OnOk result (string_bytes out.new ≡ string_bytes out.old
        ++ part (decimal done.now.actual_len) ++ part (decimal done.now.buffer.requested)) }
{
    let count = done.actual_len;
    let requested = done.buffer.requested_len();
    push_number_part(out, count as u64)?;
    push_number_part(out, requested as u64)
}

#[tactic(auto, unfolding(crate::specs::Completions::done_line))]
fn write_done(out: &mut String, done: &Completion) -> Result<(), NoMemory>
    ensures text { OnOk result (string_bytes out.new ≡ string_bytes out.old ++ done_line done.now) }
{
    out.push_str("done ")?;
    push_status(out, &done.status)?;
    push_lengths(out, done)?;
    push_space(out)?;
    push_bytes(out, done.buffer.as_slice())?;
    end_line(out)
}

/// Appends the answer of a poll: a completion, or `pending`.
pub fn write_polled(out: &mut String, done: &Option<Completion>) -> Result<(), NoMemory>
    ensures text { OnOk result
        (string_bytes out.new ≡ string_bytes out.old ++ polled_line done.now) }
{
    match done {
        Some(done) => write_done(out, done),
        None => {
            out.push_str("pending\n")?;
            Ok(())
        }
    }
}

/// Appends the answer of a wait: a completion, or `none`.
pub fn write_waited(out: &mut String, done: &Option<Completion>) -> Result<(), NoMemory>
    ensures text { OnOk result
        (string_bytes out.new ≡ string_bytes out.old ++ waited_line done.now) }
{
    match done {
        Some(done) => write_done(out, done),
        None => {
            out.push_str("none\n")?;
            Ok(())
        }
    }
}

/// Appends the number of pending transfers.
#[tactic(auto, unfolding(crate::specs::Completions::count_line))]
pub fn write_count(out: &mut String, count: usize) -> Result<(), NoMemory>
    ensures text { OnOk result (string_bytes out.new ≡ string_bytes out.old ++ count_line count) }
{
    out.push_str("count")?;
    push_number_part(out, count as u64)?;
    end_line(out)
}

/// Appends the clock in nanoseconds.
#[tactic(auto, unfolding(crate::specs::Completions::now_line))]
pub fn write_now(out: &mut String, clock: u64) -> Result<(), NoMemory>
    ensures text { OnOk result (string_bytes out.new ≡ string_bytes out.old ++ now_line clock) }
{
    out.push_str("now")?;
    push_number_part(out, clock)?;
    end_line(out)
}
