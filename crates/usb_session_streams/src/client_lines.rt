//! The lines of what a client of messages answers.

ghost use Rattle.std.specs.Prelude.{◌≡◌, ◌≢◌, ◌++◌, OnOk, codes, string_bytes};
ghost use Rattle.usb_session_text.specs.Words.{part};
ghost use Rattle.usb_session_streams.specs.ClientLines.{message_error_line, tag_line, body_line};

use crate::write_io_fault;
use usb_desc::NoMemory;
use usb_msg::MsgError;
use usb_session_text::{end_line, push_bytes, push_number_part};

/// Appends the tag of a request that was accepted: `request T`.
#[tactic(auto, unfolding(crate::specs::ClientLines::tag_line))]
pub(crate) fn write_tag(out: &mut String, tag: u32) -> Result<(), NoMemory>
    ensures text { OnOk result (string_bytes out.new ≡ string_bytes out.old ++ tag_line tag) }
{
    out.push_str("request")?;
    push_number_part(out, u64::from(tag))?;
    end_line(out)
}

/// Appends the body of a response: `response HEX`.
#[tactic(auto, unfolding(crate::specs::ClientLines::body_line))]
pub(crate) fn write_body(out: &mut String, body: &[u8]) -> Result<(), NoMemory>
    ensures text { OnOk result
        (string_bytes out.new ≡ string_bytes out.old ++ body_line body.now) }
{
    out.push_str("response ")?;
    push_bytes(out, body)?;
    end_line(out)
}

/// Appends that a message ended a client, and what is wrong with it.
fn push_what(out: &mut String, what: &str) -> Result<(), NoMemory>
    ensures text { OnOk result (string_bytes out.new
        ≡ string_bytes out.old ++ codes "msgerror" ++ part what.now) }
{
    out.push_str("msgerror ")?;
    out.push_str(what)?;
    Ok(())
}

/// Appends that a message has no tag: `msgerror short N`.
fn write_short(out: &mut String, len: u32) -> Result<(), NoMemory>
    ensures text { OnOk result (string_bytes out.new
        ≡ string_bytes out.old ++ message_error_line (MsgError.Short len)) }
{
    push_what(out, "short")?;
    push_number_part(out, u64::from(len))?;
    end_line(out)
}

/// Appends that a message is too long: `msgerror too-long`.
fn write_too_long(out: &mut String) -> Result<(), NoMemory>
    ensures text { OnOk result (string_bytes out.new
        ≡ string_bytes out.old ++ message_error_line MsgError.TooLong) }
{
    push_what(out, "too-long")?;
    end_line(out)
}

/// Appends that a message has another tag than is due: `msgerror wrong-tag E G`.
fn write_wrong_tag(out: &mut String, expected: u32, got: u32) -> Result<(), NoMemory>
    ensures text { OnOk result (string_bytes out.new
        ≡ string_bytes out.old ++ message_error_line (MsgError.WrongTag expected got)) }
{
    push_what(out, "wrong-tag")?;
    push_number_part(out, u64::from(expected))?;
    push_number_part(out, u64::from(got))?;
    end_line(out)
}

/// Appends why a call of a client failed.
///
/// # Errors
///
/// Want of memory, for the line or as the error, which has no line.
pub(crate) fn write_message_error(out: &mut String, error: &MsgError) -> Result<(), NoMemory>
    ensures text { OnOk result
        (string_bytes out.new ≡ string_bytes out.old ++ message_error_line error.now) }
    ensures known { OnOk result (error.now ≢ MsgError.Memory) }
{
    match error {
        MsgError::Short { len } => write_short(out, *len),
        MsgError::TooLong => write_too_long(out),
        MsgError::WrongTag { expected, got } => write_wrong_tag(out, *expected, *got),
        MsgError::Io(fault) => write_io_fault(out, fault),
        MsgError::Memory => Err(NoMemory),
    }
}
