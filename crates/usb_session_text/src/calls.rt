//! The lines of calls that give no value.

ghost use Rattle.std.specs.Prelude.{◌≡◌, ◌++◌, OnOk, string_bytes};
ghost use Rattle.usb_error.specs.Texts.{error_text};
ghost use Rattle.usb_session_text.specs.Calls.{ok_line, condition_line, error_line, result_line};

use crate::words::{end_line, push_number, push_space};
use usb_desc::NoMemory;
use usb_error::Error;

/// Appends the answer of a call that is done.
pub fn write_ok(out: &mut String) -> Result<(), NoMemory>
    ensures text { OnOk result (string_bytes out.new ≡ string_bytes out.old ++ ok_line) }
{
    out.push_str("ok\n")?;
    Ok(())
}

/// Appends the answer of a barred call.
pub fn write_condition(out: &mut String) -> Result<(), NoMemory>
    ensures text { OnOk result (string_bytes out.new ≡ string_bytes out.old ++ condition_line) }
{
    out.push_str("condition\n")?;
    Ok(())
}

/// Appends the text of an error: its message, and its code where one stands.
fn push_error_text(out: &mut String, error: &Error) -> Result<(), NoMemory>
    ensures text { OnOk result
        (string_bytes out.new ≡ string_bytes out.old ++ error_text error.now) }
{
    out.push_str(error.message().as_str())?;
    if let Some(code) = error.os_error() {
        out.push_str(" (errno ")?;
        push_number(out, u64::from(code))?;
        out.push_str(")")?;
    }
    Ok(())
}

/// Appends the answer of a call that is refused: the kind of its error and the text.
#[tactic(auto, unfolding(crate::specs::Calls::error_line))]
pub fn write_error(out: &mut String, error: &Error) -> Result<(), NoMemory>
    ensures text { OnOk result
        (string_bytes out.new ≡ string_bytes out.old ++ error_line error.now) }
{
    out.push_str("error ")?;
    out.push_str(error.kind().as_str())?;
    push_space(out)?;
    push_error_text(out, error)?;
    end_line(out)
}

/// Appends the answer of a call that gives no value: done, or refused.
pub fn write_result(out: &mut String, answer: &Result<(), Error>) -> Result<(), NoMemory>
    ensures text { OnOk result
        (string_bytes out.new ≡ string_bytes out.old ++ result_line answer.now) }
{
    match answer {
        Ok(()) => write_ok(out),
        Err(error) => write_error(out, error),
    }
}
