//! The fate line of a ticket.

ghost use Rattle.std.specs.Prelude.{◌≡◌, ◌++◌, OnOk, string_bytes, [], ◌∷◌};
ghost use Rattle.usb_session_text.specs.Tickets.{ticket_line, device_word, status_words};
ghost use Rattle.usb_session_text.specs.Words.{part, two_digits};

use crate::completions::push_status;
use crate::words::{end_line, push_number, push_number_part, push_space, push_two_digits};
use usb_desc::NoMemory;
use usb_kernel::TicketInfo;
use usb_xfer::transfer_status;

/// Appends the device and the endpoint of a ticket, each with a space before it.
fn push_place(out: &mut String, info: &TicketInfo) -> Result<(), NoMemory>
    ensures text { OnOk result (string_bytes out.new ≡ string_bytes out.old
        ++ part (device_word info.now.device) ++ part (two_digits info.now.endpoint)) }
{
    out.push_str(" k")?;
    push_number(out, u64::from(info.device))?;
    push_space(out)?;
    push_two_digits(out, info.endpoint)
}

/// Appends the status and the count of a ticket, each with a space before it.
fn push_status_part(out: &mut String, info: &TicketInfo) -> Result<(), NoMemory>
    ensures text { OnOk result
        (string_bytes out.new ≡ string_bytes out.old ++ part (status_words info.now)) }
{
    push_space(out)?;
    let status = transfer_status(info.refused, info.status.unwrap_or(0));
    push_status(out, &status)?;
    push_number_part(out, info.count as u64)
}

/// Appends the end of a ticket with a space before it, and ends the line.
fn push_end(out: &mut String, how: &str) -> Result<(), NoMemory>
    ensures text { OnOk result
        (string_bytes out.new ≡ string_bytes out.old ++ part how.now ++ 10 ∷ []) }
{
    push_space(out)?;
    out.push_str(how)?;
    end_line(out)
}

/// Appends the fate line of a ticket.
#[tactic(auto, unfolding(crate::specs::Tickets::ticket_line, crate::specs::Words::hex_word))]
pub fn write_ticket(
    out: &mut String,
    ticket: u64,
    info: &TicketInfo,
    how: &str,
) -> Result<(), NoMemory>
    ensures text { OnOk result
        (string_bytes out.new ≡ string_bytes out.old ++ ticket_line ticket info.now how.now) }
{
    out.push_str("ticket")?;
    push_number_part(out, ticket)?;
    push_place(out, info)?;
    push_status_part(out, info)?;
    push_end(out, how)?;
    Ok(())
}
