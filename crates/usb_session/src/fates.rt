//! The fate of each ticket, read from a host.

ghost use Rattle.std.specs.Prelude.{◌≡◌, ◌<◌, ◌++◌, OnOk, length, string_bytes};
ghost use Rattle.usb_kernel.specs.Tickets.{tickets};
ghost use Rattle.usb_session.specs.Fates.{fate_line};
ghost use Rattle.usb_session.specs.EndWords.{word_of};

use usb_desc::NoMemory;
use usb_device::{Host, TicketEnd};
use usb_session_text::write_ticket;

/// How a ticket ended.
fn word_of(end: Option<TicketEnd>) -> &'static str
    ensures word { result.now ≡ word_of end }
{
    match end {
        Some(TicketEnd::Taken) => "taken",
        Some(TicketEnd::Dropped) => "dropped",
        Some(TicketEnd::Reclaimed) => "reclaimed",
        None => "",
    }
}

/// How many tickets a host has.
pub fn tickets(host: &Host) -> u64
    ensures count { result ≡ length (tickets host.now.kernel.past) }
{
    host.tickets()
}

/// Appends the fate line of a ticket, with its LF.
pub fn write_fate(line: &mut String, host: &Host, ticket: u64) -> Result<(), NoMemory>
    requires below { ticket < length (tickets host.now.kernel.past) }
    ensures line { OnOk result
        (string_bytes line.new ≡ string_bytes line.old ++ fate_line host.now ticket) }
{
    let info = host.kernel().ticket(ticket);
    let how = word_of(host.ticket_end(ticket));
    write_ticket(line, ticket, &info, how)
}
