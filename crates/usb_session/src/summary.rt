//! The counts of a session.

ghost use Rattle.std.specs.Prelude.{◌≡◌};
ghost use Rattle.std.specs.List.{count_by};
ghost use Rattle.usb_device_host.specs.Finishes.{HasEnds};
ghost use Rattle.usb_session.specs.Sums.{counts_of, has_end, is_same_end, ticket_has};

use usb_device::{Host, TicketEnd};

/// What a session came to: how many calls were answered, how many tickets there were, and how many of them were taken,
/// dropped and reclaimed.
#[derive(Clone, Copy, Debug, PartialEq, Eq)]
pub struct Summary {
    pub calls: u32,
    pub tickets: u64,
    pub taken: u64,
    pub dropped: u64,
    pub reclaimed: u64,
}

/// Whether two ends are the same.
fn is_same(a: TicketEnd, b: TicketEnd) -> bool
    ensures same { result ≡ is_same_end a b }
{
    match a {
        TicketEnd::Taken => matches!(b, TicketEnd::Taken),
        TicketEnd::Dropped => matches!(b, TicketEnd::Dropped),
        TicketEnd::Reclaimed => matches!(b, TicketEnd::Reclaimed),
    }
}

/// Whether a ticket of a host has this end.
fn has_end(host: &Host, ticket: u64, end: TicketEnd) -> bool
    ensures has { result ≡ ticket_has host.now.tickets ticket end }
{
    match host.ticket_end(ticket) {
        Some(its) => is_same(its, end),
        None => false,
    }
}

/// How many tickets of a host have this end.
fn count_of(host: &Host, end: TicketEnd) -> u64
    ensures count { result ≡ count_by (has_end end) host.now.tickets }
{
    let mut count = 0;
    for ticket in 0..host.tickets() {
        if has_end(host, ticket, end) {
            count += 1;
        }
    }
    count
}

impl Summary {
    /// The counts of a host at which each ticket has its end, with so many calls.
    pub fn of(host: &Host, calls: u32) -> Summary
        requires ended { HasEnds host.now.tickets }
        ensures value { result ≡ counts_of calls host.now }
    {
        let tickets = host.tickets();
        let taken = count_of(host, TicketEnd::Taken);
        let dropped = count_of(host, TicketEnd::Dropped);
        Summary {
            calls,
            tickets,
            taken,
            dropped,
            reclaimed: tickets - taken - dropped,
        }
    }
}
