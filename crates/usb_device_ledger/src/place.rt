//! Where a ticket is.

ghost use Rattle.std.specs.Prelude.{◌≡◌, slice_get, option_and_then};
ghost use Rattle.usb_device_ledger.specs.Places.{place_key, place_end};

use crate::ends::TicketEnd;
use crate::pool::SlotKey;

/// Where a ticket is: what stands of it has a key while it has no end, and then its end is all that
/// is kept.
#[derive(Clone, Copy)]
pub(crate) enum TicketPlace {
    At(SlotKey),
    Over(TicketEnd),
}

/// The key of a ticket, if it has no end.
pub(crate) fn key_at(places: &[TicketPlace], ticket: usize) -> Option<SlotKey>
    ensures key { result ≡ option_and_then place_key (slice_get places.now ticket) }
{
    match places.get(ticket) {
        Some(TicketPlace::At(key)) => Some(*key),
        _ => None,
    }
}

/// The end of a ticket, if it has one.
pub(crate) fn end_at(places: &[TicketPlace], ticket: usize) -> Option<TicketEnd>
    ensures end { result ≡ option_and_then place_end (slice_get places.now ticket) }
{
    match places.get(ticket) {
        Some(TicketPlace::Over(end)) => Some(*end),
        _ => None,
    }
}
