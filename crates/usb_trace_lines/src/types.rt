//! What the types of events say.

ghost use Rattle.std.specs.Prelude.{IfSome};
ghost use Rattle.std.specs.List.{All};
ghost use Rattle.usb_trace_lines.specs.Forms.{IsU8, IsU64, HasBytes};
ghost use Rattle.usb_trace_lines.specs.Types.{IsTyped};

use crate::reading::are_bytes;
use usb_kernel::{Body, Event, Kernel};

/// A device and an endpoint fit their types.
fn place_is_typed(device: u8, endpoint: u8)
    ensures device { IsU8 device }
    ensures endpoint { IsU8 endpoint }
{}

/// So does a ticket.
fn ticket_is_typed(ticket: u64)
    ensures ticket { IsU64 ticket }
{}

/// So does a deadline.
fn deadline_is_typed(deadline: Option<u64>)
    ensures deadline { IfSome deadline IsU64 }
{
    if let Some(deadline) = deadline {
        ticket_is_typed(deadline);
    }
}

/// What a body sends is bytes.
fn body_is_typed(body: &Body)
    ensures bytes { HasBytes body.now }
{
    if let Body::Sent(bytes) = body {
        are_bytes(bytes.as_slice());
    }
}

/// Each field of an event is in the range of its type.
pub(crate) fn event_is_typed(event: &Event)
    ensures typed { IsTyped event.now }
{
    match event {
        Event::Submit {
            ticket,
            device,
            endpoint,
            body,
            deadline,
            ..
        } => {
            ticket_is_typed(*ticket);
            place_is_typed(*device, *endpoint);
            body_is_typed(body);
            deadline_is_typed(*deadline);
        }
        Event::Refuse {
            ticket,
            device,
            endpoint,
            body,
            ..
        } => {
            ticket_is_typed(*ticket);
            place_is_typed(*device, *endpoint);
            body_is_typed(body);
        }
        Event::Packet {
            device,
            endpoint,
            bytes,
        } => {
            place_is_typed(*device, *endpoint);
            are_bytes(bytes.as_slice());
        }
        Event::Ack { device, endpoint }
        | Event::Fail {
            device,
            endpoint,
            ..
        } => {
            place_is_typed(*device, *endpoint);
        }
        Event::Echo {
            device,
            output,
            input,
        } => {
            place_is_typed(*device, *output);
            place_is_typed(*device, *input);
        }
        Event::Discard { ticket } | Event::Reap { ticket } => ticket_is_typed(*ticket),
        Event::Unplug { device } => place_is_typed(*device, 0),
    }
}

/// So it is of each event of a kernel's journal.
pub fn journal_is_typed(kernel: &Kernel)
    ensures typed { All IsTyped kernel.now.past }
{
    for event in kernel.journal() {
        event_is_typed(event);
    }
}
