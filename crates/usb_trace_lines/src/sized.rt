//! Whether lines can tell events.

ghost use Rattle.std.specs.Prelude.{◌↔◌, reverse, IsTrue};
ghost use Rattle.std.specs.List.{All};
ghost use Rattle.usb_trace_lines.specs.Forms.{IsSized, IsBodySized};

use usb_kernel::{Body, Event, Kernel};

/// The most bytes that a body has or wants: 65,536 rounded up to a multiple of a maximum packet
/// size, which is at most 2047.
pub(crate) const MAX_BODY: usize = 67582;

/// The most bytes of a packet, and the greatest maximum.
pub(crate) const MAX_PACKET: usize = 65536;

/// Whether a line can tell a body.
fn is_body_sized(body: &Body) -> bool
    ensures value { IsTrue result ↔ IsBodySized body.now }
{
    match body {
        Body::Wanted(wanted) => *wanted <= MAX_BODY,
        Body::Sent(bytes) => bytes.as_slice().len() <= MAX_BODY,
    }
}

/// Whether a line can tell an event.
fn is_sized(event: &Event) -> bool
    ensures value { IsTrue result ↔ IsSized event.now }
{
    match event {
        Event::Submit { maximum, body, .. } => *maximum <= MAX_PACKET && is_body_sized(body),
        Event::Refuse {
            maximum,
            body,
            errno,
            ..
        } => *maximum <= MAX_PACKET && is_body_sized(body) && *errno >= 1 && *errno <= 4095,
        Event::Packet { bytes, .. } => bytes.as_slice().len() <= MAX_PACKET,
        Event::Fail { errno, .. } => *errno >= 1 && *errno <= 4095,
        Event::Ack { .. }
        | Event::Echo { .. }
        | Event::Discard { .. }
        | Event::Reap { .. }
        | Event::Unplug { .. } => true,
    }
}

/// Whether lines can tell the journal of a kernel, which `write_trace` asks for.
pub fn can_be_written(kernel: &Kernel) -> bool
    ensures value { IsTrue result ↔ All IsSized (reverse kernel.now.past) }
{
    kernel.journal().iter().all(|event| is_sized(event))
}
