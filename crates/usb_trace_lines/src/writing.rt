//! Writing the trace of a kernel.

ghost use Rattle.std.specs.Prelude.{◌≡◌, ◌+◌, ◌≤◌, ◌<◌, ◌++◌, [], ◌∷◌, flat_map, length, decimal, OnOk, OnErr, reverse, Some};
ghost use Rattle.std.specs.List.{All};
ghost use Rattle.usb_xfer.specs.TransferTexts.{error_word};
ghost use Rattle.usb_session_text.specs.Words.{part, two_digits};
ghost use Rattle.usb_kernel.specs.Tickets.{tickets};
ghost use Rattle.usb_trace_lines.specs.Fates.{fates_of};
ghost use Rattle.usb_trace_lines.specs.Forms.{IsSized, IsBodySized};
ghost use Rattle.usb_trace_lines.specs.Texts.{direction_word, body_word, deadline_word, fate_word, event_text, fate_text, trace};
ghost use Rattle.usb_trace_lines.specs.Types.{IsTyped};
ghost use Rattle.usb_trace_lines.specs.Written.{begun_with, ended_line, HasWritten, HasStopped};

use crate::fate_line::FateLine;
use crate::lines::{Failed, Lines};
use crate::types::event_is_typed;
use crate::words::{put_bytes, put_endpoint, put_number, put_word};
use itoa::Buffer;
use usb_kernel::{Body, Event, Kernel};
use usb_xfer::TransferError;

/// Appends a direction, and how many bytes are wanted or which are sent, each with a space before it.
fn put_body<K: Lines>(out: &mut K, body: &Body)
    requires room { length (K.state out.old).begun ≤ 200 }
    requires sized { IsBodySized body.now }
    ensures more { K.state out.new ≡ begun_with (K.state out.old)
        (part (direction_word body.now) ++ part (body_word body.now)) }
    ensures short { length (K.state out.new).begun ≤ length (K.state out.old).begun + 135200 }
{
    match body {
        Body::Wanted(wanted) => {
            put_word(out, b"in");
            put_number(out, *wanted as u64);
        }
        Body::Sent(bytes) => {
            put_word(out, b"out");
            put_bytes(out, bytes.as_slice());
        }
    }
}

/// Appends a deadline with a space before it, or a dash for none.
fn put_deadline<K: Lines>(out: &mut K, deadline: Option<u64>)
    requires room { length (K.state out.old).begun + 21 ≤ 140000 }
    ensures more { K.state out.new ≡ begun_with (K.state out.old) (part (deadline_word deadline)) }
{
    match deadline {
        None => put_word(out, b"-"),
        Some(deadline) => put_number(out, deadline),
    }
}

/// Appends a device and an endpoint address, each with a space before it.
fn put_place<K: Lines>(out: &mut K, device: u8, endpoint: u8)
    requires room { length (K.state out.old).begun ≤ 200 }
    ensures more { K.state out.new ≡ begun_with (K.state out.old)
        (part (decimal device) ++ part (two_digits endpoint)) }
    ensures short { length (K.state out.new).begun ≤ length (K.state out.old).begun + 24 }
{
    put_number(out, u64::from(device));
    put_endpoint(out, endpoint);
}

/// Appends what the lines of a submission and of a refusal share: ticket, device, endpoint, maximum
/// and body.
fn put_submission<K: Lines>(
    out: &mut K,
    ticket: u64,
    device: u8,
    endpoint: u8,
    maximum: usize,
    body: &Body,
)
    requires room { length (K.state out.old).begun ≤ 6 }
    requires sized { IsBodySized body.now }
    ensures more { K.state out.new ≡ begun_with (K.state out.old)
        (part (decimal ticket) ++ part (decimal device) ++ part (two_digits endpoint)
        ++ part (decimal maximum) ++ part (direction_word body.now) ++ part (body_word body.now)) }
    ensures short { length (K.state out.new).begun ≤ length (K.state out.old).begun + 135400 }
{
    put_number(out, ticket);
    put_place(out, device, endpoint);
    put_number(out, maximum as u64);
    put_body(out, body);
}

/// Appends the words of an event.
#[tactic(auto, unfolding(crate::specs::Texts::event_text))]
pub(crate) fn put_event<K: Lines>(out: &mut K, event: &Event)
    requires empty { (K.state out.old).begun ≡ [] }
    requires sized { IsSized event.now }
    ensures line { ended_line (K.state out.new) ≡ event_text event.now }
    ensures rest { K.state out.new
        ≡ record (K.state out.old) { begun = (K.state out.new).begun } }
{
    match event {
        Event::Submit {
            ticket,
            device,
            endpoint,
            maximum,
            body,
            capacity: _,
            deadline,
        } => {
            out.put(b"submit");
            put_submission(out, *ticket, *device, *endpoint, *maximum, body);
            put_deadline(out, *deadline);
        }
        Event::Refuse {
            ticket,
            device,
            endpoint,
            maximum,
            body,
            capacity: _,
            errno,
        } => {
            out.put(b"refuse");
            put_submission(out, *ticket, *device, *endpoint, *maximum, body);
            put_number(out, u64::from(*errno));
        }
        Event::Packet {
            device,
            endpoint,
            bytes,
        } => {
            out.put(b"pkt");
            put_place(out, *device, *endpoint);
            put_bytes(out, bytes.as_slice());
        }
        Event::Ack { device, endpoint } => {
            out.put(b"ack");
            put_place(out, *device, *endpoint);
        }
        Event::Echo {
            device,
            output,
            input,
        } => {
            out.put(b"echo");
            put_place(out, *device, *output);
            put_endpoint(out, *input);
        }
        Event::Fail {
            device,
            endpoint,
            errno,
        } => {
            out.put(b"fail");
            put_place(out, *device, *endpoint);
            put_number(out, u64::from(*errno));
        }
        Event::Discard { ticket } => {
            out.put(b"discard");
            put_number(out, *ticket);
        }
        Event::Reap { ticket } => {
            out.put(b"reap");
            put_number(out, *ticket);
        }
        Event::Unplug { device } => {
            out.put(b"unplug");
            put_number(out, u64::from(*device));
        }
    }
}

/// Writes the line of an event.
fn write_event<K: Lines>(out: &mut K, event: &Event) -> Result<(), Failed>
    requires empty { (K.state out.old).begun ≡ [] }
    requires sized { IsSized event.now }
    ensures ok { OnOk result
        (HasWritten (K.state out.old) (K.state out.new) (event_text event.now)) }
    ensures err { OnErr result
        (HasStopped (K.state out.old) (K.state out.new) (event_text event.now)) }
    ensures failed { OnErr result (K.has_failed out.new) }
{
    put_event(out, event);
    out.line()
}

/// Writes the lines of events.
fn write_events<K: Lines>(out: &mut K, events: &[Event]) -> Result<(), Failed>
    requires empty { (K.state out.old).begun ≡ [] }
    requires sized { All IsSized events.now }
    ensures ok { OnOk result
        (HasWritten (K.state out.old) (K.state out.new) (flat_map event_text events.now)) }
    ensures err { OnErr result
        (HasStopped (K.state out.old) (K.state out.new) (flat_map event_text events.now)) }
    ensures failed { OnErr result (K.has_failed out.new) }
    ensures typed { OnOk result (All IsTyped events.now) }
{
    for event in events {
        event_is_typed(event);
        write_event(out, event)?;
    }
    Ok(())
}

/// Appends the word of a transfer that failed, with a space before it.
fn put_error<K: Lines>(out: &mut K, error: TransferError)
    requires room { length (K.state out.old).begun ≤ 200 }
    ensures more { K.state out.new ≡ begun_with (K.state out.old) (part (error_word error)) }
    ensures short { length (K.state out.new).begun ≤ length (K.state out.old).begun + 40 }
{
    match error {
        TransferError::Cancelled => put_word(out, b"cancelled"),
        TransferError::Stall => put_word(out, b"stall"),
        TransferError::Disconnected => put_word(out, b"disconnected"),
        TransferError::Fault => put_word(out, b"fault"),
        TransferError::InvalidArgument => put_word(out, b"invalid"),
        TransferError::Unknown(code) => {
            let mut digits = Buffer::new();
            out.put(b" unknown:");
            out.put(digits.format(code).as_bytes());
        }
    }
}

/// Appends the word of a fate's status, with a space before it.
fn put_status<K: Lines>(out: &mut K, status: Option<Result<(), TransferError>>)
    requires room { length (K.state out.old).begun ≤ 200 }
    ensures more { K.state out.new ≡ begun_with (K.state out.old) (part (fate_word status)) }
    ensures short { length (K.state out.new).begun ≤ length (K.state out.old).begun + 40 }
{
    match status {
        None => put_word(out, b"open"),
        Some(Ok(())) => put_word(out, b"ok"),
        Some(Err(error)) => put_error(out, error),
    }
}

/// Appends the words of a fate.
#[tactic(auto, unfolding(crate::specs::Texts::fate_text))]
pub(crate) fn put_fate<K: Lines>(out: &mut K, fate: FateLine)
    requires empty { (K.state out.old).begun ≡ [] }
    ensures line { ended_line (K.state out.new) ≡ fate_text fate }
    ensures rest { K.state out.new
        ≡ record (K.state out.old) { begun = (K.state out.new).begun } }
{
    out.put(b"fate");
    put_number(out, fate.ticket);
    put_status(out, fate.status);
    put_number(out, fate.count);
}

/// Writes the line of a fate.
fn write_fate<K: Lines>(out: &mut K, fate: FateLine) -> Result<(), Failed>
    requires empty { (K.state out.old).begun ≡ [] }
    ensures ok { OnOk result (HasWritten (K.state out.old) (K.state out.new) (fate_text fate)) }
    ensures err { OnErr result (HasStopped (K.state out.old) (K.state out.new) (fate_text fate)) }
    ensures failed { OnErr result (K.has_failed out.new) }
{
    put_fate(out, fate);
    out.line()
}

/// Writes the fate lines of a kernel's tickets, by number.
fn write_fates<K: Lines>(out: &mut K, kernel: &Kernel) -> Result<(), Failed>
    requires empty { (K.state out.old).begun ≡ [] }
    ensures ok { OnOk result (HasWritten (K.state out.old) (K.state out.new)
        (flat_map fate_text (fates_of kernel.now.past))) }
    ensures err { OnErr result (HasStopped (K.state out.old) (K.state out.new)
        (flat_map fate_text (fates_of kernel.now.past))) }
    ensures failed { OnErr result (K.has_failed out.new) }
{
    for ticket in 0..kernel.tickets() {
        write_fate(out, FateLine::of(ticket, &kernel.ticket(ticket)))?;
    }
    Ok(())
}

/// Writes a line of these bytes.
fn write_line<K: Lines>(out: &mut K, bytes: &[u8]) -> Result<(), Failed>
    requires empty { (K.state out.old).begun ≡ [] }
    requires room { length bytes.now ≤ 140000 }
    ensures ok { OnOk result
        (HasWritten (K.state out.old) (K.state out.new) (bytes.now ++ 10 ∷ [])) }
    ensures err { OnErr result
        (HasStopped (K.state out.old) (K.state out.new) (bytes.now ++ 10 ∷ [])) }
    ensures failed { OnErr result (K.has_failed out.new) }
{
    out.put(bytes);
    out.line()
}

/// Writes the trace of a kernel's journal: a first line, a line for each event in order, one for the
/// fate of each ticket by number, and a last line. It takes no memory.
///
/// The line that is begun must be empty. Of the journal every body must have or want at most 67,582
/// bytes, every packet have at most 65,536, every maximum be at most 65,536, and every errno be from
/// 1 to 4095. An `Err` comes only where a write failed, and that was the last. Then a part of the
/// trace was written, and not all.
#[tactic(auto, unfolding(crate::specs::Texts::trace, crate::specs::Texts::trace_text))]
pub fn write_trace<K: Lines>(kernel: &Kernel, out: &mut K) -> Result<(), Failed>
    requires empty { (K.state out.old).begun ≡ [] }
    requires sized { All IsSized (reverse kernel.now.past) }
    ensures ok { OnOk result
        (HasWritten (K.state out.old) (K.state out.new) (trace kernel.now.past)) }
    ensures err { OnErr result
        (HasStopped (K.state out.old) (K.state out.new) (trace kernel.now.past)) }
    ensures failed { OnErr result (K.has_failed out.new) }
    ensures typed { OnOk result (All IsTyped kernel.now.past) }
{
    write_line(out, b"nusb-trace 1")?;
    write_events(out, kernel.journal())?;
    write_fates(out, kernel)?;
    write_line(out, b"end")
}
