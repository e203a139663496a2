//! How many submissions a call may need, when so many are barred, and how many may be asked for.

ghost use Rattle.std.specs.Prelude.{◌≡◌, ◌≤◌};
ghost use Rattle.usb_io.specs.Writers.{writing};
ghost use Rattle.usb_session_streams.specs.Needs.{bars_need, bars_call, write_need, flush_need, finish_need, poll_finish_need, bars_transfers};

use usb_device::Host;
use usb_io::EndpointWrite;
use usb_xfer::Any;

/// How many transfers of an endpoint may be pending.
pub const MOST_PENDING: usize = 64;

/// How many tickets may be unreaped.
pub const MOST_UNREAPED: usize = 1024;

/// Whether so many submissions are barred, where so many transfers of an endpoint are pending: too
/// many would be, or too many tickets unreaped.
pub fn bars_need(host: &Host, pending: usize, need: usize) -> bool
    ensures barred { result ≡ bars_need host.now.kernel.past pending need }
{
    pending.saturating_add(need) > MOST_PENDING
        || host.kernel().unreaped().saturating_add(need) > MOST_UNREAPED
}

/// Whether a writer can't be asked to keep so many transfers pending: none, or more than an
/// endpoint may have.
pub fn bars_transfers(count: usize) -> bool
    ensures barred { result ≡ bars_transfers count }
{
    count == 0 || count > MOST_PENDING
}

/// Whether a call on a writer is barred that may need so many submissions.
pub(crate) fn bars_call(host: &Host, writer: &EndpointWrite<Any>, need: usize) -> bool
    ensures barred { result ≡ bars_call (writing host.now writer.now) need }
{
    bars_need(host, writer.pending(), need)
}

/// How many submissions a write may need.
pub(crate) fn write_need(writer: &EndpointWrite<Any>) -> usize
    ensures need { result ≡ write_need writer.now }
{
    if writer.buffered().is_some() || writer.pending() < writer.num_transfers() {
        1
    } else {
        0
    }
}

/// How many submissions a call may need that submits the bytes that stand.
pub(crate) fn flush_need(writer: &EndpointWrite<Any>) -> usize
    ensures need { result ≡ flush_need writer.now }
{
    match writer.buffered() {
        None | Some(0) => 0,
        Some(_) => 1,
    }
}

/// How many submissions a poll to the end of a message needs: none where an end has begun.
pub(crate) fn poll_finish_need(writer: &EndpointWrite<Any>) -> usize
    ensures need { result ≡ poll_finish_need writer.now }
    ensures few { result ≤ 2 }
{
    if writer.end_begun() {
        0
    } else {
        writer.end_need()
    }
}
