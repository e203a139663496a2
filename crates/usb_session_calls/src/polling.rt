//! `pending` and `poll`: the transfers of an endpoint that were submitted and not taken.

ghost use Rattle.std.specs.Prelude.{◌≡◌, length, slice_get};
ghost use Rattle.usb_device_endpoint.specs.Handles.{Stands};
ghost use Rattle.usb_device_host.specs.HostBus.{bus_of};
ghost use Rattle.usb_device_host.specs.HostState.{HostState};
ghost use Rattle.usb_session_text.specs.Completions.{count_line};
ghost use Rattle.usb_session_calls.specs.Answer.{answer_with};
ghost use Rattle.usb_session_calls.specs.Polls.{poll_on};
ghost use Rattle.usb_session_calls.specs.OpenCalls.{CallKeeps, CallAnswers};

use futures::task::Poll;
use usb_desc::NoMemory;
use usb_device::Host;
use usb_device_endpoint::Endpoint;
use usb_session_text::{write_condition, write_count, write_polled};
use usb_xfer::Any;

/// Counts the pending transfers of an endpoint that is open.
pub(crate) fn pending_open(endpoint: &Endpoint<Any, Any>, line: &mut String) -> Result<(), NoMemory>
    ensures answered { (host : HostState) → CallAnswers host host endpoint.now endpoint.now
        line.old line.new result
        (λ state e h. answer_with state (count_line (length h.state.pending))) }
{
    write_count(line, endpoint.pending())
}

/// Polls an endpoint that is open.
pub(crate) fn poll_open(
    endpoint: &mut Endpoint<Any, Any>,
    host: &mut Host,
    line: &mut String,
) -> Result<(), NoMemory>
    requires stands { Stands (bus_of host.old) endpoint.old }
    ensures keeps { CallKeeps host.old host.new endpoint.old endpoint.new }
    ensures answered { CallAnswers host.old host.new endpoint.old endpoint.new
        line.old line.new result (λ state e h. poll_on state e (slice_get h.state.pending 0)) }
{
    if endpoint.pending() == 0 {
        return write_condition(line);
    }
    match endpoint.poll_next_complete(host) {
        Poll::Ready(completion) => write_polled(line, &Some(completion)),
        Poll::Pending => write_polled(line, &None),
    }
}
