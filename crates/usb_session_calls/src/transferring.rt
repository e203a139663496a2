//! `xferin` and `xferout`: a blocking transfer, with the steps of the line.

ghost use Rattle.std.specs.Prelude.{◌≡◌};
ghost use Rattle.usb_device_endpoint.specs.Handles.{Stands};
ghost use Rattle.usb_device_host.specs.HostBus.{bus_of};
ghost use Rattle.usb_session_calls.specs.Transfers.{bars_transfer, transfer_on};
ghost use Rattle.usb_session_calls.specs.OpenCalls.{CallKeeps, CallAnswers};

use crate::submitting::has_direction;
use usb_desc::{Direction, NoMemory};
use usb_device::Host;
use usb_device_endpoint::Endpoint;
use usb_script_lines::Timeout;
use usb_session_streams::MOST_UNREAPED;
use usb_session_text::{write_condition, write_waited};
use usb_xfer::{Any, Buffer};

/// Whether a blocking transfer is barred: the endpoint has the other direction, a transfer of it is
/// pending, or too many are unreaped.
fn bars_transfer(host: &Host, direction: Direction, endpoint: &Endpoint<Any, Any>) -> bool
    ensures barred { result ≡ bars_transfer host.now.kernel.past direction endpoint.now }
{
    !has_direction(endpoint, direction)
        || endpoint.pending() != 0
        || host.kernel().unreaped() >= MOST_UNREAPED
}

/// Makes a blocking transfer at an endpoint that is open.
pub(crate) fn transfer_open(
    endpoint: &mut Endpoint<Any, Any>,
    host: &mut Host,
    line: &mut String,
    direction: Direction,
    buffer: Buffer,
    timeout: Timeout,
) -> Result<(), NoMemory>
    requires stands { Stands (bus_of host.old) endpoint.old }
    ensures keeps { CallKeeps host.old host.new endpoint.old endpoint.new }
    ensures answered { CallAnswers host.old host.new endpoint.old endpoint.new
        line.old line.new result (λ state e h. transfer_on state direction e buffer timeout h) }
{
    if bars_transfer(host, direction, endpoint) {
        return write_condition(line);
    }
    match endpoint.transfer_blocking(host, buffer, timeout.nanoseconds()) {
        Ok(completion) => write_waited(line, &Some(completion)),
        Err(_) => Err(NoMemory),
    }
}
