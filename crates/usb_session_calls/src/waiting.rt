//! `wait`: the oldest pending transfer is waited for, with the steps of the line.

ghost use Rattle.std.specs.Prelude.{◌≡◌, slice_get};
ghost use Rattle.usb_device_endpoint.specs.Handles.{Stands};
ghost use Rattle.usb_device_host.specs.HostBus.{bus_of};
ghost use Rattle.usb_session_calls.specs.Waits.{wait_on};
ghost use Rattle.usb_session_calls.specs.OpenCalls.{CallKeeps, CallAnswers};

use usb_desc::NoMemory;
use usb_device::Host;
use usb_device_endpoint::Endpoint;
use usb_script_lines::Timeout;
use usb_session_text::{write_condition, write_waited};
use usb_xfer::Any;

/// Waits at an endpoint that is open.
pub(crate) fn wait_open(
    endpoint: &mut Endpoint<Any, Any>,
    host: &mut Host,
    line: &mut String,
    timeout: Timeout,
) -> Result<(), NoMemory>
    requires stands { Stands (bus_of host.old) endpoint.old }
    ensures keeps { CallKeeps host.old host.new endpoint.old endpoint.new }
    ensures answered { CallAnswers host.old host.new endpoint.old endpoint.new
        line.old line.new result
        (λ state e h. wait_on state e timeout (slice_get h.state.pending 0)) }
{
    if endpoint.pending() == 0 {
        return write_condition(line);
    }
    let done = endpoint.wait_next_complete(host, timeout.nanoseconds());
    write_waited(line, &done)
}
