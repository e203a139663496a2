//! `cancel`: the pending transfers of an endpoint are discarded.

ghost use Rattle.usb_device_endpoint.specs.Handles.{Stands};
ghost use Rattle.usb_device_host.specs.HostBus.{bus_of};
ghost use Rattle.usb_session_calls.specs.Answer.{ok_answer};
ghost use Rattle.usb_session_calls.specs.Closes.{cancelled};
ghost use Rattle.usb_session_calls.specs.OpenCalls.{CallKeeps, CallAnswers};

use usb_desc::NoMemory;
use usb_device::Host;
use usb_device_endpoint::Endpoint;
use usb_session_text::write_ok;
use usb_xfer::Any;

/// Discards the pending transfers of an endpoint that is open.
pub(crate) fn cancel_open(
    endpoint: &mut Endpoint<Any, Any>,
    host: &mut Host,
    line: &mut String,
) -> Result<(), NoMemory>
    requires stands { Stands (bus_of host.old) endpoint.old }
    ensures keeps { CallKeeps host.old host.new endpoint.old endpoint.new }
    ensures answered { CallAnswers host.old host.new endpoint.old endpoint.new
        line.old line.new result (λ state e h. ok_answer (cancelled state h)) }
{
    endpoint.cancel_all(host);
    write_ok(line)
}
