//! Calls on an open endpoint.

ghost use Rattle.std.specs.Prelude.{length};
ghost use Rattle.usb_device_endpoint.specs.Handles.{Stands};
ghost use Rattle.usb_device_host.specs.HostBus.{bus_of};
ghost use Rattle.usb_session_calls.specs.EndpointCalls.{endpoint_called};
ghost use Rattle.usb_session_calls.specs.OpenCalls.{CallKeeps, CallAnswers};

use crate::buffers::{in_buffer, out_buffer};
use crate::call::EndpointCall;
use crate::cancelling::cancel_open;
use crate::halting::clear_open;
use crate::polling::{pending_open, poll_open};
use crate::submitting::submit_open;
use crate::transferring::transfer_open;
use crate::waiting::wait_open;
use usb_desc::{Direction, NoMemory};
use usb_device::Host;
use usb_device_endpoint::Endpoint;
use usb_xfer::Any;

/// Calls an endpoint that is open.
pub fn call_endpoint(
    endpoint: &mut Endpoint<Any, Any>,
    host: &mut Host,
    line: &mut String,
    call: EndpointCall,
) -> Result<(), NoMemory>
    requires stands { Stands (bus_of host.old) endpoint.old }
    ensures keeps { CallKeeps host.old host.new endpoint.old endpoint.new }
    ensures answered { CallAnswers host.old host.new endpoint.old endpoint.new
        line.old line.new result (endpoint_called call) }
{
    match call {
        EndpointCall::SubmitIn(length, timeout) => {
            let buffer = in_buffer(*line.allocator(), length)?;
            submit_open(endpoint, host, line, Direction::In, buffer, timeout)
        }
        EndpointCall::SubmitOut(bytes, timeout) => {
            let buffer = out_buffer(bytes);
            submit_open(endpoint, host, line, Direction::Out, buffer, timeout)
        }
        EndpointCall::Pending => pending_open(endpoint, line),
        EndpointCall::Poll => poll_open(endpoint, host, line),
        EndpointCall::Wait(timeout) => wait_open(endpoint, host, line, timeout),
        EndpointCall::TransferIn(length, timeout) => {
            let buffer = in_buffer(*line.allocator(), length)?;
            transfer_open(endpoint, host, line, Direction::In, buffer, timeout)
        }
        EndpointCall::TransferOut(bytes, timeout) => {
            let buffer = out_buffer(bytes);
            transfer_open(endpoint, host, line, Direction::Out, buffer, timeout)
        }
        EndpointCall::Cancel => cancel_open(endpoint, host, line),
        EndpointCall::ClearHalt => clear_open(endpoint, host, line),
    }
}
