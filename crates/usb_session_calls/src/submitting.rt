//! `submitin`, `submitout`, `dsubmitin` and `dsubmitout`: a transfer is handed in.

ghost use Rattle.std.specs.Prelude.{◌≡◌, ◌<◌, ◌++◌, ◌∷◌, [], length, OnOk, OnErr};
ghost use Rattle.usb_kernel.specs.Tickets.{tickets};
ghost use Rattle.usb_device_endpoint.specs.Handles.{Stands, KeepsOthers};
ghost use Rattle.usb_device_endpoint.specs.Submits.{entered};
ghost use Rattle.usb_device_host.specs.HostBus.{bus_of};
ghost use Rattle.usb_device_host.specs.HostCalls.{host_calls};
ghost use Rattle.usb_session_calls.specs.Submits.{has_direction, bars_submission, deadline_by, submit_on};
ghost use Rattle.usb_session_calls.specs.OpenCalls.{CallKeeps, CallAnswers};

use usb_desc::{Direction, NoMemory};
use usb_device::Host;
use usb_device_endpoint::Endpoint;
use usb_script_lines::Timeout;
use usb_session_streams::{MOST_PENDING, MOST_UNREAPED};
use usb_session_text::{write_condition, write_ok};
use usb_xfer::{Any, Buffer};

/// Whether an endpoint has this direction.
pub fn has_direction(endpoint: &Endpoint<Any, Any>, direction: Direction) -> bool
    ensures has { result ≡ has_direction direction endpoint.now }
{
    Direction::from_address(endpoint.endpoint_address()) == direction
}

/// Whether a submission is barred: the endpoint has the other direction, or too many transfers are
/// pending or unreaped.
fn bars_submission(host: &Host, direction: Direction, endpoint: &Endpoint<Any, Any>) -> bool
    ensures barred { result ≡
        bars_submission host.now.kernel.past direction endpoint.now }
{
    !has_direction(endpoint, direction)
        || endpoint.pending() >= MOST_PENDING
        || host.kernel().unreaped() >= MOST_UNREAPED
}

/// Hands a buffer in, with a deadline where a timeout is given.
fn hand_in(
    endpoint: &mut Endpoint<Any, Any>,
    host: &mut Host,
    buffer: Buffer,
    timeout: Option<Timeout>,
) -> Result<(), Buffer>
    requires few { length endpoint.old.pending < 64 }
    requires stands { Stands (bus_of host.old) endpoint.old }
    ensures pending { OnOk result (endpoint.new ≡ record endpoint.old {
      pending = endpoint.old.pending ++ length (tickets host.old.kernel.past) ∷ [];
    }) }
    ensures bus { OnOk result (host.new ≡ entered host_calls host.old endpoint.old
        (deadline_by host.old timeout) buffer) }
    ensures stands { Stands (bus_of host.new) endpoint.new }
    ensures others { KeepsOthers (bus_of host.old) (bus_of host.new) endpoint.old.key }
    ensures err { OnErr result ((endpoint.new ≡ endpoint.old) × (host.new ≡ host.old)) }
{
    match timeout {
        Some(timeout) => endpoint.submit_with_deadline(host, buffer, timeout.nanoseconds()),
        None => endpoint.submit(host, buffer),
    }
}

/// Submits a buffer to an endpoint that is open, with a deadline where a timeout is given.
pub(crate) fn submit_open(
    endpoint: &mut Endpoint<Any, Any>,
    host: &mut Host,
    line: &mut String,
    direction: Direction,
    buffer: Buffer,
    timeout: Option<Timeout>,
) -> Result<(), NoMemory>
    requires stands { Stands (bus_of host.old) endpoint.old }
    ensures keeps { CallKeeps host.old host.new endpoint.old endpoint.new }
    ensures answered { CallAnswers host.old host.new endpoint.old endpoint.new
        line.old line.new result (λ state e h. submit_on state direction e buffer timeout h) }
{
    if bars_submission(host, direction, endpoint) {
        return write_condition(line);
    }
    match hand_in(endpoint, host, buffer, timeout) {
        Ok(()) => write_ok(line),
        Err(_) => Err(NoMemory),
    }
}
