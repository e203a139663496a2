//! `halt`: the halt of an endpoint is cleared, by its own name or by its reader's.

ghost use Rattle.std.specs.Prelude.{◌≡◌, OnOk, OnErr};
ghost use Rattle.usb_error.specs.Errors.{clear_halt_error};
ghost use Rattle.usb_device_endpoint.specs.CallErrors.{or_error};
ghost use Rattle.usb_device_endpoint.specs.Handles.{Stands, KeepsOthers};
ghost use Rattle.usb_device_host.specs.HostBus.{bus_of};
ghost use Rattle.usb_device_host.specs.HostCalls.{host_halt_result, host_halt_cleared};
ghost use Rattle.usb_io.specs.Readers.{without_error};
ghost use Rattle.usb_session_calls.specs.State.{State};
ghost use Rattle.usb_session_calls.specs.Halts.{halt_cleared, reader_halt_cleared};
ghost use Rattle.usb_session_calls.specs.OpenCalls.{CallKeeps, CallAnswers};
ghost use Rattle.usb_session_calls.specs.ReaderCalls.{ReaderAnswers};

use usb_desc::NoMemory;
use usb_device::Host;
use usb_device_endpoint::Endpoint;
use usb_error::Error;
use usb_io::EndpointRead;
use usb_session_text::{write_condition, write_result};
use usb_xfer::Any;

/// Clears the halt of an endpoint that is open.
pub(crate) fn clear_open(
    endpoint: &mut Endpoint<Any, Any>,
    host: &mut Host,
    line: &mut String,
) -> Result<(), NoMemory>
    requires stands { Stands (bus_of host.old) endpoint.old }
    ensures keeps { CallKeeps host.old host.new endpoint.old endpoint.new }
    ensures answered { CallAnswers host.old host.new endpoint.old endpoint.new
        line.old line.new result (λ state e h. halt_cleared state h) }
{
    write_result(line, &endpoint.clear_halt(host))
}

/// Clears the halt of a reader's endpoint. A refusal of the kernel is handed on.
fn clear_of(reader: &mut EndpointRead<Any>, host: &mut Host) -> Result<(), Error>
    requires stands { Stands (bus_of host.old) reader.old.endpoint }
    ensures result { result ≡ or_error clear_halt_error
        (host_halt_result host.old reader.old.endpoint.device reader.old.endpoint.address) }
    ensures ok { OnOk result (reader.new ≡ without_error reader.old) }
    ensures err { OnErr result (reader.new ≡ reader.old) }
    ensures host { host.new
        ≡ host_halt_cleared host.old reader.old.endpoint.device reader.old.endpoint.address }
    ensures stands { Stands (bus_of host.new) reader.new.endpoint }
    ensures others { KeepsOthers (bus_of host.old) (bus_of host.new) reader.old.endpoint.key }
{
    reader.clear_halt(host)
}

/// Clears the halt of the endpoint of a reader that is open, and with it the error that lasted.
pub(crate) fn clear_reader_open(
    reader: &mut EndpointRead<Any>,
    host: &mut Host,
    line: &mut String,
) -> Result<(), NoMemory>
    requires stands { Stands (bus_of host.old) reader.old.endpoint }
    ensures keeps { CallKeeps host.old host.new reader.old.endpoint
        reader.new.endpoint }
    ensures answered { ReaderAnswers host.old host.new reader.old
        reader.new line.old line.new result
        (λ state r at. reader_halt_cleared state r at) }
{
    write_result(line, &clear_of(reader, host))
}
