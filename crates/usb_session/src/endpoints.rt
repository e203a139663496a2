//! `endpoint`: an endpoint of a claimed interface is opened.

ghost use Rattle.std.specs.Prelude.{◌≡◌, OnOk, IfOk, string_bytes};
ghost use Rattle.usb_kernel.specs.Extends.{Extends};
ghost use Rattle.usb_script_words.specs.EndpointKinds.{transfer_type_of, direction_of};
ghost use Rattle.usb_device_endpoint.specs.Handles.{Stands, KeepsOthers};
ghost use Rattle.usb_device_host.specs.HostBus.{bus_of};
ghost use Rattle.usb_device_host.specs.HandleStates.{StandsInterface};
ghost use Rattle.usb_device_host.specs.EndpointOpens.{OpensEndpoint};
ghost use Rattle.usb_session_calls.specs.State.{State};
ghost use Rattle.usb_session_calls.specs.Answered.{Answers};
ghost use Rattle.usb_session_calls.specs.Endpoints.{endpoint_answer};

use crate::session::Session;
use usb_desc::{Fail, NoMemory};
use usb_device::{Host, Interface};
use usb_device_endpoint::Endpoint;
use usb_error::Error;
use usb_script_lines::{EndpointKind, Name};
use usb_session_calls::{is_free, open_at, put_at};
use usb_session_text::{write_condition, write_error, write_ok};
use usb_xfer::{Any, Bulk, In, Interrupt, KnownDirection, KnownType, Out};

/// Opens an endpoint of an interface, whose type and direction its caller need not know.
fn open<T: KnownType, D: KnownDirection>(
    host: &mut Host,
    interface: &Interface,
    address: u8,
) -> Result<Endpoint<Any, Any>, Fail<Error>>
    requires stands { StandsInterface host.old interface.now }
    ensures opens { OpensEndpoint host.old host.new interface.now.key address T.TYPE D.DIR result }
    ensures stands { IfOk result (Stands (bus_of host.new)) }
    ensures others { IfOk result (λ e. KeepsOthers (bus_of host.old) (bus_of host.new) e.key) }
{
    match interface.endpoint::<T, D>(host, address) {
        Ok(endpoint) => Ok(endpoint.widen()),
        Err(error) => Err(error),
    }
}

/// Opens an endpoint of an interface, of any kind that a script names.
fn open_any(
    host: &mut Host,
    interface: &Interface,
    address: u8,
    kind: EndpointKind,
) -> Result<Endpoint<Any, Any>, Fail<Error>>
    requires stands { StandsInterface host.old interface.now }
    ensures opens { OpensEndpoint host.old host.new interface.now.key address
        (transfer_type_of kind) (direction_of kind) result }
    ensures stands { IfOk result (Stands (bus_of host.new)) }
    ensures others { IfOk result (λ e. KeepsOthers (bus_of host.old) (bus_of host.new) e.key) }
{
    match kind {
        EndpointKind::BulkIn => open::<Bulk, In>(host, interface, address),
        EndpointKind::BulkOut => open::<Bulk, Out>(host, interface, address),
        EndpointKind::InterruptIn => open::<Interrupt, In>(host, interface, address),
        EndpointKind::InterruptOut => open::<Interrupt, Out>(host, interface, address),
    }
}

impl Session {
    /// `endpoint`: an endpoint of a claimed interface is opened under a name that is free.
    pub(crate) fn endpoint(
        &mut self,
        line: &mut String,
        name: Name,
        interface: Name,
        address: u8,
        kind: EndpointKind,
    ) -> Result<(), NoMemory>
        ensures answered { Answers self.old self.new line.old line.new result
            (λ state. endpoint_answer state name interface address
            (transfer_type_of kind) (direction_of kind)) }
        ensures spare { self.new.host.kernel.spare ≡ self.old.host.kernel.spare }
        ensures later { Extends self.old.host.kernel.past self.new.host.kernel.past }
    {
        let Some(interface) = open_at(&self.interfaces, interface.number()) else {
            return write_condition(line);
        };
        if !is_free(&self.endpoints, name.number()) {
            return write_condition(line);
        }
        match open_any(&mut self.host, interface, address, kind) {
            Ok(endpoint) => {
                put_at(&mut self.endpoints, name.number(), endpoint);
                write_ok(line)
            }
            Err(Fail::Cause(error)) => write_error(line, &error),
            Err(Fail::Memory) => Err(NoMemory),
        }
    }
}
