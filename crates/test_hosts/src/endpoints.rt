//! Buses, endpoints, and readers and writers over them, by std's traits and until a short packet:
//! the bus that their tests begin with, and what is done on it.

ghost use Rattle.usb_kernel.specs.Steps.{HasErrno};
ghost use Rattle.usb_device_endpoint.specs.KernelBusCalls.{bus_of};
ghost use Rattle.usb_device_endpoint.specs.EndpointState.{EndpointState};
ghost use Rattle.usb_device_endpoint.specs.Handles.{Stands};

mod bus;
mod deadlines;
mod faults;
mod halts;
mod readers;
mod transfers;
mod writers;

use crate::devices::new_kernel;
use crate::endpoints::bus::is_right_bus;
use crate::endpoints::deadlines::{Step, has_greatest_deadline, is_right_at_deadlines};
use crate::endpoints::halts::go_on;
use crate::endpoints::readers::{
    FILLS, MESSAGES, READS, has_transfers, is_right_reader, takes_what_stands,
};
use crate::endpoints::transfers::is_right_endpoint;
use crate::endpoints::writers::{is_right_writer, tells_its_packets};
use std::alloc::Global;
use std::io::{self, ErrorKind};
use std::process::Abort;
use std::test::Fail;
use usb_desc::NoMemory;
use usb_device_endpoint::KernelBus;
use usb_kernel::KernelStep;

/// A bus over a kernel with device 0, at address 6 of bus 1, which has no descriptors.
fn new_bus(alloc: Global) -> Result<KernelBus, NoMemory> {
    Ok(KernelBus::new(alloc, new_kernel(alloc, &[])?))
}

/// Makes room for a step and applies it. Endpoints stand as before.
fn apply(bus: &mut KernelBus, step: KernelStep) -> Result<(), NoMemory>
    requires errno { HasErrno step }
    ensures endpoints { (e : EndpointState) → Stands (bus_of bus.old) e →
        Stands (bus_of bus.new) e }
{
    bus.reserve(1)?;
    bus.step(step);
    Ok(())
}

/// What std's traits tell, with the kind of an error alone.
fn told<T: Drop>(answer: io::Result<T>) -> Result<T, ErrorKind> {
    match answer {
        Ok(value) => Ok(value),
        Err(error) => Err(error.kind()),
    }
}

/// What is done on a new bus.
enum Case {
    /// Its clock is raised, and halts are cleared.
    Bus,
    /// An endpoint is opened, and transfers of several lengths are submitted.
    Endpoint,
    /// Transfers are submitted with deadlines and without, in these steps.
    Deadlines(&'static [Step]),
    /// One is handed to the bus with the greatest deadline.
    GreatestDeadline,
    /// A reader is read until a short packet.
    Messages,
    /// A reader is read by std's traits.
    Reads,
    /// It lends bytes by them.
    Fills,
    /// Readers go on once a halt is cleared, and don't where that is refused.
    Halts,
    /// A writer is written to by std's trait.
    Writes,
    /// A reader is made with a number of transfers.
    Transfers,
    /// A reader and a writer of any type are asked what they have.
    AnyType,
}

/// Compares what is found on a new bus. It is owned here alone.
fn expect(rt: &impl Abort, alloc: Global, case: &Case) -> Result<(), Fail> {
    let mut bus = new_bus(alloc)?;
    assert!(rt; is_so(alloc, &mut bus, case));
    Ok(())
}

fn is_so(alloc: Global, bus: &mut KernelBus, case: &Case) -> bool {
    match case {
        Case::Bus => is_right_bus(bus),
        Case::Endpoint => is_right_endpoint(alloc, bus),
        Case::Deadlines(steps) => is_right_at_deadlines(alloc, bus, *steps),
        Case::GreatestDeadline => has_greatest_deadline(alloc, bus),
        Case::Messages => is_right_reader(alloc, bus, MESSAGES),
        Case::Reads => is_right_reader(alloc, bus, READS),
        Case::Fills => is_right_reader(alloc, bus, FILLS),
        Case::Halts => go_on(alloc, bus),
        Case::Transfers => has_transfers(alloc, bus),
        Case::Writes => is_right_writer(alloc, bus),
        Case::AnyType => takes_what_stands(alloc, bus) && tells_its_packets(alloc, bus),
    }
}
