//! Writers by std's trait. Expected values come from the rules of the simulation.

ghost use Rattle.std.specs.Prelude.{◌≡◌, IfOk};
ghost use Rattle.usb_device_endpoint.specs.KernelBusCalls.{bus_of};
ghost use Rattle.usb_device_endpoint.specs.Handles.{Stands};

use crate::endpoints::{Case, apply, expect, told};
use crate::steps::{ACK, OUTPUT_STALL};
use std::alloc::Global;
use std::io::{ErrorKind, Write};
use std::test::Fail;
use usb_desc::NoMemory;
use usb_device_endpoint::{Endpoint, KernelBus};
use usb_io::{EndpointWrite, IntoWriter};
use usb_kernel::{Body, Event, KernelStep};
use usb_xfer::{Any, Bulk, Out};

/// A writer of the bulk OUT endpoint 0x02 of device 0, with packets of 64 bytes and transfers of
/// 128.
fn new_writer(alloc: Global, bus: &mut KernelBus) -> Result<EndpointWrite<Bulk>, NoMemory>
    ensures stands { IfOk result (λ w. Stands (bus_of bus.new) w.endpoint) }
    ensures packets { IfOk result (λ w. w.endpoint.maximum ≡ 64) }
{
    let key = bus.open()?;
    let endpoint: Endpoint<Bulk, Out> = Endpoint::new(alloc, 0, 0x02, 64, key);
    Ok(endpoint.writer(127))
}

/// A step with a writer, and what it gives.
enum Step {
    /// A write gives up at once.
    NoTime,
    /// The endpoint acknowledges a packet.
    Ack,
    /// The oldest transfer stalls.
    Stall,
    /// The next finished transfer is reaped.
    Reap,
    /// Bytes are written.
    Write(&'static [u8], Result<usize, ErrorKind>),
    /// What stands is submitted, and all is taken.
    Flush(Result<(), ErrorKind>),
}

/// Bytes of two packets.
const ELEVENS: [u8; 128] = [0x11; 128];

const STEPS: &[Step] = &[
    Step::Write(&ELEVENS, Ok(128)),
    Step::NoTime,
    Step::Write(&[1], Err(ErrorKind::TimedOut)),
    Step::Ack,
    Step::Stall,
    Step::Reap,
    Step::Write(&[1], Err(ErrorKind::ConnectionReset)),
    Step::Write(&[1, 2], Ok(2)),
    Step::Flush(Err(ErrorKind::TimedOut)),
    Step::Ack,
    Step::Reap,
    Step::Flush(Ok(())),
];

#[test]
fn std_writes_and_flushes(rt: HostRuntime) -> Result<(), Fail> {
    expect(&rt, rt.alloc(), &Case::Writes)
}

/// Whether these are the bytes of the transfers that were submitted, in order.
fn has_sent(journal: &[Event], transfers: &[&[u8]]) -> bool {
    let mut rest = transfers;
    for event in journal {
        if let Event::Submit {
            body: Body::Sent(bytes),
            ..
        } = event
        {
            match rest {
                [first, others @ ..] if bytes.as_slice() == *first => rest = others,
                _ => return false,
            }
        }
    }
    rest.is_empty()
}

/// Makes the steps with a new writer, which is closed again. Says whether each gave what it should,
/// and the transfers have the bytes that were written.
pub fn is_right_writer(alloc: Global, bus: &mut KernelBus) -> bool {
    let Ok(mut writer) = new_writer(alloc, bus) else {
        return false;
    };
    let are_right = are_right(bus, &mut writer) && writer.max_packet_size() == 64;
    writer.close(bus);
    are_right && has_sent(bus.kernel().journal(), &[&ELEVENS, &[1, 2]])
}

fn are_right(bus: &mut KernelBus, writer: &mut EndpointWrite<Bulk>) -> bool
    requires stands { Stands (bus_of bus.old) writer.old.endpoint }
    ensures stands { Stands (bus_of bus.new) writer.new.endpoint }
{
    for step in STEPS {
        if !is_right(bus, writer, step) {
            return false;
        }
    }
    true
}

/// Makes a step, and says whether it gives what it should.
fn is_right(bus: &mut KernelBus, writer: &mut EndpointWrite<Bulk>, step: &Step) -> bool
    requires stands { Stands (bus_of bus.old) writer.old.endpoint }
    ensures stands { Stands (bus_of bus.new) writer.new.endpoint }
{
    match step {
        Step::NoTime => {
            writer.set_write_timeout(0);
            true
        }
        Step::Ack => apply(bus, ACK).is_ok(),
        Step::Stall => apply(bus, OUTPUT_STALL).is_ok(),
        Step::Reap => apply(bus, KernelStep::Reap { ticket: None }).is_ok(),
        Step::Write(bytes, answer) => told(writer.on(bus).write(*bytes)) == *answer,
        Step::Flush(answer) => told(writer.on(bus).flush()) == *answer,
    }
}

/// Whether a writer of any type tells the size of its packets.
pub fn tells_its_packets(alloc: Global, bus: &mut KernelBus) -> bool {
    let Ok(writer) = new_writer(alloc, bus) else {
        return false;
    };
    match writer.into_inner().widen().narrow::<Any, Out>() {
        Ok(endpoint) => {
            let writer = endpoint.writer(127);
            let is_told = writer.max_packet_size() == 64;
            writer.close(bus);
            is_told
        }
        Err(endpoint) => {
            endpoint.close(bus);
            false
        }
    }
}

#[test]
fn streams_of_any_type_take_and_tell_what_they_have(rt: HostRuntime) -> Result<(), Fail> {
    expect(&rt, rt.alloc(), &Case::AnyType)
}
