//! Readers that go on once the halt of their endpoint is cleared. Expected values come from the
//! rules of readers: a clear takes the lasting error away and nothing else, and one that is refused
//! takes nothing away.

ghost use Rattle.std.specs.Prelude.{IfOk};
ghost use Rattle.usb_device_endpoint.specs.KernelBusCalls.{bus_of};
ghost use Rattle.usb_device_endpoint.specs.Handles.{Stands};

use crate::endpoints::readers::comes;
use crate::endpoints::{Case, apply, expect};
use crate::outcomes::prints;
use crate::steps::{HALT_REFUSAL, INPUT_STALL};
use futures::task::Poll;
use std::alloc::Global;
use usb_desc::{Fail, NoMemory};
use usb_device_endpoint::{Endpoint, KernelBus};
use usb_error::{Error, ErrorKind, IoKind};
use usb_io::{EndpointRead, IntoReader, ReadFault};
use usb_xfer::{Bulk, In};

/// A reader of the bulk IN endpoint 0x81 of device 0, with packets of 64 bytes and transfers of 128.
fn new_reader(alloc: Global, bus: &mut KernelBus) -> Result<EndpointRead<Bulk>, NoMemory>
    ensures stands { IfOk result (λ r. Stands (bus_of bus.new) r.endpoint) }
{
    let key = bus.open()?;
    let endpoint: Endpoint<Bulk, In> = Endpoint::new(alloc, 0, 0x81, 64, key);
    Ok(endpoint.reader(128))
}

/// How many bytes a read gives, and what each of them is, or the kind and the text of its fault.
type Answer = Result<(usize, u8), (IoKind, &'static str)>;

/// A read of an endpoint that stalled.
const STALLED: Answer = Err((IoKind::ConnectionReset, "endpoint stalled"));

/// A step with a reader that is read until short packets, and what it gives.
enum Step {
    /// A read of up to 5 bytes, which does not wait, is pending.
    Pending,
    /// A packet of these bytes comes.
    Packet(&'static [u8]),
    /// The oldest transfer stalls.
    Stall,
    /// A read of up to so many bytes.
    Read(usize, Answer),
    /// The halt is cleared.
    Clear,
    /// The kernel refuses to clear it, with 71.
    Refused,
    /// Whether an end is next.
    IsEnd(bool),
    /// The end of a message is taken off.
    ConsumeEnd,
}

const CLEARED: &[Step] = &[
    Step::Pending,
    Step::Packet(&[0x11; 64]),
    Step::Stall,
    Step::Read(100, Ok((64, 0x11))),
    Step::Read(100, STALLED),
    Step::Clear,
    Step::IsEnd(false),
    Step::Pending,
    Step::Packet(&[0x22; 3]),
    Step::Read(100, Ok((3, 0x22))),
    Step::Read(100, Ok((0, 0))),
    Step::ConsumeEnd,
];

const CLEARED_BEFORE_ALL_IS_READ: &[Step] = &[
    Step::Pending,
    Step::Packet(&[0x11; 64]),
    Step::Stall,
    Step::Read(10, Ok((10, 0x11))),
    Step::Clear,
    Step::Read(100, Ok((54, 0x11))),
    Step::Pending,
];

const REFUSED: &[Step] = &[
    Step::Pending,
    Step::Packet(&[0x11; 64]),
    Step::Stall,
    Step::Read(100, Ok((64, 0x11))),
    Step::Read(100, STALLED),
    Step::Refused,
    Step::Read(100, STALLED),
];

/// Whether a fault is of this kind and prints this.
fn is_fault(alloc: Global, fault: ReadFault, kind: IoKind, text: &str) -> bool {
    match fault.to_io_fault(alloc) {
        Ok(fault) => fault.kind == kind && fault.text.as_str() == text,
        Err(_) => false,
    }
}

/// Whether a read of up to so many bytes, 100 at most, gives what it should.
fn reads(
    alloc: Global,
    bus: &mut KernelBus,
    reader: &mut EndpointRead<Bulk>,
    most: usize,
    answer: &Answer,
) -> bool
    requires stands { Stands (bus_of bus.old) reader.old.endpoint }
    ensures stands { Stands (bus_of bus.new) reader.new.endpoint }
{
    let mut bytes = [0; 100];
    let read = reader
        .until_short_packet()
        .read(bus, &mut bytes[..most.min(100)]);
    match (read, *answer) {
        (Ok(given), Ok((count, byte))) => {
            given == count && bytes.iter().take(count).all(|b| *b == byte)
        }
        (Err(Fail::Cause(fault)), Err((kind, text))) => is_fault(alloc, fault, kind, text),
        _ => false,
    }
}

/// Whether a clear of a halt was refused with 71.
fn is_refusal(alloc: Global, cleared: &Result<(), Error>) -> bool {
    match cleared {
        Ok(()) => false,
        Err(error) => {
            error.kind() == ErrorKind::Other
                && error.os_error() == Some(71)
                && prints(alloc, error, "failed to clear halt (errno 71)")
        }
    }
}

/// Whether the kernel refuses to clear the halt of a reader's endpoint, once it is to.
fn is_refused(alloc: Global, bus: &mut KernelBus, reader: &mut EndpointRead<Bulk>) -> bool
    requires stands { Stands (bus_of bus.old) reader.old.endpoint }
    ensures stands { Stands (bus_of bus.new) reader.new.endpoint }
{
    if apply(bus, HALT_REFUSAL).is_err() {
        return false;
    }
    is_refusal(alloc, &reader.clear_halt(bus))
}

/// Whether a read of up to 5 bytes, which does not wait, is pending.
fn is_pending(bus: &mut KernelBus, reader: &mut EndpointRead<Bulk>) -> bool
    requires stands { Stands (bus_of bus.old) reader.old.endpoint }
    ensures stands { Stands (bus_of bus.new) reader.new.endpoint }
{
    let mut bytes = [0; 5];
    let read = reader.until_short_packet().poll_read(bus, &mut bytes);
    matches!(read, Poll::Pending)
}

/// Makes a step, and says whether it gives what it should.
fn is_right(
    alloc: Global,
    bus: &mut KernelBus,
    reader: &mut EndpointRead<Bulk>,
    step: &Step,
) -> bool
    requires stands { Stands (bus_of bus.old) reader.old.endpoint }
    ensures stands { Stands (bus_of bus.new) reader.new.endpoint }
{
    match step {
        Step::Pending => is_pending(bus, reader),
        Step::Packet(bytes) => comes(alloc, bus, *bytes),
        Step::Stall => apply(bus, INPUT_STALL).is_ok(),
        Step::Read(most, answer) => reads(alloc, bus, reader, *most, answer),
        Step::Clear => reader.clear_halt(bus).is_ok(),
        Step::Refused => is_refused(alloc, bus, reader),
        Step::IsEnd(is_end) => reader.until_short_packet().is_end() == *is_end,
        Step::ConsumeEnd => reader.until_short_packet().consume_end().is_ok(),
    }
}

fn are_right(
    alloc: Global,
    bus: &mut KernelBus,
    reader: &mut EndpointRead<Bulk>,
    steps: &[Step],
) -> bool
    requires stands { Stands (bus_of bus.old) reader.old.endpoint }
    ensures stands { Stands (bus_of bus.new) reader.new.endpoint }
{
    for step in steps {
        if !is_right(alloc, bus, reader, step) {
            return false;
        }
    }
    true
}

/// Makes the steps with a new reader, which is closed again. Says whether each gave what it should.
fn goes_on(alloc: Global, bus: &mut KernelBus, steps: &[Step]) -> bool {
    let Ok(mut reader) = new_reader(alloc, bus) else {
        return false;
    };
    let are_right = are_right(alloc, bus, &mut reader, steps);
    reader.close(bus);
    are_right
}

/// Whether readers go on as they should, one after another.
pub fn go_on(alloc: Global, bus: &mut KernelBus) -> bool {
    goes_on(alloc, bus, CLEARED)
        && goes_on(alloc, bus, REFUSED)
        && goes_on(alloc, bus, CLEARED_BEFORE_ALL_IS_READ)
}

#[test]
fn readers_go_on_after_a_halt(rt: HostRuntime) -> Result<(), std::test::Fail> {
    expect(&rt, rt.alloc(), &Case::Halts)
}
