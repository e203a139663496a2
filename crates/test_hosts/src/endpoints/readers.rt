//! Readers until a short packet, and by std's traits. Expected values come from the rules of the
//! simulation, and from USB 2.0, 5.8.3: a transfer ends with a packet that is shorter than the
//! maximum.

ghost use Rattle.std.specs.Prelude.{◌≡◌, IfOk};
ghost use Rattle.usb_device_endpoint.specs.KernelBusCalls.{bus_of};
ghost use Rattle.usb_device_endpoint.specs.EndpointState.{EndpointState};
ghost use Rattle.usb_device_endpoint.specs.Handles.{Stands};

use crate::endpoints::{Case, apply, expect, told};
use crate::steps::{INPUT_STALL, packet};
use futures::task::Poll;
use std::alloc::Global;
use std::io::{self, BufRead, ErrorKind, Read};
use usb_desc::{Fail, NoMemory};
use usb_device_endpoint::{Endpoint, KernelBus};
use usb_io::{EndpointRead, IntoReader, ReadFault};
use usb_kernel::KernelStep;
use usb_xfer::{Any, Bulk, In, Interrupt, Out};

/// A reader of the bulk IN endpoint 0x81 of device 0, with packets of 4 bytes and transfers of 8.
fn new_reader(alloc: Global, bus: &mut KernelBus) -> Result<EndpointRead<Bulk>, NoMemory>
    ensures stands { IfOk result (λ r. Stands (bus_of bus.new) r.endpoint) }
    ensures packets { IfOk result (λ r. r.endpoint.maximum ≡ 4) }
{
    let key = bus.open()?;
    let endpoint: Endpoint<Bulk, In> = Endpoint::new(alloc, 0, 0x81, 4, key);
    Ok(endpoint.reader(7))
}

/// How many bytes a call gives, and the first of them, or 0.
type Answer = Result<(usize, u8), ErrorKind>;

/// What was lent.
fn lent(filled: io::Result<&[u8]>) -> Answer {
    match filled {
        Ok([]) => Ok((0, 0)),
        Ok(bytes) => Ok((bytes.len(), bytes[0])),
        Err(error) => Err(error.kind()),
    }
}

/// A call of std's traits, and whether it stops at short packets.
pub enum Call {
    Read,
    ReadMessage,
    Fill,
    FillMessage,
}

/// What a call gives, where a read is one of up to 3 bytes.
fn called(bus: &mut KernelBus, reader: &mut EndpointRead<Bulk>, call: &Call) -> Answer
    requires stands { Stands (bus_of bus.old) reader.old.endpoint }
    ensures stands { Stands (bus_of bus.new) reader.new.endpoint }
{
    let mut dest = [0; 3];
    let read = match call {
        Call::Read => reader.on(bus).read(&mut dest),
        Call::ReadMessage => reader.until_short_packet_on(bus).read(&mut dest),
        Call::Fill => return lent(reader.on(bus).fill_buf()),
        Call::FillMessage => return lent(reader.until_short_packet_on(bus).fill_buf()),
    };
    match told(read) {
        Ok(count) => Ok((count, dest[0])),
        Err(kind) => Err(kind),
    }
}

/// A call of the reader's own that stops at short packets. Those that look don't wait.
pub enum Own {
    Read,
    Look,
    Fill,
    LookAtFill,
}

/// Whether a call gives this byte, and a read no more.
fn gives(bus: &mut KernelBus, reader: &mut EndpointRead<Bulk>, call: &Own, byte: u8) -> bool
    requires stands { Stands (bus_of bus.old) reader.old.endpoint }
    ensures stands { Stands (bus_of bus.new) reader.new.endpoint }
{
    let mut dest = [0; 1];
    let is_read = match call {
        Own::Read => matches!(reader.until_short_packet().read(bus, &mut dest), Ok(1)),
        Own::Look => {
            let read = reader.until_short_packet().poll_read(bus, &mut dest);
            matches!(read, Poll::Ready(Ok(1)))
        }
        Own::Fill => return begins(reader.until_short_packet().fill_buf(bus), byte),
        Own::LookAtFill => match reader.until_short_packet().poll_fill_buf(bus) {
            Poll::Ready(filled) => return begins(filled, byte),
            Poll::Pending => return false,
        },
    };
    is_read && dest[0] == byte
}

/// Whether bytes are lent, of which the first is this.
fn begins(filled: Result<&[u8], Fail<ReadFault>>, byte: u8) -> bool {
    match filled {
        Ok([first, ..]) => *first == byte,
        _ => false,
    }
}

/// A step with a reader, and what it gives.
pub enum Step {
    /// Two transfers are to be on their way.
    TwoTransfers,
    /// A read gives up at once.
    NoTime,
    /// A packet of these bytes comes.
    Packet(&'static [u8]),
    /// The oldest transfer stalls.
    Stall,
    /// The next finished transfer is reaped.
    Reap,
    /// All transfers are cancelled.
    CancelAll,
    /// A call of the reader's own, and the first byte.
    Own(Own, u8),
    /// A call.
    Call(Call, Answer),
    /// So many bytes are taken off.
    Consume(usize),
    /// The end of a message is taken off.
    ConsumeEnd,
    /// An error came.
    HasError,
}

pub const MESSAGES: &[Step] = &[
    Step::TwoTransfers,
    Step::Packet(&[1, 2, 3, 4]),
    Step::Packet(&[5]),
    Step::Own(Own::Read, 1),
    Step::Own(Own::Look, 2),
    Step::Own(Own::Fill, 3),
    Step::Own(Own::LookAtFill, 3),
    Step::Call(Call::ReadMessage, Ok((3, 3))),
    Step::Call(Call::ReadMessage, Ok((0, 0))),
    Step::ConsumeEnd,
];

pub const READS: &[Step] = &[
    Step::TwoTransfers,
    Step::Packet(&[1, 2, 3, 4]),
    Step::Packet(&[5]),
    Step::Call(Call::Read, Ok((3, 1))),
    Step::Call(Call::ReadMessage, Ok((2, 4))),
    Step::Call(Call::ReadMessage, Ok((0, 0))),
    Step::ConsumeEnd,
    Step::NoTime,
    Step::Call(Call::ReadMessage, Err(ErrorKind::TimedOut)),
    Step::Call(Call::Read, Err(ErrorKind::TimedOut)),
    Step::Stall,
    Step::Reap,
    Step::Call(Call::Read, Err(ErrorKind::ConnectionReset)),
    Step::HasError,
    Step::CancelAll,
    Step::Call(Call::Read, Err(ErrorKind::ConnectionReset)),
];

pub const FILLS: &[Step] = &[
    Step::TwoTransfers,
    Step::Packet(&[1, 2, 3, 4]),
    Step::Packet(&[5]),
    Step::Call(Call::Fill, Ok((5, 1))),
    Step::Consume(2),
    Step::Call(Call::FillMessage, Ok((3, 3))),
    Step::Consume(4),
    Step::Call(Call::FillMessage, Ok((0, 0))),
    Step::ConsumeEnd,
    Step::NoTime,
    Step::Call(Call::Fill, Err(ErrorKind::TimedOut)),
    Step::Stall,
    Step::Reap,
    Step::Call(Call::Fill, Err(ErrorKind::ConnectionReset)),
    Step::Call(Call::ReadMessage, Err(ErrorKind::ConnectionReset)),
];

#[test]
fn readers_and_std_give_what_came(rt: HostRuntime) -> Result<(), std::test::Fail> {
    expect(&rt, rt.alloc(), &Case::Messages)?;
    expect(&rt, rt.alloc(), &Case::Reads)?;
    expect(&rt, rt.alloc(), &Case::Fills)?;
    expect(&rt, rt.alloc(), &Case::Transfers)
}

/// Makes the steps with a new reader, which is closed again. Says whether each gave what it should.
pub fn is_right_reader(alloc: Global, bus: &mut KernelBus, steps: &[Step]) -> bool {
    let Ok(mut reader) = new_reader(alloc, bus) else {
        return false;
    };
    let are_right = are_right(alloc, bus, &mut reader, steps);
    reader.close(bus);
    are_right
}

fn are_right(
    alloc: Global,
    bus: &mut KernelBus,
    reader: &mut EndpointRead<Bulk>,
    steps: &[Step],
) -> bool
    requires stands { Stands (bus_of bus.old) reader.old.endpoint }
    ensures stands { Stands (bus_of bus.new) reader.new.endpoint }
{
    for step in steps {
        if !is_right(alloc, bus, reader, step) {
            return false;
        }
    }
    true
}

/// Whether a packet comes.
pub fn comes(alloc: Global, bus: &mut KernelBus, bytes: &[u8]) -> bool
    ensures endpoints { (e : EndpointState) → Stands (bus_of bus.old) e →
        Stands (bus_of bus.new) e }
{
    match packet(alloc, bytes) {
        Ok(step) => apply(bus, step).is_ok(),
        Err(_) => false,
    }
}

/// Makes a step, and says whether it gives what it should.
fn is_right(
    alloc: Global,
    bus: &mut KernelBus,
    reader: &mut EndpointRead<Bulk>,
    step: &Step,
) -> bool
    requires stands { Stands (bus_of bus.old) reader.old.endpoint }
    ensures stands { Stands (bus_of bus.new) reader.new.endpoint }
{
    match step {
        Step::TwoTransfers => reader.set_num_transfers(bus, 2).is_ok(),
        Step::Packet(bytes) => comes(alloc, bus, *bytes),
        Step::Stall => apply(bus, INPUT_STALL).is_ok(),
        Step::Reap => apply(bus, KernelStep::Reap { ticket: None }).is_ok(),
        Step::NoTime => {
            reader.set_read_timeout(0);
            true
        }
        Step::CancelAll => {
            reader.cancel_all(bus);
            true
        }
        Step::Own(call, byte) => gives(bus, reader, call, *byte),
        Step::Call(call, answer) => called(bus, reader, call) == *answer,
        Step::Consume(count) => {
            reader.on(bus).consume(*count);
            true
        }
        Step::ConsumeEnd => reader.until_short_packet().consume_end().is_ok(),
        Step::HasError => reader.has_error(),
    }
}

/// Whether this reader keeps three transfers on its way, the last of which it submits as it turns.
/// It is closed.
fn keeps_three(reader: EndpointRead<Bulk>, bus: &mut KernelBus) -> bool
    requires stands { Stands (bus_of bus.old) reader.endpoint }
{
    let keeps_three = reader.num_transfers() == 3 && reader.pending() == 2;
    reader.close(bus);
    keeps_three
}

/// Whether a reader is made with a number of transfers.
pub fn has_transfers(alloc: Global, bus: &mut KernelBus) -> bool {
    let Ok(reader) = new_reader(alloc, bus) else {
        return false;
    };
    match reader.with_num_transfers(bus, 3) {
        Ok(reader) => keeps_three(reader, bus),
        Err(reader) => {
            reader.close(bus);
            false
        }
    }
}

/// Whether a reader of any type takes off no more than stands, which is nothing. Its endpoint is no
/// interrupt endpoint, nor one of the other direction.
pub fn takes_what_stands(alloc: Global, bus: &mut KernelBus) -> bool {
    let Ok(reader) = new_reader(alloc, bus) else {
        return false;
    };
    let endpoint = match reader.into_inner().widen().narrow::<Interrupt, In>() {
        Ok(endpoint) => endpoint.widen(),
        Err(endpoint) => endpoint,
    };
    let endpoint = match endpoint.narrow::<Any, Out>() {
        Ok(endpoint) => endpoint.widen(),
        Err(endpoint) => endpoint,
    };
    match endpoint.narrow::<Any, In>() {
        Ok(endpoint) => {
            let mut reader = endpoint.reader(4);
            reader.until_short_packet().consume(1);
            let is_empty = reader.available() == 0;
            reader.close(bus);
            is_empty
        }
        Err(endpoint) => {
            endpoint.close(bus);
            false
        }
    }
}
