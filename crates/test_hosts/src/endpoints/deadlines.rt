//! Transfers with deadlines, on the bus over a kernel alone. Expected values come from the rules of
//! the simulation: the timer's turn discards what is unfinished and due, with the bytes that came;
//! a refused ticket has no deadline; and of a timeout a day counts at most.

ghost use Rattle.std.specs.Prelude.{◌≡◌, IfOk};
ghost use Rattle.usb_device_endpoint.specs.KernelBusCalls.{bus_of};
ghost use Rattle.usb_device_endpoint.specs.EndpointState.{EndpointState};
ghost use Rattle.usb_device_endpoint.specs.Handles.{Stands};

use crate::endpoints::transfers::open;
use crate::endpoints::{Case, apply, expect};
use crate::steps::packet;
use futures::task::Poll;
use std::alloc::Global;
use std::test::Fail;
use usb_desc::TransferType;
use usb_device_endpoint::{Bus, Endpoint, KernelBus, Route, Turn};
use usb_kernel::{KernelCall, KernelStep};
use usb_xfer::{Buffer, Bulk, Idle, In, TransferData, TransferError};

/// A step with an endpoint, and what it gives.
pub enum Step {
    /// A transfer of so many bytes is submitted, with no deadline.
    Submit(usize),
    /// One is submitted with a timeout in nanoseconds.
    SubmitFor(usize, u64),
    /// A packet of 64 bytes comes.
    Packet,
    /// The next submission is refused with 12 (ENOMEM).
    Refuse,
    /// The clock is raised to a time, the timer has its turn, and the bus a turn, which is this.
    Idle(u64, Turn),
    /// The first pending transfer has not ended.
    Pending,
    /// It ended so, with so many bytes of those that it asked for.
    Ended(TransferError, usize, usize),
}

/// Of a transfer of two packets one comes before its deadline. The next has no deadline.
const PARTLY: &[Step] = &[
    Step::SubmitFor(128, 100),
    Step::Submit(64),
    Step::Packet,
    Step::Idle(99, Turn::TimeUp),
    Step::Pending,
    Step::Idle(100, Turn::Reaped),
    Step::Ended(TransferError::Cancelled, 64, 128),
    Step::Pending,
    Step::Idle(u64::MAX, Turn::TimeUp),
    Step::Pending,
];

/// A transfer that the kernel refuses ends with the refusal, and one whose length is invalid too.
const REFUSED: &[Step] = &[
    Step::Refuse,
    Step::SubmitFor(64, 10),
    Step::SubmitFor(63, 10),
    Step::Idle(10, Turn::TimeUp),
    Step::Ended(TransferError::Unknown(12), 0, 64),
    Step::Ended(TransferError::InvalidArgument, 0, 63),
];

/// Of a timeout a day counts at most, and a deadline ends at the greatest time.
const LONG: &[Step] = &[
    Step::SubmitFor(64, u64::MAX),
    Step::Idle(86_399_999_999_999, Turn::TimeUp),
    Step::Pending,
    Step::Idle(86_400_000_000_000, Turn::Reaped),
    Step::Ended(TransferError::Cancelled, 0, 64),
    Step::Idle(u64::MAX - 5, Turn::TimeUp),
    Step::SubmitFor(64, 10),
    Step::Idle(u64::MAX - 1, Turn::TimeUp),
    Step::Pending,
    Step::Idle(u64::MAX, Turn::Reaped),
    Step::Ended(TransferError::Cancelled, 0, 64),
];

#[test]
fn a_transfer_is_cancelled_at_its_deadline(rt: HostRuntime) -> Result<(), Fail> {
    expect(&rt, rt.alloc(), &Case::Deadlines(PARTLY))?;
    expect(&rt, rt.alloc(), &Case::Deadlines(REFUSED))?;
    expect(&rt, rt.alloc(), &Case::Deadlines(LONG))?;
    expect(&rt, rt.alloc(), &Case::GreatestDeadline)
}

/// Makes the steps with a new endpoint, which is closed again. Says whether each gave what it
/// should.
pub fn is_right_at_deadlines(alloc: Global, bus: &mut KernelBus, steps: &[Step]) -> bool {
    let Ok(mut endpoint) = open(alloc, bus) else {
        return false;
    };
    let are_right = are_right(alloc, bus, &mut endpoint, steps);
    endpoint.close(bus);
    are_right
}

fn are_right(
    alloc: Global,
    bus: &mut KernelBus,
    endpoint: &mut Endpoint<Bulk, In>,
    steps: &[Step],
) -> bool
    requires stands { Stands (bus_of bus.old) endpoint.old }
    ensures stands { Stands (bus_of bus.new) endpoint.new }
{
    for step in steps {
        if !is_right(alloc, bus, endpoint, step) {
            return false;
        }
    }
    true
}

/// Makes a step, and says whether it gives what it should.
fn is_right(
    alloc: Global,
    bus: &mut KernelBus,
    endpoint: &mut Endpoint<Bulk, In>,
    step: &Step,
) -> bool
    requires stands { Stands (bus_of bus.old) endpoint.old }
    ensures stands { Stands (bus_of bus.new) endpoint.new }
{
    match step {
        Step::Submit(len) => is_submitted(bus, endpoint, *len, None),
        Step::SubmitFor(len, timeout) => is_submitted(bus, endpoint, *len, Some(*timeout)),
        Step::Packet => comes(alloc, bus),
        Step::Refuse => apply(bus, REFUSAL).is_ok(),
        Step::Idle(until, turn) => idles(bus, *until) == *turn,
        Step::Pending => ended(bus, endpoint) == None,
        Step::Ended(error, count, requested) => {
            ended(bus, endpoint) == Some((Err(*error), *count, *requested))
        }
    }
}

/// Device 0 refuses the next submission with 12 (ENOMEM).
const REFUSAL: KernelStep = KernelStep::Refuse {
    device: 0,
    call: KernelCall::Submit,
    errno: 12,
};

/// Whether a transfer is submitted, with a timeout or none.
fn is_submitted(
    bus: &mut KernelBus,
    endpoint: &mut Endpoint<Bulk, In>,
    len: usize,
    timeout: Option<u64>,
) -> bool
    requires stands { Stands (bus_of bus.old) endpoint.old }
    ensures stands { Stands (bus_of bus.new) endpoint.new }
{
    if len > 128 || endpoint.pending() >= 64 {
        return false;
    }
    let Ok(buffer) = endpoint.allocate(len) else {
        return false;
    };
    match timeout {
        None => endpoint.submit(bus, buffer).is_ok(),
        Some(timeout) => endpoint.submit_with_deadline(bus, buffer, timeout).is_ok(),
    }
}

/// Whether a packet of 64 bytes comes.
fn comes(alloc: Global, bus: &mut KernelBus) -> bool
    ensures endpoints { (e : EndpointState) → Stands (bus_of bus.old) e →
        Stands (bus_of bus.new) e }
{
    match packet(alloc, &[7; 64]) {
        Ok(step) => apply(bus, step).is_ok(),
        Err(_) => false,
    }
}

/// Raises the clock, gives the timer its turn, and then the bus.
fn idles(bus: &mut KernelBus, until: u64) -> Turn
    ensures endpoints { (e : EndpointState) → Stands (bus_of bus.old) e →
        Stands (bus_of bus.new) e }
{
    bus.idle(until);
    bus.turn()
}

/// How a transfer ended, how many bytes came, and how many it asked for.
type Ended = (Result<(), TransferError>, usize, usize);

/// The end of the first pending transfer, which is taken, where it is there.
fn ended(bus: &mut KernelBus, endpoint: &mut Endpoint<Bulk, In>) -> Option<Ended>
    requires stands { Stands (bus_of bus.old) endpoint.old }
    ensures stands { Stands (bus_of bus.new) endpoint.new }
{
    if endpoint.pending() == 0 {
        return None;
    }
    match endpoint.poll_next_complete(bus) {
        Poll::Ready(done) => Some((done.status, done.actual_len, done.buffer.requested_len())),
        Poll::Pending => None,
    }
}

/// Whether a ticket of OUT endpoint 0x02 that is handed to the bus at a late time, with the
/// greatest deadline, is cancelled by the turn of the timer at this deadline, and not before.
pub fn has_greatest_deadline(alloc: Global, bus: &mut KernelBus) -> bool {
    let Ok(key) = bus.open() else {
        return false;
    };
    let Ok(buffer) = Buffer::from_slice(alloc, &[7]) else {
        return false;
    };
    let to = Route {
        device: 0,
        endpoint: 0x02,
        kind: TransferType::Bulk,
        maximum: 64,
        key,
    };
    let mut transfer = TransferData::new(to.endpoint, to.kind);
    transfer.set_buffer(buffer);
    bus.idle(u64::MAX - 5);
    match bus.submit_by(to, Idle::new(transfer), u64::MAX) {
        Ok(ticket) => {
            bus.abandon(ticket); // the kernel has it still
            let before = idles(bus, u64::MAX - 1);
            let then = idles(bus, u64::MAX);
            before == Turn::TimeUp && then == Turn::Reaped
        }
        Err(_) => false,
    }
}
