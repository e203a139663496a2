//! Worked rows of cells on one thread.

use crate::devices::new_kernel;
use crate::kernel::apply;
use crate::live::{feed, open, poll, submit};
use crate::outcomes::prints;
use futures::executor::block_on;
use futures::future::poll_fn;
use futures::task::Poll;
use std::alloc::Global;
use std::process::Abort;
use std::random::RandomSource;
use std::sync::Wait;
use std::test::Fail;
use usb_desc::NoMemory;
use usb_kernel::{Kernel, KernelStep};
use usb_live::{
    HandlerSeat, LiveEndpoint, LiveError, OwnerSeat, Receipt, Round, Row, Tally,
    handler_seat_is_send, live_endpoint_is_send, owner_seat_is_send,
};
use usb_xfer::{Buffer, Notify, TransferError};

/// A step on a row, and what it gives.
#[derive(Clone, Copy)]
enum Step {
    /// A transfer of so many bytes is submitted, and gets this ticket.
    Submit(u8, u64),
    /// All cells are filled, and one more transfer comes back.
    Fill,
    /// So many transfers are pending.
    Pending(usize),
    /// A packet of these bytes comes.
    Packet(&'static [u8]),
    /// The device is gone.
    Unplug,
    /// The handler makes a round: its answers not yet, finished, reclaimed and empty.
    Round([u64; 4]),
    /// The oldest transfer is not finished.
    Wait,
    /// The oldest transfer is taken: its ticket, and the bytes that came to it.
    Take(u64, &'static [u8]),
    /// The oldest transfer is taken, which was refused: its ticket and why.
    Refused(u64, TransferError),
    /// A task waits for the oldest transfer: its ticket, and the bytes that came to it.
    Wake(u64, &'static [u8]),
}

/// What is done on a new row, and what is found when its endpoint is closed.
struct Case {
    name: &'static str,
    steps: &'static [Step],
    /// How many transfers were submitted, taken, dropped and reclaimed.
    tally: [u64; 4],
    /// How many events the journal has.
    events: usize,
    /// How often the next round answers not yet, finished, reclaimed and empty.
    round: [u64; 4],
}

/// Each of the 64 transfers of a filled row has an event of its submission and one of its discard.
const CASES: [Case; 8] = [
    Case {
        name: "the first is taken and the second is reclaimed",
        steps: &[
            Step::Submit(64, 0),
            Step::Submit(64, 1),
            Step::Pending(2),
            Step::Wait,
            Step::Round([2, 0, 0, 62]),
            Step::Packet(&[5]),
            Step::Round([1, 1, 0, 62]),
            Step::Take(0, &[5]),
            Step::Wait,
        ],
        tally: [2, 1, 0, 0],
        events: 5,
        round: [0, 0, 1, 63],
    },
    Case {
        name: "a submission above 64 comes back",
        steps: &[Step::Fill],
        tally: [64, 0, 0, 0],
        events: 128,
        round: [0, 0, 64, 0],
    },
    Case {
        name: "a submission to a device that is gone needs no handler",
        steps: &[
            Step::Unplug,
            Step::Submit(64, 0),
            Step::Refused(0, TransferError::Disconnected),
        ],
        tally: [1, 1, 0, 0],
        events: 2,
        round: [0, 0, 0, 64],
    },
    Case {
        name: "a submission of no bytes needs no handler",
        steps: &[
            Step::Submit(0, 0),
            Step::Refused(0, TransferError::InvalidArgument),
        ],
        tally: [1, 1, 0, 0],
        events: 1,
        round: [0, 0, 0, 64],
    },
    Case {
        name: "a submission of 65 bytes needs no handler",
        steps: &[
            Step::Submit(65, 0),
            Step::Refused(0, TransferError::InvalidArgument),
        ],
        tally: [1, 1, 0, 0],
        events: 1,
        round: [0, 0, 0, 64],
    },
    Case {
        name: "a finished transfer is dropped by the close",
        steps: &[
            Step::Submit(64, 0),
            Step::Packet(&[5]),
            Step::Round([0, 1, 0, 63]),
        ],
        tally: [1, 0, 1, 0],
        events: 3,
        round: [0, 0, 0, 64],
    },
    Case {
        name: "three receipts have their own bytes",
        steps: &[
            Step::Submit(64, 0),
            Step::Packet(&[0]),
            Step::Submit(64, 1),
            Step::Packet(&[1]),
            Step::Submit(64, 2),
            Step::Packet(&[2]),
            Step::Round([0, 3, 0, 61]),
            Step::Take(0, &[0]),
            Step::Take(1, &[1]),
            Step::Take(2, &[2]),
        ],
        tally: [3, 3, 0, 0],
        events: 9,
        round: [0, 0, 0, 64],
    },
    Case {
        name: "a task is woken by the handler",
        steps: &[
            Step::Submit(64, 0),
            Step::Packet(&[1, 2]),
            Step::Wake(0, &[1, 2]),
        ],
        tally: [1, 1, 0, 0],
        events: 3,
        round: [0, 0, 0, 64],
    },
];

/// The answers of a round: not yet, finished, reclaimed and empty.
fn round_of([not_yet, finished, reclaimed, empty]: [u64; 4]) -> Round {
    Round {
        not_yet,
        finished,
        reclaimed,
        empty,
    }
}

#[test]
fn rows_are_as_worked_out(rt: HostRuntime) -> Result<(), Fail> {
    for case in &CASES {
        let mut kernel = new_kernel(rt.alloc(), &[])?;
        expect_case(&rt, rt.alloc(), &mut kernel, case)?;
    }
    Ok(())
}

fn expect_case<R: Abort + Wait + RandomSource + AllocGlobal>(
    rt: &R,
    alloc: Global,
    kernel: &mut Kernel,
    case: &Case,
) -> Result<(), NoMemory> {
    let (owner, mut handler) = Row::new(alloc)?;
    let (steps, tally) = closed(rt, alloc, kernel, owner, &mut handler, case.steps);
    let is_right = steps == case.steps.len() && is_left(kernel, &mut handler, tally, case);
    let name = case.name;
    assert!(rt; is_right, "{name}: only {steps} steps were right");
    Ok(())
}

/// Whether the closed endpoint left what it should.
fn is_left(kernel: &mut Kernel, handler: &mut HandlerSeat, tally: Tally, case: &Case) -> bool {
    let counts = [tally.submitted, tally.taken, tally.dropped, tally.reclaimed];
    let events = kernel.journal().len();
    counts == case.tally && events == case.events && handler.round(kernel) == round_of(case.round)
}

/// Makes the steps at the owner's endpoint, and closes it. Says how many gave what they should
/// before one didn't.
fn closed<R: Abort + Wait + RandomSource + AllocGlobal>(
    rt: &R,
    alloc: Global,
    kernel: &mut Kernel,
    owner: OwnerSeat,
    handler: &mut HandlerSeat,
    steps: &[Step],
) -> (usize, Tally) {
    owner_seat_is_send(&owner);
    handler_seat_is_send(handler);
    let notify = Notify::new();
    let mut endpoint = open(rt, alloc, owner, &notify);
    live_endpoint_is_send(&endpoint);
    let right = right_steps(rt, alloc, kernel, handler, &mut endpoint, &notify, steps);
    let tally = endpoint.close(kernel);
    (right, tally)
}

fn right_steps<R: Wait + RandomSource + AllocGlobal>(
    rt: &R,
    alloc: Global,
    kernel: &mut Kernel,
    handler: &mut HandlerSeat,
    endpoint: &mut LiveEndpoint<'_>,
    notify: &Notify,
    steps: &[Step],
) -> usize {
    for (number, step) in steps.iter().enumerate() {
        if !is_so(rt, alloc, kernel, handler, endpoint, notify, *step) {
            return number;
        }
    }
    steps.len()
}

/// Makes a step, and says whether it gives what it should.
fn is_so<R: Wait + RandomSource + AllocGlobal>(
    rt: &R,
    alloc: Global,
    kernel: &mut Kernel,
    handler: &mut HandlerSeat,
    endpoint: &mut LiveEndpoint<'_>,
    notify: &Notify,
    step: Step,
) -> bool {
    match step {
        Step::Submit(len, ticket) => submits(alloc, kernel, endpoint, len, ticket),
        Step::Fill => fills(alloc, kernel, endpoint),
        Step::Pending(pending) => endpoint.pending() == pending,
        Step::Packet(bytes) => feed(alloc, kernel, bytes).is_ok(),
        Step::Unplug => apply(kernel, KernelStep::Unplug { device: 0 }).is_ok(),
        Step::Round(answers) => handler.round(kernel) == round_of(answers),
        Step::Wait => poll(endpoint).is_none(),
        Step::Take(ticket, bytes) => takes(endpoint, ticket, bytes),
        Step::Refused(ticket, error) => is_refused(endpoint, ticket, error),
        Step::Wake(ticket, bytes) => wakes(rt, kernel, handler, endpoint, notify, ticket, bytes),
    }
}

/// Whether a transfer of so many bytes gets this ticket.
fn submits(
    alloc: Global,
    kernel: &mut Kernel,
    endpoint: &mut LiveEndpoint<'_>,
    len: u8,
    ticket: u64,
) -> bool {
    submit(alloc, endpoint, kernel, len as usize) == Some(ticket)
}

/// Whether 64 transfers get their tickets, and one more comes back with its buffer of 128 bytes.
fn fills(alloc: Global, kernel: &mut Kernel, endpoint: &mut LiveEndpoint<'_>) -> bool {
    for ticket in 0..64 {
        if !submits(alloc, kernel, endpoint, 64, ticket) {
            return false;
        }
    }
    match Buffer::new(alloc, 128) {
        Ok(buffer) => len_back(endpoint.submit(kernel, buffer)) == Some(128),
        Err(_) => false,
    }
}

/// The length of the buffer that comes back where all cells are occupied.
fn len_back(answer: Result<u64, LiveError>) -> Option<usize> {
    match answer {
        Err(LiveError::Full(back)) => Some(back.requested_len()),
        Err(LiveError::Memory(_back)) => None,
        Ok(_ticket) => None,
    }
}

/// Whether the receipt is that of this ticket, to whose transfer these bytes came.
fn is_of(receipt: &Receipt, ticket: u64, bytes: &[u8]) -> bool {
    receipt.ticket == ticket
        && receipt.completion.status.is_ok()
        && receipt.completion.actual_len == bytes.len()
        && receipt.completion.buffer.as_slice() == bytes
}

fn takes(endpoint: &mut LiveEndpoint<'_>, ticket: u64, bytes: &[u8]) -> bool {
    match poll(endpoint) {
        Some(receipt) => is_of(&receipt, ticket, bytes),
        None => false,
    }
}

fn is_refused(endpoint: &mut LiveEndpoint<'_>, ticket: u64, error: TransferError) -> bool {
    match poll(endpoint) {
        Some(receipt) => receipt.ticket == ticket && receipt.completion.status == Err(error),
        None => false,
    }
}

/// Whether a task gets this receipt. Where the transfer isn't finished, the handler makes a round
/// and wakes the task.
fn wakes<R: Wait + RandomSource + AllocGlobal>(
    rt: &R,
    kernel: &mut Kernel,
    handler: &mut HandlerSeat,
    endpoint: &mut LiveEndpoint<'_>,
    notify: &Notify,
    ticket: u64,
    bytes: &[u8],
) -> bool {
    let woken = block_on(
        rt,
        poll_fn(|cx| {
            if endpoint.pending() == 0 {
                return Poll::Ready(false);
            }
            match endpoint.poll_next_complete(rt, cx) {
                Poll::Ready(receipt) => Poll::Ready(is_of(&receipt, ticket, bytes)),
                Poll::Pending => {
                    handler.round(kernel);
                    notify.notify(rt);
                    Poll::Pending
                }
            }
        }),
    );
    matches!(woken, Ok(true))
}

#[test]
fn errors_have_their_texts(rt: HostRuntime) -> Result<(), Fail> {
    let full = LiveError::Full(Buffer::new(rt.alloc(), 1)?).clone()?;
    assert!(rt; prints(rt.alloc(), &full, "all 64 cells are occupied"));
    let memory = LiveError::Memory(Buffer::new(rt.alloc(), 1)?).clone()?;
    assert!(rt; prints(rt.alloc(), &memory, "out of memory"));
    Ok(())
}
