//! Runs of the event loop and a caller on two threads.

use std::alloc::Global;
use std::process::Abort;
use std::sync::Wait;
use std::test::Fail;
use std::thread::{Threads, yield_now};
use usb_desc::NoMemory;
use usb_kernel::{Event, Kernel};
use usb_live::{
    Gate, LiveKernel, LiveRun, OpenGate, Receipt, Seen, live_kernel_is_send_and_sync, live_run,
    open_gate_is_send, seen_is_send_and_sync,
};

/// How many turns a gate waits for what it wants to see.
const TURNS: u32 = 1_000_000;

/// A gate that holds the loop until `seen` is set, and notes in `found` that it was. It closes
/// where that takes too long.
#[derive(Drop)]
struct Patient<'a> {
    seen: &'a Seen,
    found: &'a Seen,
    asked: bool,
    closed: bool,
}

impl<'a> Gate for Patient<'a> {
    ghost is_closed = { λ g. g.closed };

    fn pass(&mut self) -> bool {
        if !self.asked {
            self.asked = true;
            let found = waits(self.seen);
            if found {
                self.found.set();
            }
            self.closed = self.closed || !found;
        }
        !self.closed
    }
}

/// Whether the flag is set within so many turns.
fn waits(flag: &Seen) -> bool {
    for _ in 0..TURNS {
        if flag.get() {
            return true;
        }
        yield_now();
    }
    false
}

/// How often the ticket was reaped.
fn reaps(kernel: &Kernel, wanted: u64) -> usize {
    kernel
        .journal()
        .iter()
        .filter(|event| matches!(event, Event::Reap { ticket } if *ticket == wanted))
        .count()
}

/// Whether the receipt is what the journal gives: the ticket was reaped once, it is finished with
/// as many bytes as the receipt has, and these are the bytes of the packet that came to it.
fn is_of(kernel: &Kernel, receipt: &Receipt, nth: usize) -> bool {
    if receipt.ticket >= kernel.tickets() {
        return false;
    }
    let info = kernel.ticket(receipt.ticket);
    let packet = kernel
        .journal()
        .iter()
        .filter_map(|event| match event {
            Event::Packet { bytes, .. } => Some(bytes.as_slice()),
            _ => None,
        })
        .nth(nth);
    reaps(kernel, receipt.ticket) == 1
        && info.reaped
        && info.status == Some(0)
        && info.count == receipt.completion.actual_len
        && receipt.completion.status.is_ok()
        && packet == Some(receipt.completion.buffer.as_slice())
}

/// Whether the receipt at this place is the place's, and the place's number came to it as a byte.
fn has_receipt(run: &LiveRun, nth: u8) -> bool {
    match run.receipts.get(nth as usize) {
        Some(receipt) => {
            receipt.ticket == u64::from(nth)
                && receipt.completion.buffer.as_slice() == [nth].as_slice()
                && is_of(&run.kernel, receipt, nth as usize)
        }
        None => false,
    }
}

/// Compares how many transfers were submitted, taken, dropped and reclaimed, the receipts of those
/// taken, and how often the first ticket was reaped.
fn expect_counts(rt: &impl Abort, run: &LiveRun, counts: [u8; 4]) {
    let [submitted, taken, dropped, reclaimed] = counts;
    assert!(rt; run.submitted == u64::from(submitted) && run.taken == u64::from(taken));
    assert!(rt; run.dropped == u64::from(dropped) && run.reclaimed == u64::from(reclaimed));
    assert!(rt; reaps(&run.kernel, 0) == 1);
}

fn expect_receipts(rt: &impl Abort, run: &LiveRun, receipts: u8) {
    assert!(rt; run.receipts.len() == receipts as usize);
    for nth in 0..receipts {
        assert!(rt; has_receipt(run, nth), "receipt {nth}");
    }
}

/// Compares how many tickets the kernel has when it was locked and is so no more.
fn expect_locked(rt: &impl Abort, kernel: Kernel, tickets: u64) -> Result<(), NoMemory> {
    let kernel = LiveKernel::new(kernel)?;
    live_kernel_is_send_and_sync(&kernel);
    assert!(rt; kernel.into_kernel().tickets() == tickets);
    Ok(())
}

/// Runs the loop behind a gate, beside a caller of so many transfers, and compares how many were
/// submitted, taken, dropped and reclaimed, with what was left.
fn expect_run<R: Abort + Threads + Wait + Sync, G: Gate + Send>(
    rt: &R,
    alloc: Global,
    transfers: u32,
    gate: G,
    seen: &Seen,
    polls: Option<u32>,
    counts: [u8; 4],
) -> Result<(), NoMemory> {
    let run = live_run(rt, alloc, transfers, gate, seen, polls)?;
    expect_counts(rt, &run, counts);
    expect_receipts(rt, &run, counts[1]);
    expect_locked(rt, run.kernel, u64::from(counts[0]))
}

#[test]
fn the_loop_waits_for_the_first_pending_poll(rt: HostRuntime) -> Result<(), Fail> {
    let seen = Seen::new();
    let found = Seen::new();
    seen_is_send_and_sync(&seen);
    let gate = Patient {
        seen: &seen,
        found: &found,
        asked: false,
        closed: false,
    };
    expect_run(&rt, rt.alloc(), 1, gate, &seen, Some(TURNS), [1, 1, 0, 0])?;
    assert!(rt; found.get());
    Ok(())
}

#[test]
fn three_receipts_are_those_of_the_journal(rt: HostRuntime) -> Result<(), Fail> {
    open_gate_is_send(&OpenGate);
    let seen = Seen::new();
    Ok(expect_run(&rt, rt.alloc(), 3, OpenGate, &seen, None, [3, 3, 0, 0])?)
}

#[test]
fn what_patience_leaves_is_reclaimed(rt: HostRuntime) -> Result<(), Fail> {
    let seen = Seen::new();
    let gate = Patient {
        seen: &seen,
        found: &seen,
        asked: true,
        closed: true,
    };
    Ok(expect_run(&rt, rt.alloc(), 2, gate, &seen, Some(2), [1, 0, 0, 1])?)
}
