//! A run on two threads: the event loop, and a caller that submits and takes transfers.
ghost use Rattle.std.specs.Prelude.{ℕ, ◌≡◌, ◌+◌, ◌<◌, ◌≤◌, max, true, Some, None, IfOk, OnOk, MatchOption, IsSome, IsNone, length};
ghost use Rattle.usb_live.specs.Rows.{owner_first};
ghost use Rattle.usb_live.specs.Runs.{CountsReclaims, IsIdle, HasOne, IsWholeOrCut, OnlyLooked, TakesAfterLooks};

use crate::endpoint::LiveEndpoint;
use crate::entry::{LiveError, Receipt, Tally};
use crate::gates::{Gate, Seen, StopGate};
use crate::locked::LiveKernel;
use crate::looping::event_loop;
use crate::row::Row;
use crate::seats::{HandlerSeat, OwnerSeat};
use futures::task::Poll;
use std::alloc::Global;
use std::sync::Wait;
use std::thread::{Threads, join, yield_now};
use usb_desc::{NoMemory, TransferType};
use usb_device_endpoint::Route;
use usb_kernel::{Bytes, Descriptors, Kernel, KernelStep, SimDevice};
use usb_xfer::{Buffer, Notify};

/// The descriptors of the device: one configuration with one interface, a bulk IN endpoint 0x81 and a bulk OUT endpoint 0x02.
const DESCRIPTORS: [u8; 50] = [
    0x12, 0x01, 0x00, 0x02, 0x00, 0x00, 0x00, 0x40, 0xaa, 0xaa, 0xbb, 0xbb, 0x00, 0x01, 0x00, 0x00,
    0x00, 0x01, 0x09, 0x02, 0x20, 0x00, 0x01, 0x01, 0x00, 0x80, 0x32, 0x09, 0x04, 0x00, 0x00, 0x02,
    0xff, 0x00, 0x00, 0x00, 0x07, 0x05, 0x81, 0x02, 0x40, 0x00, 0x00, 0x07, 0x05, 0x02, 0x02, 0x40,
    0x00, 0x00,
];

/// What a run gives: the numbers of its tallies, the receipts in the order in which they were taken, and the kernel that was locked.
#[derive(Drop)]
pub struct LiveRun {
    pub submitted: u64,
    pub taken: u64,
    pub dropped: u64,
    pub reclaimed: u64,
    pub receipts: Vec<Receipt>,
    pub kernel: Kernel,
}

/// A kernel with the device.
fn one_device(alloc: Global) -> Result<Kernel, NoMemory> {
    let device = SimDevice {
        bus: 1,
        address: 6,
        speed: 3,
        config: 1,
        bytes: Descriptors::from_slice(alloc, &DESCRIPTORS)?,
        drivers: Bytes::from_vec(Vec::new(alloc)),
    };
    let mut devices = Vec::new(alloc);
    if devices.push((0, device)).is_err() {
        return Err(NoMemory);
    }
    Kernel::new(alloc, devices)
}

/// The device's bulk IN endpoint.
fn route() -> Route {
    Route {
        device: 0,
        endpoint: 0x81,
        kind: TransferType::Bulk,
        maximum: 64,
        key: 0,
    }
}

/// Submits a transfer, and applies the packet that ends it.
fn feed(
    alloc: Global,
    kernel: &mut Kernel,
    endpoint: &mut LiveEndpoint<'_>,
    byte: u8,
) -> Result<(), NoMemory>
    requires idle { IsIdle endpoint.old }
    ensures one { OnOk result (HasOne endpoint.old endpoint.new) }
{
    let buffer = Buffer::new(alloc, 64)?;
    let bytes = Bytes::from_slice(alloc, &[byte])?;
    kernel.reserve(1)?;
    match endpoint.submit(kernel, buffer) {
        Ok(_) => {}
        Err(LiveError::Full(_)) => unreachable!(),
        Err(LiveError::Memory(_)) => return Err(NoMemory),
    }
    let _ = kernel.step_once(KernelStep::Packet {
        device: 0,
        endpoint: 0x81,
        bytes,
    });
    Ok(())
}

/// The receipt of the transfer on its way. Sets the flag where it is not there at once. With patience it polls at most so often, the
/// first poll included, which is always made, and gives `None` where no receipt came. Without, it waits.
fn next_receipt<R: Wait>(
    rt: &R,
    endpoint: &mut LiveEndpoint<'_>,
    seen: &Seen,
    patience: Option<u32>,
) -> Option<Receipt>
    requires pending { 0 < length endpoint.old.queue }
    ensures told { MatchOption result
        (OnlyLooked endpoint.old endpoint.new)
        (λ r. TakesAfterLooks endpoint.old r endpoint.new) }
    ensures patient { patience ≡ None → IsSome result }
    // Each poll looks once, or not at all where the transfer was refused. So these clauses count the polls.
    ensures most { (polls : ℕ) → patience ≡ Some polls →
        endpoint.new.seat.view.looks ≤ endpoint.old.seat.view.looks + max polls 1 }
    ensures all { IsNone result → (polls : ℕ) → patience ≡ Some polls →
        endpoint.new.seat.view.looks ≡ endpoint.old.seat.view.looks + max polls 1 }
{
    if let Poll::Ready(receipt) = endpoint.try_next_complete() {
        return Some(receipt);
    }
    seen.set();
    let Some(polls) = patience else {
        return Some(endpoint.wait_next_complete(rt));
    };
    'polls: for _poll in 1..polls {
        yield_now();
        if let Poll::Ready(receipt) = endpoint.try_next_complete() {
            return Some(receipt);
        }
    }
    None
}

/// Submits and takes up to n transfers, one at a time, and stops where patience runs out.
fn transfers<R: Wait>(
    rt: &R,
    alloc: Global,
    n: u32,
    kernel: &LiveKernel,
    endpoint: &mut LiveEndpoint<'_>,
    seen: &Seen,
    patience: Option<u32>,
) -> Result<Vec<Receipt>, NoMemory>
    requires idle { IsIdle endpoint.old }
    requires fresh { (endpoint.old.tally.submitted ≡ 0) × (endpoint.old.tally.taken ≡ 0) }
    ensures receipts { IfOk result (λ receipts. length receipts.items ≡ endpoint.new.tally.taken) }
    ensures patient { OnOk result (patience ≡ None
        → (endpoint.new.tally.submitted ≡ n) × (endpoint.new.tally.taken ≡ n)) }
    ensures begins { OnOk result (0 < n → 0 < endpoint.new.tally.submitted) }
    ensures whole { OnOk result
        (IsWholeOrCut n endpoint.new.tally.submitted endpoint.new.tally.taken) }
{
    let mut receipts = Vec::new(alloc);
    'transfers: for j in 0..n {
        if receipts.reserve(1).is_err() {
            return Err(NoMemory);
        }
        feed(alloc, &mut *kernel.lock(rt), endpoint, (j % 256) as u8)?;
        let Some(receipt) = next_receipt(rt, endpoint, seen, patience) else {
            return Ok(receipts);
        };
        receipts.push_reserved(receipt);
    }
    Ok(receipts)
}

/// The caller's part: submits and takes transfers, and closes the endpoint.
fn call<R: Wait>(
    rt: &R,
    alloc: Global,
    n: u32,
    kernel: &LiveKernel,
    notify: &Notify,
    owner: OwnerSeat,
    seen: &Seen,
    patience: Option<u32>,
) -> Result<(Tally, Vec<Receipt>), NoMemory>
    requires first { owner.view ≡ owner_first }
    ensures receipts { IfOk result (λ r. length r.1.items ≡ r.0.taken) }
    ensures patient { IfOk result (λ r. patience ≡ None → (r.0.submitted ≡ n) × (r.0.taken ≡ n)) }
    ensures begins { IfOk result (λ r. 0 < n → 0 < r.0.submitted) }
    ensures whole { IfOk result (λ r. IsWholeOrCut n r.0.submitted r.0.taken) }
{
    let Ok(mut endpoint) = LiveEndpoint::new(alloc, owner, route(), notify, Tally::new()) else {
        return Err(NoMemory);
    };
    let called = transfers(rt, alloc, n, kernel, &mut endpoint, seen, patience);
    let tally = endpoint.close(&mut *kernel.lock(rt));
    match called {
        Ok(receipts) => Ok((tally, receipts)),
        Err(e) => Err(e),
    }
}

/// Whether each transfer was taken, dropped or reclaimed.
fn is_settled(tally: Tally, reclaimed: u64) -> bool
    ensures settled { result ≡ true → tally.submitted ≡ tally.taken + tally.dropped + reclaimed }
{
    let Some(ended) = tally.taken.checked_add(tally.dropped) else {
        return false;
    };
    ended.checked_add(reclaimed) == Some(tally.submitted)
}

/// Makes rounds until each transfer was taken, dropped or reclaimed. Hands the seat back, and the loop's tally, which counts what
/// these rounds reclaimed too.
fn settle<R: Wait>(
    rt: &R,
    kernel: &LiveKernel,
    mut handler: HandlerSeat,
    tally: Tally,
    mut looped: Tally,
) -> (HandlerSeat, Tally)
    ensures settled { tally.submitted ≡ tally.taken + tally.dropped + result.1.reclaimed }
    ensures count { CountsReclaims handler.view looped result.0.view result.1 }
{
    'rounds: for _ in rt.forever() {
        if is_settled(tally, looped.reclaimed) {
            return (handler, looped);
        }
        let round = handler.round(&mut *kernel.lock(rt));
        looped.reclaimed = looped.reclaimed.saturating_add(round.reclaimed);
    }
    unreachable!()
}

/// The two threads of a run: the event loop, and its caller. Answers the handler's seat with the loop's tally, and the caller's tally
/// with its receipts.
fn run_both<R: Threads + Wait + Sync, G: Gate + Send>(
    rt: &R,
    alloc: Global,
    n: u32,
    kernel: &LiveKernel,
    gate: G,
    seen: &Seen,
    patience: Option<u32>,
) -> Result<((HandlerSeat, Tally), (Tally, Vec<Receipt>)), NoMemory>
    ensures receipts { IfOk result (λ r. length r.1.1.items ≡ r.1.0.taken) }
    ensures patient { IfOk result
        (λ r. patience ≡ None → (r.1.0.submitted ≡ n) × (r.1.0.taken ≡ n)) }
    ensures begins { IfOk result (λ r. 0 < n → 0 < r.1.0.submitted) }
    ensures whole { IfOk result (λ r. IsWholeOrCut n r.1.0.submitted r.1.0.taken) }
{
    let (owner, handler) = Row::new(alloc)?;
    let notify = Notify::new();
    let stop = Seen::new();
    let (looped, called) = join(
        rt,
        || {
            let mut gate = StopGate::new(&stop, gate);
            event_loop(rt, kernel, handler, &notify, &mut gate, Tally::new())
        },
        || {
            let called = call(rt, alloc, n, kernel, &notify, owner, seen, patience);
            stop.set();
            called
        },
    );
    Ok((looped, called?))
}

/// Runs n IN transfers of one packet each, with the event loop on one thread and their caller on another. The loop ends where the gate
/// closes, or where the caller is done. Without patience the caller waits for each receipt, and with it gives up after so many polls.
/// The flag is set at the first poll that is pending.
pub fn live_run<R: Threads + Wait + Sync, G: Gate + Send>(
    rt: &R,
    alloc: Global,
    n: u32,
    gate: G,
    seen: &Seen,
    patience: Option<u32>,
) -> Result<LiveRun, NoMemory>
    ensures each { IfOk result (λ run. run.submitted ≡ run.taken + run.dropped + run.reclaimed) }
    ensures receipts { IfOk result (λ run. length run.receipts.items ≡ run.taken) }
    ensures patient { IfOk result (λ run. patience ≡ None → (run.submitted ≡ n) × (run.taken ≡ n)) }
    ensures begins { IfOk result (λ run. 0 < n → 0 < run.submitted) }
    ensures whole { IfOk result (λ run. IsWholeOrCut n run.submitted run.taken) }
{
    let kernel = LiveKernel::new(one_device(alloc)?)?;
    let ((handler, looped), (tally, receipts)) = run_both(
        rt, alloc, n, &kernel, gate, seen, patience,
    )?;
    let (_, settled) = settle(rt, &kernel, handler, tally, looped);
    Ok(LiveRun {
        submitted: tally.submitted,
        taken: tally.taken,
        dropped: tally.dropped,
        reclaimed: settled.reclaimed,
        receipts,
        kernel: kernel.into_kernel(),
    })
}
