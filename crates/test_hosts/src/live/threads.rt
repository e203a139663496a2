//! Owner and handler on two threads.

use crate::devices::new_kernel;
use crate::live::{feed, open, submit};
use std::alloc::Global;
use std::process::Abort;
use std::sync::atomic::{AtomicBool, Ordering};
use std::sync::{Mutex, Wait};
use std::test::Fail;
use std::thread::join;
use usb_kernel::Kernel;
use usb_live::{HandlerSeat, LiveEndpoint, OwnerSeat, Row, Tally};
use usb_xfer::Notify;

/// Submits a transfer, to which this byte comes.
fn submit_and_feed(
    rt: &impl Wait,
    alloc: Global,
    kernel: &Mutex<Kernel>,
    endpoint: &mut LiveEndpoint<'_>,
    byte: u8,
) -> bool {
    let mut guard = kernel.lock(rt);
    let submitted = submit(alloc, endpoint, &mut *guard, 64);
    submitted.is_some() && feed(alloc, &mut *guard, &[byte]).is_ok()
}

/// Submits and takes 990 transfers of one byte each, as long as there is memory, and submits 10
/// more with no packet. Says how many receipts had their byte.
fn work<R: Wait>(
    rt: &R,
    alloc: Global,
    kernel: &Mutex<Kernel>,
    endpoint: &mut LiveEndpoint<'_>,
) -> u64 {
    let mut right = 0u64;
    for i in 0..990u64 {
        let byte = (i % 251) as u8;
        if !submit_and_feed(rt, alloc, kernel, endpoint, byte) || endpoint.pending() == 0 {
            break;
        }
        let receipt = endpoint.wait_next_complete(rt);
        if receipt.completion.buffer.as_slice() == [byte].as_slice() {
            right = right.saturating_add(1);
        }
    }
    for _ in 0..10 {
        submit(alloc, endpoint, &mut *kernel.lock(rt), 64);
    }
    right
}

/// Works at the owner's endpoint and closes it. Says how many receipts had their byte.
fn own<R: Abort + Wait>(
    rt: &R,
    alloc: Global,
    kernel: &Mutex<Kernel>,
    owner: OwnerSeat,
    notify: &Notify,
) -> (Tally, u64) {
    let mut endpoint = open(rt, alloc, owner, notify);
    let right = work(rt, alloc, kernel, &mut endpoint);
    (endpoint.close(&mut *kernel.lock(rt)), right)
}

/// Makes rounds until one began after `stop` was set. Says how many transfers they reclaimed.
fn handle(
    rt: &impl Wait,
    kernel: &Mutex<Kernel>,
    mut handler: HandlerSeat,
    notify: &Notify,
    stop: &AtomicBool,
) -> u64 {
    let mut reclaimed = 0u64;
    for _ in rt.forever() {
        let last = stop.load(Ordering::SeqCst);
        let round = handler.round(&mut *kernel.lock(rt));
        reclaimed = reclaimed.saturating_add(round.reclaimed);
        notify.notify(rt);
        if last {
            return reclaimed;
        }
    }
    unreachable!()
}

fn expect_counts(rt: &impl Abort, tally: Tally, right: u64, reclaimed: u64) {
    assert!(rt; tally.submitted == 1000 && tally.taken == 990 && right == 990);
    assert!(rt; tally.dropped == 0 && reclaimed == 10);
}

#[test]
fn a_thousand_transfers_on_two_threads(rt: HostRuntime) -> Result<(), Fail> {
    let kernel = Mutex::new(new_kernel(rt.alloc(), &[])?);
    let notify = Notify::new();
    let stop = AtomicBool::new(false);
    let (owner, handler) = Row::new(rt.alloc())?;
    let ((tally, right), reclaimed) = join(
        &rt,
        || {
            let owned = own(&rt, rt.alloc(), &kernel, owner, &notify);
            stop.store(true, Ordering::SeqCst);
            owned
        },
        || handle(&rt, &kernel, handler, &notify, &stop),
    );
    expect_counts(&rt, tally, right, reclaimed);
    Ok(())
}
