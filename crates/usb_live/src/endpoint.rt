//! A queue of transfers over a row.

ghost use Rattle.std.specs.Prelude.{◌≡◌, ℕ, ◌+◌, ◌*◌, ◌^◌, ◌<◌, true, false, [], List, None, IfOk, IfErr, OnOk, OnErr, MatchOption, MatchBool, length, slice_set, slice_index_or, cond, ◌⊎◌};
ghost use Rattle.futures.specs.Task.{IsArmed, Hears, Keeps};
ghost use Rattle.futures.specs.declared.task.Poll.TheVariants.{Ready};
ghost use Rattle.usb_kernel.specs.Submits.{number_of};
ghost use Rattle.usb_live.specs.declared.view.Owned.TheVariants.{Free, Mine, Left};
ghost use Rattle.usb_live.specs.Rows.{owner_cell};
ghost use Rattle.usb_live.specs.Seats.{OwnerState, owner_in, owns, owner_looks, has_own, hears};
ghost use Rattle.usb_live.specs.Submits.{is_valid, submitted, after_submitted, entry_of};
ghost use Rattle.usb_live.specs.Live.{LiesInCell, IsDropped, placed};

use crate::entry::{Entry, LiveError, Receipt, Tally};
use crate::seats::{Owner, OwnerSeat};
use futures::task::{Context, Poll};
use std::alloc::Global;
use std::collections::VecDeque;
use std::marker::Model;
use std::sync::Wait;
use usb_device_endpoint::Route;
use usb_kernel::{Kernel, Submission, Submitted, completion_from, errno};
use usb_xfer::{Buffer, Notify};

/// A queue of transfers that lie in the cells of a row. `close` ends it: an endpoint is never dropped.
pub struct LiveEndpoint<'a> {
    seat: Owner<'a>,
    to: Route,
    queue: VecDeque<Entry>,
    used: [bool; 64],
    tally: Tally,
}

impl<'a> Model for LiveEndpoint<'a> {
    ghost use Rattle.usb_live.specs.Live.{Live, Orderly};

    ghost Value = { Live };

    ghost view = { λ e. record {
      seat = e.seat;
      route = e.to;
      queue = e.queue.items;
      tally = e.tally;
    } };

    ghost invariant = { λ e. Orderly e.seat.view e.queue.items e.used };
}

/// Whether an IN endpoint is asked for whole packets, at least one. An OUT endpoint sends any bytes.
fn is_valid(s: &Submission) -> bool
    ensures valid { result ≡ is_valid s.now }
{
    let len = s.buffer.requested_len();
    s.endpoint < 128 || (s.maximum > 0 && len > 0 && len % s.maximum == 0)
}

/// A submission goes to the kernel, or is refused where it is not valid. An `Err` is want of memory.
fn enter(kernel: &mut Kernel, s: Submission) -> Result<Submitted, Submission>
    requires deadline { s.deadline ≡ None }
    ensures submitted { IfOk result (λ r. r ≡ submitted kernel.old s) }
    ensures number { IfOk result (λ r. number_of r < 2 ^ 62) }
    ensures kernel { OnOk result (kernel.new ≡ after_submitted kernel.old s) }
    ensures err { OnErr result (kernel.new ≡ kernel.old) }
    ensures back { IfErr result (λ back. back ≡ s) }
{
    if is_valid(&s) {
        kernel.submit(s)
    } else {
        kernel.refuse(s, errno::INVAL)
    }
}

/// Puts a submission into a free cell: for the handler to finish, or with its completion where it was refused.
fn place(seat: &mut Owner<'_>, cell: usize, submitted: Submitted) -> Entry
    requires cell { (cell < 64) × ((owner_cell seat.old.view cell).stage ≡ Free) }
    requires number { number_of submitted < 2 ^ 62 }
    ensures entry { result ≡ entry_of submitted cell }
    ensures seat { seat.new ≡ placed seat.old submitted cell }
{
    match submitted {
        Submitted::Queued(ticket) => {
            seat.submit(cell, ticket);
            Entry {
                ticket,
                cell,
                refused: false,
            }
        }
        Submitted::Refused(done) => {
            let ticket = done.ticket;
            seat.refuse(cell, ticket, completion_from(done));
            Entry {
                ticket,
                cell,
                refused: true,
            }
        }
    }
}

/// Whether the handler is done with an entry. A refused one was never its own.
fn is_done(seat: &mut Owner<'_>, e: Entry) -> bool
    requires stands { LiesInCell seat.old.view.owner e }
    ensures looked { MatchBool result
        (seat.new ≡ cond e.refused seat.old
        (owner_looks (owns seat.old e.cell (Mine e.ticket)) e.cell (4 * e.ticket)))
        ((e.refused ≡ false) × (seat.new ≡ owner_looks seat.old e.cell (4 * e.ticket + 1))) }
{
    if e.refused {
        return true;
    }
    seat.look(e.cell, e.ticket)
}

/// Takes the completion of the front entry, whose cell the owner has.
fn take_front(seat: &mut Owner<'_>, used: &mut [bool; 64], e: Entry) -> Receipt
    requires cell { (e.cell < 64) × ((owner_cell seat.old.view e.cell).stage ≡ Mine e.ticket) }
    requires used { length used.old ≡ 64 }
    ensures ticket { result.ticket ≡ e.ticket }
    ensures seat { seat.new ≡ has_own (owns seat.old e.cell Free) result.completion }
    ensures used { used.new ≡ slice_set used.old e.cell false }
{
    let completion = seat.take(e.cell, e.ticket);
    used[e.cell] = false;
    Receipt {
        ticket: e.ticket,
        completion,
    }
}

/// The first cell that is not used.
fn free_cell(used: &[bool; 64]) -> Option<usize>
    requires long { length used.now ≡ 64 }
    ensures first { MatchOption result
        ((i : ℕ) → i < 64 → slice_index_or used.now i true ≡ true)
        (λ i. (i < 64) × (slice_index_or used.now i true ≡ false)) }
{
    for i in 0..64 {
        if !used[i] {
            return Some(i);
        }
    }
    None
}

/// Leaves an entry to the handler, or drops it where the handler is done with it. Says how many were dropped.
fn give_up(seat: &mut Owner<'_>, used: &mut [bool; 64], e: Entry) -> u64
    requires cell { LiesInCell seat.old.view.owner e }
    requires used { (length used.old ≡ 64) × (length seat.old.view.owner ≡ 64) }
    ensures given_up { ((result ≡ 1) × IsDropped e seat.old seat.new
        × (used.new ≡ slice_set used.old e.cell false))
        ⊎ ((result ≡ 0) × (seat.new ≡ owns seat.old e.cell (Left e.ticket))
        × (used.new ≡ used.old)) }
{
    if e.refused {
        drop(take_front(seat, used, e));
        return 1;
    }
    if seat.leave(e.cell, e.ticket) {
        return 0;
    }
    drop(take_front(seat, used, e));
    1
}

impl<'a> LiveEndpoint<'a> {
    ghost use Rattle.usb_live.specs.Live.{Live};
    ghost use Rattle.usb_live.specs.declared.view.OwnerCell.{OwnerCell};
    ghost use Rattle.usb_live.specs.Calls.{SubmitTells, NextTells, cancelled, IsShut, with_dropped};

    /// An empty queue over a row, and its numbers go on from the tally. An `Err` is want of memory, and gives seat and tally back.
    pub fn new(
        alloc: Global,
        owner: OwnerSeat,
        to: Route,
        notify: &'a Notify,
        tally: Tally,
    ) -> Result<LiveEndpoint<'a>, (OwnerSeat, Tally)>
        ensures fresh { IfOk result (λ e. e ≡ record {
          seat = owner_in owner notify.now;
          route = to;
          queue = [];
          tally = tally;
        }) }
        ensures back { IfErr result (λ back. back ≡ (owner, tally)) }
    {
        match VecDeque::with_capacity(alloc, 64) {
            Ok(queue) => Ok(LiveEndpoint {
                seat: owner.into_owner(notify),
                to,
                queue,
                used: [false; 64],
                tally,
            }),
            Err(_) => Err((owner, tally)),
        }
    }

    /// How many transfers are on their way.
    pub fn pending(&self) -> usize
        ensures pending { result ≡ length self.now.queue }
    {
        self.queue.len()
    }

    /// Submits a transfer of this buffer, and gives its ticket. An `Err` gives the buffer back, and nothing has changed.
    pub fn submit(&mut self, kernel: &mut Kernel, buf: Buffer) -> Result<u64, LiveError>
        ensures submitted { SubmitTells result buf self.old kernel.old self.new kernel.new }
    {
        let Some(cell) = free_cell(&self.used) else {
            return Err(LiveError::Full(buf));
        };
        if self.queue.reserve(1).is_err() {
            return Err(LiveError::Memory(buf));
        }
        let submitted = match enter(kernel, self.to.submission(None, buf)) {
            Ok(submitted) => submitted,
            Err(back) => return Err(LiveError::Memory(back.buffer)),
        };
        let entry = place(&mut self.seat, cell, submitted);
        self.queue.push_back_reserved(entry);
        self.used[cell] = true;
        self.tally.submitted = self.tally.submitted.saturating_add(1);
        Ok(entry.ticket)
    }

    /// The receipt of the oldest transfer, once the handler is done with it. Some transfer has to be on its way.
    pub fn try_next_complete(&mut self) -> Poll<Receipt>
        requires pending { 0 < length self.old.queue }
        ensures told { NextTells result self.old self.new }
    {
        let Some(front) = self.queue.front() else {
            unreachable!()
        };
        let e = *front;
        if !is_done(&mut self.seat, e) {
            return Poll::Pending;
        }
        let receipt = take_front(&mut self.seat, &mut self.used, e);
        self.queue.pop_front();
        self.tally.taken = self.tally.taken.saturating_add(1);
        Poll::Ready(receipt)
    }

    /// Registers the task to be polled again at the handler's next move, and then does as `try_next_complete`.
    pub fn poll_next_complete(&mut self, rt: &impl Wait, cx: &mut Context<'_>) -> Poll<Receipt>
        requires pending { 0 < length self.old.queue }
        ensures told { NextTells result (record self.old { seat = hears self.old.seat }) self.new }
        ensures armed { IsArmed cx.new }
        ensures heard { Hears cx.new self.old.seat.source }
        ensures kept { Keeps cx.old cx.new }
    {
        self.seat.subscribe(rt, cx);
        self.try_next_complete()
    }

    /// Waits until the handler is done with the oldest transfer. Some transfer has to be on its way.
    pub fn wait_next_complete(&mut self, rt: &impl Wait) -> Receipt
        requires pending { 0 < length self.old.queue }
        ensures told { (s : OwnerState)
            × (s.row ≡ self.old.seat.row) × (s.source ≡ self.old.seat.source)
            × (s.view.owner ≡ self.old.seat.view.owner)
            × NextTells (Ready result) (record self.old { seat = s }) self.new }
    {
        let notify = self.seat.notify();
        'rounds: for _ in rt.forever() {
            let seen = notify.moves(rt);
            if let Poll::Ready(receipt) = self.try_next_complete() {
                return receipt;
            }
            notify.wait_past(rt, seen);
        }
        unreachable!()
    }

    /// Discards what is on its way, from the last to the first.
    pub fn cancel_all(&mut self, kernel: &mut Kernel)
        ensures kernel { kernel.new ≡ cancelled self.old.queue kernel.old }
        ensures same { self.new ≡ self.old }
    {
        let queue = &self.queue;
        'tickets: for i in (0..queue.len()).rev() {
            kernel.discard(queue[i].ticket);
        }
    }

    /// Discards what is on its way, leaves what is pending to the handler, and drops what the handler is done with.
    pub fn shut(&mut self, kernel: &mut Kernel)
        ensures kernel { kernel.new ≡ cancelled self.old.queue kernel.old }
        ensures cells { IsShut self.new.seat.view.owner }
        ensures row { self.new.seat.row ≡ self.old.seat.row }
        ensures source { self.new.seat.source ≡ self.old.seat.source }
        ensures rest { self.new ≡ record self.old {
          seat = self.new.seat;
          queue = [];
          tally = with_dropped self.old.tally self.old.seat.view.owner self.new.seat.view.owner;
        } }
    {
        self.cancel_all(kernel);
        let _dropped = self.tally.dropped;
        'entries: while let Some(e) = self.queue.pop_front() {
            let dropped = give_up(&mut self.seat, &mut self.used, e);
            self.tally.dropped = self.tally.dropped.saturating_add(dropped);
        }
    }

    /// Shuts, gives the seat up, and answers the numbers.
    pub fn close(mut self, kernel: &mut Kernel) -> Tally
        ensures kernel { kernel.new ≡ cancelled self.entry.queue kernel.old }
        ensures tally { (cells : List OwnerCell) × IsShut cells
            × (result ≡ with_dropped self.entry.tally self.entry.seat.view.owner cells) }
    {
        self.shut(kernel);
        let LiveEndpoint {
            seat: _,
            to: _,
            queue: _,
            used: _,
            tally,
        } = self;
        tally
    }
}

fn needs_send<T: Send>(_x: &T) {}

/// An endpoint may be moved to another thread.
pub fn live_endpoint_is_send(endpoint: &LiveEndpoint<'_>) {
    needs_send(endpoint);
}
