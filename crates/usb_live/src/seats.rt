//! The two seats of a row, as their holders see them.

ghost use Rattle.std.specs.Prelude.{◌≡◌, ◌+◌, ◌*◌, ◌/◌, ◌%◌, ◌^◌, ◌<◌, true, false, Some, IfOk, MatchBool};
ghost use Rattle.std.specs.Arc.{arc_value};
ghost use Rattle.usb_live.specs.declared.view.Owned.TheVariants.{Free, Mine, Pending, Left};
ghost use Rattle.usb_live.specs.Rows.{owner_cell, owner_first, handler_first};
ghost use Rattle.usb_live.specs.Seats.{SeatState, OwnerState, owner_in, owns, owner_looks, has_own, hears};
ghost use Rattle.futures.specs.Task.{IsArmed, Hears, Keeps};
ghost use Rattle.usb_live.specs.Rests.{OwnerRests, HandlerRests, IsUnused, IsUnusedSeat};

use crate::row::{Row, RowSeat};
use crate::view::Transfer;
use futures::task::Context;
use std::alloc::{AllocError, Global};
use std::marker::Model;
use std::sync::{Arc, Wait};
use usb_desc::NoMemory;
use usb_kernel::{Kernel, completion_from};
use usb_xfer::{Completion, Notify};

/// The owner of a row between its calls, with the place where it hears of the handler's moves.
#[derive(Drop)]
pub(crate) struct Owner<'a> {
    row: Arc<Row, Global>,
    seat: RowSeat,
    notify: &'a Notify,
    ready: bool,
    heard: bool,
}

impl<'a> Model for Owner<'a> {
    ghost Value = { OwnerState };

    ghost view = { λ s. record {
      row = s.seat.table_id;
      view = s.seat.me.0;
      source = s.notify.now;
      ready = s.ready;
      heard = s.heard;
    } };

    ghost invariant = { λ s. OwnerRests (arc_value s.row).table.shared.table_id s.seat };
}

/// The owner's seat of a row whose cells are all free, for an endpoint to take. Contracts see what the owner knows.
#[derive(Drop)]
pub struct OwnerSeat {
    row: Arc<Row, Global>,
    seat: RowSeat,
}

impl Model for OwnerSeat {
    ghost Value = { SeatState };

    ghost view = { λ s. record { row = s.seat.table_id; view = s.seat.me.0 } };

    ghost invariant = { λ s. IsUnusedSeat (arc_value s.row).table.shared.table_id s.seat };
}

/// The handler's seat of a row. Contracts see what the handler knows.
#[derive(Drop)]
pub struct HandlerSeat {
    row: Arc<Row, Global>,
    seat: RowSeat,
}

impl Model for HandlerSeat {
    ghost Value = { SeatState };

    ghost view = { λ s. record { row = s.seat.table_id; view = s.seat.me.0 } };

    ghost invariant = { λ s. HandlerRests (arc_value s.row).table.shared.table_id s.seat };
}

/// What became of a cell at a step of the handler.
#[derive(Clone, Copy, PartialEq, Eq, Debug)]
pub enum CellStep {
    /// A ticket lies there for the handler, and the kernel has nothing of it to reap.
    NotYet,
    /// The owner has the completion now.
    Finished,
    /// The owner had left the ticket, and the handler took it out.
    Reclaimed,
    /// No ticket lies there for the handler.
    Empty,
}

impl Row {
    /// The two seats of a new row of 64 free cells.
    pub fn new(alloc: Global) -> Result<(OwnerSeat, HandlerSeat), NoMemory>
        ensures row { IfOk result (λ r. r.0.row ≡ r.1.row) }
        ensures seats { IfOk result (λ r. (r.0.view ≡ owner_first) × (r.1.view ≡ handler_first)) }
    {
        Ok(Row::seats(alloc)?)
    }

    /// The two seats of a new row.
    fn seats(alloc: Global) -> Result<(OwnerSeat, HandlerSeat), AllocError>
        ensures row { IfOk result (λ r. r.0.row ≡ r.1.row) }
        ensures seats { IfOk result (λ r. (r.0.view ≡ owner_first) × (r.1.view ≡ handler_first)) }
    {
        let (row, owner, handler) = Row::open(alloc)?;
        let row = Arc::new(alloc, row)?;
        let other = Arc::try_clone(&row)?;
        Ok((
            OwnerSeat { row, seat: owner },
            HandlerSeat {
                row: other,
                seat: handler,
            },
        ))
    }
}

impl OwnerSeat {
    /// The owner in this seat, who hears of the handler's moves there.
    pub(crate) fn into_owner(self, notify: &Notify) -> Owner<'_>
        ensures owner { result ≡ owner_in self notify.now }
        ensures unused { IsUnused self.view }
    {
        let OwnerSeat { row, seat } = self;
        Owner {
            row,
            seat,
            notify,
            ready: false,
            heard: false,
        }
    }
}

impl<'a> Owner<'a> {
    /// Where it hears of the handler's moves.
    pub fn notify(&self) -> &'a Notify
        ensures source { result.now ≡ self.now.source }
    {
        self.notify
    }

    /// Registers the task for the handler's moves, before the next look.
    pub fn subscribe(&mut self, rt: &impl Wait, cx: &mut Context<'_>)
        ensures hears { self.new ≡ hears self.old }
        ensures armed { IsArmed cx.new }
        ensures heard { Hears cx.new self.old.source }
        ensures kept { Keeps cx.old cx.new }
    {
        self.notify.subscribe(rt, cx);
        self.ready = true;
    }

    /// Puts a ticket into a free cell, for the handler to finish.
    pub fn submit(&mut self, cell: usize, ticket: u64)
        requires cell { (cell < 64) × ((owner_cell self.old.view cell).stage ≡ Free) }
        requires ticket { ticket < 2 ^ 62 }
        ensures pending { self.new ≡ owns self.old cell (Pending ticket) }
    {
        let transfer = Transfer {
            ticket,
            completion: None,
        };
        self.row.fill(&mut self.seat, cell, transfer);
        self.row.publish(&mut self.seat, cell, ticket);
    }

    /// Puts a ticket that was refused into a free cell, with its completion.
    pub fn refuse(&mut self, cell: usize, ticket: u64, completion: Completion)
        requires cell { (cell < 64) × ((owner_cell self.old.view cell).stage ≡ Free) }
        requires ticket { ticket < 2 ^ 62 }
        ensures mine { self.new ≡ has_own (owns self.old cell (Mine ticket)) completion }
    {
        self.row.refuse(&mut self.seat, cell, ticket, completion);
    }

    /// Looks at a pending cell, and says whether the handler is done with it.
    pub fn look(&mut self, cell: usize, ticket: u64) -> bool
        requires cell { (cell < 64) × ((owner_cell self.old.view cell).stage ≡ Pending ticket) }
        ensures looked { MatchBool result
            (self.new ≡ owner_looks (owns self.old cell (Mine ticket)) cell (4 * ticket))
            (self.new ≡ owner_looks self.old cell (4 * ticket + 1)) }
    {
        self.heard = self.ready;
        self.ready = false;
        self.row.owner_look(&mut self.seat, cell, ticket)
    }

    /// Takes the completion out of a cell that the owner has.
    pub fn take(&mut self, cell: usize, ticket: u64) -> Completion
        requires cell { (cell < 64) × ((owner_cell self.old.view cell).stage ≡ Mine ticket) }
        ensures free { self.new ≡ has_own (owns self.old cell Free) result }
    {
        self.row.owner_take(&mut self.seat, cell, ticket)
    }

    /// Leaves a pending cell to the handler, and says whether it did. If not, the handler was done with it.
    pub fn leave(&mut self, cell: usize, ticket: u64) -> bool
        requires cell { (cell < 64) × ((owner_cell self.old.view cell).stage ≡ Pending ticket) }
        ensures left { MatchBool result
            (self.new ≡ owns self.old cell (Left ticket))
            (self.new ≡ owns self.old cell (Mine ticket)) }
    {
        self.row.abandon(&mut self.seat, cell, ticket)
    }
}

impl HandlerSeat {
    ghost use Rattle.usb_live.specs.Answers.{StepTells, reclaimed_in, reclaimed_by};

    /// Looks at one cell, below 64. Where a ticket lies there for the handler, and waits for its
    /// reap, it is reaped and its completion goes to the owner, or is let go where the owner left
    /// it. `NotYet` and `Empty` leave the kernel as it was.
    pub fn step(&mut self, kernel: &mut Kernel, cell: usize) -> CellStep
        requires below { cell < 64 }
        ensures row { self.new.row ≡ self.old.row }
        ensures look { (self.new.view.looks ≡ self.old.view.looks + 1)
            × (self.new.view.cell ≡ cell) }
        ensures answer { StepTells result cell self.old.view kernel.old self.new.view kernel.new }
        ensures count { reclaimed_in self.new.view.handler
            ≡ reclaimed_in self.old.view.handler + reclaimed_by result }
    {
        let word = self.row.handler_look(&mut self.seat, cell);
        if word % 4 == 0 {
            return CellStep::Empty;
        }
        let ticket = word / 4;
        let Some(done) = kernel.reap(ticket) else {
            return CellStep::NotYet;
        };
        let completion = completion_from(done);
        if self.row.finish(&mut self.seat, cell, ticket, completion) {
            return CellStep::Finished;
        }
        drop(self.row.reclaim(&mut self.seat, cell, ticket));
        CellStep::Reclaimed
    }
}

fn needs_send<T: Send>(_x: &T) {}

/// The owner's seat may be moved to another thread.
pub fn owner_seat_is_send(seat: &OwnerSeat) {
    needs_send(seat);
}

/// The handler's seat may be moved to another thread.
pub fn handler_seat_is_send(seat: &HandlerSeat) {
    needs_send(seat);
}
