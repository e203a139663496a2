//! A row of 64 cells, and its steps.
ghost use Rattle.std.specs.Prelude.{◌≡◌, Option, ◌*◌, ◌+◌, ◌/◌, ◌%◌, ◌^◌, ◌<◌, true, false, [], ◌∷◌, Some, IfOk, MatchBool};
ghost use Rattle.usb_live.specs.Cells.{OwnerTakes};
ghost use Rattle.usb_live.specs.Rows.{owner_cell, owner_first, handler_first};
ghost use Rattle.usb_live.specs.Steps.{owning, looked, with_own, found_in, OwnerFinds};
ghost use Rattle.usb_live.specs.Seats.{IsOwnerOf, OwnerHas, IsSameSeat};
ghost use Rattle.usb_live.specs.declared.view.Owned.TheVariants.{Free, Filled, Mine, Pending, Left};
ghost use Rattle.usb_live.specs.declared.view.Transfer.{Transfer};

use crate::plays::{Abandon, Cells, Fill, OwnerLook, OwnerOut, OwnerTake, Publish, Refuse, Seats};
use crate::view::{Transfer, View};
use atomic_table::{Seat, Table};
use std::alloc::{AllocError, Global};
use usb_xfer::Completion;

/// A seat of a row, with what it knows.
pub type RowSeat = Seat<Option<Transfer>, View>;

/// 64 cells, each a word and a slot. A word is 4 t and a state of the ticket t: 0 idle, 1 pending, 2 abandoned.
#[derive(Drop)]
pub struct Row {
    pub(crate) table: Table<Option<Transfer>, View, (), Cells, Global>,
    ghost sized: { (table.shared.table_id.words ≡ 64) × (table.shared.table_id.slots ≡ 64) },
}

impl Row {
    /// A row of 64 free cells, with the owner's seat and the handler's.
    pub(crate) fn open(alloc: Global) -> Result<(Row, RowSeat, RowSeat), AllocError>
        ensures { IfOk result (λ r. (r.1.table_id ≡ r.0.table.shared.table_id)
            × (r.2.table_id ≡ r.0.table.shared.table_id)
            × (r.1.me ≡ (owner_first, [])) × (r.2.me ≡ (handler_first, []))) }
    {
        let (table, mut owner) = Table::vacant(alloc, &[0; 64], 64, &())?;
        let handler = table.shared.split_seat::<Seats>(&mut owner);
        Ok((Row { table }, owner, handler))
    }

    /// The owner takes the slot of the cell out.
    fn owner_out(&self, seat: &mut RowSeat, cell: usize)
        requires seat { IsOwnerOf self.now.table.shared.table_id seat.old }
        requires cell { (cell < 64) × ((owner_cell seat.old.me.0 cell).out ≡ false)
            × OwnerTakes (owner_cell seat.old.me.0 cell).stage }
        ensures seat { IsSameSeat seat.old seat.new }
        ensures out { (x : Option Transfer)
            × (seat.new.me ≡ (
              owning
                  (with_own seat.old.me.0
                  (found_in (owner_cell seat.old.me.0 cell).stage x seat.old.me.0.own))
                  cell (owner_cell seat.old.me.0 cell).stage true,
              (cell, x) ∷ seat.old.me.1,
            ))
            × OwnerFinds (owner_cell seat.old.me.0 cell).stage x }
    {
        self.table.shared.load::<OwnerOut>(seat, cell);
    }

    /// A free cell gets a transfer.
    pub(crate) fn fill(&self, seat: &mut RowSeat, cell: usize, transfer: Transfer)
        requires seat { IsOwnerOf self.now.table.shared.table_id seat.old }
        requires cell { OwnerHas seat.old.me.0 cell Free }
        requires ticket { transfer.ticket < 2 ^ 62 }
        ensures seat { IsSameSeat seat.old seat.new }
        ensures filled { seat.new.me
            ≡ (owning seat.old.me.0 cell (Filled transfer.ticket) false, seat.old.me.1) }
    {
        self.owner_out(seat, cell);
        let word = transfer.ticket * 4;
        drop(self.table.shared.exchange(seat, cell, Some(transfer)));
        self.table.shared.swap::<Fill>(seat, cell, word);
    }

    /// A free cell gets a transfer that ended at once.
    pub(crate) fn refuse(&self, seat: &mut RowSeat, cell: usize, ticket: u64, done: Completion)
        requires seat { IsOwnerOf self.now.table.shared.table_id seat.old }
        requires cell { OwnerHas seat.old.me.0 cell Free }
        requires ticket { ticket < 2 ^ 62 }
        ensures seat { IsSameSeat seat.old seat.new }
        ensures refused { seat.new.me
            ≡ (
              owning (with_own seat.old.me.0 (Some done)) cell (Mine ticket) false,
              seat.old.me.1,
            ) }
    {
        self.owner_out(seat, cell);
        let transfer = Transfer {
            ticket,
            completion: Some(done),
        };
        drop(self.table.shared.exchange(seat, cell, Some(transfer)));
        self.table.shared.swap::<Refuse>(seat, cell, ticket * 4);
    }

    /// A filled cell becomes pending: the handler may see it from now on.
    pub(crate) fn publish(&self, seat: &mut RowSeat, cell: usize, ticket: u64)
        requires seat { IsOwnerOf self.now.table.shared.table_id seat.old }
        requires cell { OwnerHas seat.old.me.0 cell (Filled ticket) }
        requires ticket { ticket < 2 ^ 62 }
        ensures seat { IsSameSeat seat.old seat.new }
        ensures published { seat.new.me
            ≡ (owning seat.old.me.0 cell (Pending ticket) false, seat.old.me.1) }
    {
        self.table
            .shared
            .swap::<Publish>(seat, cell, ticket * 4 + 1);
    }

    /// Looks at a pending cell, and says whether the handler is done with it.
    pub(crate) fn owner_look(&self, seat: &mut RowSeat, cell: usize, ticket: u64) -> bool
        requires seat { IsOwnerOf self.now.table.shared.table_id seat.old }
        requires cell { (cell < 64) × ((owner_cell seat.old.me.0 cell).stage ≡ Pending ticket) }
        ensures seat { IsSameSeat seat.old seat.new }
        ensures looked { MatchBool result
            (seat.new.me ≡ (
              looked (owning seat.old.me.0 cell (Mine ticket) false) cell (4 * ticket),
              seat.old.me.1,
            ))
            (seat.new.me ≡ (looked seat.old.me.0 cell (4 * ticket + 1), seat.old.me.1)) }
    {
        self.table.shared.load::<OwnerLook>(seat, cell) % 4 == 0
    }

    /// Leaves a pending cell to the handler, and says whether it did. If not, the handler was done with it.
    pub(crate) fn abandon(&self, seat: &mut RowSeat, cell: usize, ticket: u64) -> bool
        requires seat { IsOwnerOf self.now.table.shared.table_id seat.old }
        requires cell { (cell < 64) × ((owner_cell seat.old.me.0 cell).stage ≡ Pending ticket) }
        requires ticket { ticket < 2 ^ 62 }
        ensures seat { IsSameSeat seat.old seat.new }
        ensures left { MatchBool result
            (seat.new.me ≡ (owning seat.old.me.0 cell (Left ticket) false, seat.old.me.1))
            (seat.new.me ≡ (owning seat.old.me.0 cell (Mine ticket) false, seat.old.me.1)) }
    {
        let pending = ticket * 4 + 1;
        let found = self
            .table
            .shared
            .compare_exchange::<Abandon>(seat, cell, pending, pending + 1);
        found == pending
    }

    /// Takes the completion out of a cell that the owner has.
    pub(crate) fn owner_take(&self, seat: &mut RowSeat, cell: usize, ticket: u64) -> Completion
        requires seat { IsOwnerOf self.now.table.shared.table_id seat.old }
        requires cell { OwnerHas seat.old.me.0 cell (Mine ticket) }
        requires ticket { ticket < 2 ^ 62 }
        ensures seat { IsSameSeat seat.old seat.new }
        ensures taken { seat.new.me
            ≡ (owning (with_own seat.old.me.0 (Some result)) cell Free false, seat.old.me.1) }
    {
        self.owner_out(seat, cell);
        let Some(transfer) = self.table.shared.exchange(seat, cell, None) else {
            unreachable!()
        };
        let Transfer {
            ticket: _,
            completion,
        } = transfer;
        let Some(done) = completion else {
            unreachable!()
        };
        self.table.shared.swap::<OwnerTake>(seat, cell, ticket * 4);
        done
    }
}
