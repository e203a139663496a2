//! The handler's steps on a row.
ghost use Rattle.std.specs.Prelude.{◌≡◌, ◌≢◌, Option, ◌*◌, ◌/◌, ◌%◌, ◌^◌, ◌<◌, true, false, ◌∷◌, Some, MatchBool};
ghost use Rattle.usb_live.specs.Cells.{HandlerTakes};
ghost use Rattle.usb_live.specs.Rows.{handler_cell};
ghost use Rattle.usb_live.specs.Steps.{handling, looked, HandlerFinds, MayFind};
ghost use Rattle.usb_live.specs.Seats.{IsHandlerOf, HandlerHas, IsSameSeat};
ghost use Rattle.usb_live.specs.declared.view.Handled.TheVariants.{Idle, Working, Reclaim, Reclaimed};
ghost use Rattle.usb_live.specs.declared.view.Transfer.{Transfer};

use crate::plays::{Finish, HandlerLook, HandlerOut, HandlerTake};
use crate::row::{Row, RowSeat};
use crate::view::Transfer;
use usb_xfer::Completion;

impl Row {
    /// The handler takes the slot of the cell out.
    fn handler_out(&self, seat: &mut RowSeat, cell: usize)
        requires seat { IsHandlerOf self.now.table.shared.table_id seat.old }
        requires cell { (cell < 64) × ((handler_cell seat.old.me.0 cell).out ≡ false)
            × HandlerTakes (handler_cell seat.old.me.0 cell).stage }
        ensures seat { IsSameSeat seat.old seat.new }
        ensures out { (x : Option Transfer)
            × (seat.new.me
            ≡ (
              handling seat.old.me.0 cell (handler_cell seat.old.me.0 cell).stage true
                  (handler_cell seat.old.me.0 cell).last,
              (cell, x) ∷ seat.old.me.1,
            ))
            × HandlerFinds (handler_cell seat.old.me.0 cell).stage
            (handler_cell seat.old.me.0 cell).last x }
    {
        self.table.shared.load::<HandlerOut>(seat, cell);
    }

    /// Looks at a cell. The handler works on it where the word is pending or abandoned.
    pub(crate) fn handler_look(&self, seat: &mut RowSeat, cell: usize) -> u64
        requires seat { IsHandlerOf self.now.table.shared.table_id seat.old }
        requires cell { cell < 64 }
        ensures seat { IsSameSeat seat.old seat.new }
        ensures word { result % 4 < 3 }
        ensures found { MayFind (handler_cell seat.old.me.0 cell).stage result }
        ensures idle { result % 4 ≡ 0
            → seat.new.me ≡ (looked seat.old.me.0 cell result, seat.old.me.1) }
        ensures busy { result % 4 ≢ 0
            → seat.new.me ≡ (
              looked (handling seat.old.me.0 cell (Working (result / 4))
                  (handler_cell seat.old.me.0 cell).out (handler_cell seat.old.me.0 cell).last)
                  cell result,
              seat.old.me.1,
            ) }
    {
        self.table.shared.load::<HandlerLook>(seat, cell)
    }

    /// Puts the completion in, and says whether the owner still waits for it. If not, the handler has to take the transfer out again.
    pub(crate) fn finish(
        &self,
        seat: &mut RowSeat,
        cell: usize,
        ticket: u64,
        done: Completion,
    ) -> bool
        requires seat { IsHandlerOf self.now.table.shared.table_id seat.old }
        requires cell { HandlerHas seat.old.me.0 cell (Working ticket) }
        requires ticket { ticket < 2 ^ 62 }
        ensures seat { IsSameSeat seat.old seat.new }
        ensures finished { MatchBool result
            (seat.new.me ≡ (handling seat.old.me.0 cell Idle false (Some done), seat.old.me.1))
            (seat.new.me
            ≡ (handling seat.old.me.0 cell (Reclaim ticket) false (Some done), seat.old.me.1)) }
    {
        self.handler_out(seat, cell);
        let Some(mut transfer) = self.table.shared.exchange(seat, cell, None) else {
            unreachable!()
        };
        transfer.completion = Some(done);
        drop(self.table.shared.exchange(seat, cell, Some(transfer)));
        self.table.shared.swap::<Finish>(seat, cell, ticket * 4) % 4 == 1
    }

    /// Takes a transfer out that the owner left.
    pub(crate) fn reclaim(&self, seat: &mut RowSeat, cell: usize, ticket: u64) -> Transfer
        requires seat { IsHandlerOf self.now.table.shared.table_id seat.old }
        requires cell { HandlerHas seat.old.me.0 cell (Reclaim ticket) }
        requires ticket { ticket < 2 ^ 62 }
        ensures seat { IsSameSeat seat.old seat.new }
        ensures transfer { (result.ticket ≡ ticket)
            × (result.completion ≡ (handler_cell seat.old.me.0 cell).last) }
        ensures reclaimed { seat.new.me ≡ (
          handling seat.old.me.0 cell (Reclaimed ticket) false
              (handler_cell seat.old.me.0 cell).last,
          seat.old.me.1,
        ) }
    {
        self.handler_out(seat, cell);
        let Some(transfer) = self.table.shared.exchange(seat, cell, None) else {
            unreachable!()
        };
        self.table
            .shared
            .swap::<HandlerTake>(seat, cell, ticket * 4);
        transfer
    }
}
