//! A packet that goes from one row of the table to another.

ghost use Rattle.std.specs.Prelude.{◌≡◌, ◌+◌, ◌≤◌};
ghost use Rattle.std.specs.List.{sum_by};
ghost use Rattle.usb_kernel.specs.Rows.{owed};
ghost use Rattle.usb_kernel.specs.Listed.{AreListed, rows_of};
ghost use Rattle.usb_kernel.specs.Passing.{StandsFirst, IsOpenOut, IsOpenIn, passed};

use crate::lists::TicketLists;
use crate::looks::Steps;
use crate::tickets::Tickets;
use std::sync::ledger::Ledger;

/// Acknowledges the next packet of the oldest OUT ticket of an endpoint, and gives it to the oldest
/// IN ticket of another. The bytes are copied once, from the one buffer to the other. It answers
/// how many places in the journal that freed.
pub(crate) fn pass_packet<L: Ledger>(
    tickets: &mut Tickets,
    lists: &mut TicketLists,
    from: usize,
    to: usize,
    steps: &mut Steps<L>,
) -> usize
    requires listed { AreListed tickets.old.records.items lists.old }
    requires sends { StandsFirst (rows_of tickets.old.records.items) from IsOpenOut }
    requires takes { StandsFirst (rows_of tickets.old.records.items) to IsOpenIn }
    ensures rows { rows_of tickets.new.records.items
        ≡ passed (rows_of tickets.old.records.items) from to }
    ensures listed { AreListed tickets.new.records.items lists.new }
    ensures places { sum_by owed (rows_of tickets.new.records.items) + result
        ≡ sum_by owed (rows_of tickets.old.records.items) }
    ensures looks { steps.new ≤ steps.old + 3 }
{
    let sender = tickets.at_mut(from, steps);
    let start = sender.row.count;
    sender.row.take_ack();
    let freed = lists.follow(from, sender);
    let end = sender.row.count;
    let Some(sent) = sender.row.buffer.take() else {
        return freed;
    };
    let taker = tickets.at_mut(to, steps);
    taker.row.take_packet(&sent.as_slice()[start..end]);
    let more = lists.follow(to, taker);
    let sender = tickets.at_mut(from, steps);
    sender.row.buffer = Some(sent);
    freed + more
}
