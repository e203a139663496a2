//! The deadlines of tickets, in their order, and the turn of the timer.

ghost use Rattle.std.specs.Prelude.{◌≡◌, ℕ, ◌+◌, ◌*◌, ◌≤◌, ◌∷◌, [], List, length, filter, reverse, is_some, sum_by, vec_len, vec_capacity, IfSome, IfNone, OnOk, OnErr, if◌then◌else◌};
ghost use Rattle.usb_kernel.specs.declared.event.Event.{Event};
ghost use Rattle.usb_kernel.specs.declared.submission.Submission.{Submission};
ghost use Rattle.usb_kernel.specs.Tickets.{tickets};
ghost use Rattle.usb_kernel.specs.Submissions.{submit_event};
ghost use Rattle.usb_kernel.specs.Legal.{IsLawful};
ghost use Rattle.usb_kernel.specs.Steps.{is_unfinished, after_discard};
ghost use Rattle.usb_kernel.specs.Rows.{Agrees, owed};
ghost use Rattle.usb_kernel.specs.Timers.{deadline_after, deadline_of, without_deadline, is_up, timer_turned};
ghost use Rattle.usb_kernel.specs.Overdue.{overdue_count};
ghost use Rattle.usb_kernel.specs.Deadlines.{KeepsDeadlines};

use crate::event::Event;
use crate::journal::put;
use crate::looks::Steps;
use crate::table::TicketTable;
use std::collections::BTreeSet;
use std::sync::ledger::Ledger;
use usb_desc::NoMemory;

/// When a time of `timeout` nanoseconds is up that begins at `clock`. A day of it counts at most,
/// and the deadline ends at the greatest number.
pub fn deadline_after(clock: u64, timeout: u64) -> u64
    ensures deadline { result ≡ deadline_after clock timeout }
{
    let day = 86_400_000_000_000;
    clock.saturating_add(timeout.min(day))
}

/// Adds the deadline of a ticket that is submitted, if it has one.
pub(crate) fn add_deadline(
    deadlines: &mut BTreeSet<(u64, u64)>,
    deadline: Option<u64>,
    ticket: u64,
) -> Result<(), NoMemory>
    ensures kept { OnOk result
        ((past : List Event) (s : Submission) → s.deadline ≡ deadline
        → ticket ≡ length (tickets past) → KeepsDeadlines past deadlines.old.keys
        → KeepsDeadlines (submit_event (length (tickets past)) s ∷ past) deadlines.new.keys) }
    ensures err { OnErr result (deadlines.new.keys ≡ deadlines.old.keys) }
{
    let Some(deadline) = deadline else {
        return Ok(());
    };
    match deadlines.insert((deadline, ticket)) {
        Ok(_) => Ok(()),
        Err(_) => Err(NoMemory),
    }
}

/// Takes the deadline of a ticket out, if it has one.
pub(crate) fn forget_deadline(
    deadlines: &mut BTreeSet<(u64, u64)>,
    deadline: Option<u64>,
    ticket: u64,
)
    ensures keys { deadlines.new.keys ≡ without_deadline deadlines.old.keys deadline ticket }
{
    if let Some(deadline) = deadline {
        deadlines.remove(&(deadline, ticket));
    }
}

/// Takes the first deadline out, where it is at most the clock. It answers the ticket.
fn take_due(deadlines: &mut BTreeSet<(u64, u64)>, clock: u64) -> Option<u64>
    ensures due { IfSome result
        (λ t. (n : ℕ) × (deadlines.old.keys ≡ (n, t) ∷ deadlines.new.keys) × (n ≤ clock)) }
    ensures none { IfNone result (filter (is_up clock) deadlines.old.keys ≡ []) }
    ensures left { IfNone result (deadlines.new.keys ≡ deadlines.old.keys) }
{
    let first = deadlines.first()?;
    if first.0 > clock {
        return None;
    }
    let (_, ticket) = deadlines.pop_first()?;
    Some(ticket)
}

/// Discards a ticket, where it is not finished, and leaves the deadlines alone. Where it does so it
/// answers the ticket's deadline, if it has one.
fn drop_ticket<L: Ledger>(
    journal: &mut Vec<Event>,
    table: &mut TicketTable,
    ticket: u64,
    steps: &mut Steps<L>,
) -> Option<Option<u64>>
    requires agrees { Agrees (reverse journal.old.items) table.old.rows }
    requires room { vec_len journal.old + sum_by owed table.old.rows ≤ vec_capacity journal.old }
    ensures journal { reverse journal.new.items ≡ after_discard (reverse journal.old.items) ticket }
    ensures acts { is_some result ≡ is_unfinished (reverse journal.old.items) ticket }
    ensures deadline { IfSome result
        (λ deadline. deadline ≡ deadline_of (reverse journal.old.items) ticket) }
    ensures lawful { IsLawful (reverse journal.old.items) → IsLawful (reverse journal.new.items) }
    ensures agrees { Agrees (reverse journal.new.items) table.new.rows }
    ensures places { sum_by owed table.new.rows + (if is_some result then 1 else 0)
        ≡ sum_by owed table.old.rows }
    ensures len { vec_len journal.new ≡ vec_len journal.old + (if is_some result then 1 else 0) }
    ensures capacity { vec_capacity journal.old ≤ vec_capacity journal.new }
    ensures looks { steps.new ≤ steps.old + 3 }
{
    let Some(deadline) = table.drop_open(ticket, steps) else {
        return None;
    };
    put(journal, Event::Discard { ticket });
    Some(deadline)
}

/// Discards a ticket, where it is not finished, and takes its deadline out. It answers how many
/// places that freed.
pub(crate) fn discard_ticket<L: Ledger>(
    journal: &mut Vec<Event>,
    table: &mut TicketTable,
    deadlines: &mut BTreeSet<(u64, u64)>,
    ticket: u64,
    steps: &mut Steps<L>,
) -> usize
    requires agrees { Agrees (reverse journal.old.items) table.old.rows }
    requires kept { KeepsDeadlines (reverse journal.old.items) deadlines.old.keys }
    requires room { vec_len journal.old + sum_by owed table.old.rows ≤ vec_capacity journal.old }
    ensures journal { reverse journal.new.items ≡ after_discard (reverse journal.old.items) ticket }
    ensures lawful { IsLawful (reverse journal.old.items) → IsLawful (reverse journal.new.items) }
    ensures agrees { Agrees (reverse journal.new.items) table.new.rows }
    ensures kept { KeepsDeadlines (reverse journal.new.items) deadlines.new.keys }
    ensures places { sum_by owed table.new.rows + result ≡ sum_by owed table.old.rows }
    ensures len { vec_len journal.new ≡ vec_len journal.old + result }
    ensures capacity { vec_capacity journal.old ≤ vec_capacity journal.new }
    ensures looks { steps.new ≤ steps.old + 3 }
{
    let Some(deadline) = drop_ticket(journal, table, ticket, steps) else {
        return 0;
    };
    forget_deadline(deadlines, deadline, ticket);
    1
}

/// The turn of the timer: it discards the tickets that are not finished and whose deadline is at
/// most the clock. It answers how many places that freed.
pub(crate) fn discard_due<L: Ledger>(
    journal: &mut Vec<Event>,
    table: &mut TicketTable,
    deadlines: &mut BTreeSet<(u64, u64)>,
    clock: u64,
    steps: &mut Steps<L>,
) -> usize
    requires agrees { Agrees (reverse journal.old.items) table.old.rows }
    requires kept { KeepsDeadlines (reverse journal.old.items) deadlines.old.keys }
    requires room { vec_len journal.old + sum_by owed table.old.rows ≤ vec_capacity journal.old }
    ensures journal { reverse journal.new.items ≡ timer_turned clock (reverse journal.old.items) }
    ensures lawful { IsLawful (reverse journal.old.items) → IsLawful (reverse journal.new.items) }
    ensures agrees { Agrees (reverse journal.new.items) table.new.rows }
    ensures kept { KeepsDeadlines (reverse journal.new.items) deadlines.new.keys }
    ensures places { sum_by owed table.new.rows + result ≡ sum_by owed table.old.rows }
    ensures len { vec_len journal.new ≡ vec_len journal.old + result }
    ensures capacity { vec_capacity journal.old ≤ vec_capacity journal.new }
    ensures looks { steps.new
        ≤ steps.old + 3 * overdue_count clock (reverse journal.old.items) }
{
    let mut freed = 0;
    'due: while let Some(ticket) = take_due(deadlines, clock) {
        freed += usize::from(drop_ticket(journal, table, ticket, steps).is_some());
    }
    freed
}
