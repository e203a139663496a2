//! The table of tickets, one row for each, and how many records each of its functions reaches. Each
//! change of it is one event of the journal that the table agrees with.

ghost use Rattle.std.specs.Prelude.{◌≡◌, ◌+◌, ◌*◌, ◌<◌, ◌≤◌, ◌∷◌, [], length, List, position, vec_capacity, is_some, true, unwrap_or, set, slice_get, Some, IfSome, OnOk, if◌then◌else◌};
ghost use Rattle.std.specs.List.{All, sum_by, count_by};
ghost use Rattle.std.specs.Option.{option_map};
ghost use Rattle.usb_kernel.specs.declared.event.Event.{Event};
ghost use Rattle.usb_kernel.specs.Tickets.{tickets};
ghost use Rattle.usb_kernel.specs.Submissions.{submit_event, refuse_event, IsWhole};
ghost use Rattle.usb_kernel.specs.Completions.{reapable, refused_done};
ghost use Rattle.usb_kernel.specs.Steps.{after_packet, after_ack, after_echo, after_fail, after_reap, after_discard};
ghost use Rattle.usb_kernel.specs.Timers.{deadline_of};
ghost use Rattle.usb_kernel.specs.Info.{info_of, unreaped};
ghost use Rattle.usb_kernel.specs.declared.record.Record.{Record};
ghost use Rattle.usb_kernel.specs.Rows.{IsRoomy, is_reapable_row, is_unreaped_row, row_unplugged, owed, Agrees};
ghost use Rattle.usb_kernel.specs.TableState.{has_entry};
ghost use Rattle.usb_kernel.specs.Listed.{AreListed, rows_of};

use crate::echo::pass_packet;
use crate::errno;
use crate::lists::TicketLists;
use crate::looks::Steps;
use crate::slot::TicketRow;
use crate::submission::{Done, Submission, TicketInfo};
use crate::tickets::Tickets;
use std::alloc::Global;
use std::marker::Model;
use std::sync::ledger::Ledger;
use usb_desc::NoMemory;

/// The records of the tickets, and the lists of those that are not reaped.
#[derive(Drop)]
pub(crate) struct TicketTable {
    pub(crate) tickets: Tickets,
    pub(crate) lists: TicketLists,
}

impl Model for TicketTable {
    ghost use Rattle.usb_kernel.specs.TableState.{TableState};

    ghost Value = { TableState };

    ghost use Rattle.usb_kernel.specs.TableFacts.{table_state, IsTable};

    ghost view = { table_state };

    ghost invariant = { IsTable };
}

/// What became of a ticket when a device went: the ticket behind it among those that are not
/// reaped, and how many places that freed.
#[derive(Clone, Copy)]
pub(crate) struct Passed {
    pub(crate) next: Option<usize>,
    pub(crate) freed: usize,
}

/// A device is gone: where this ticket is an open one of its own, it is finished.
fn unplug_ticket<L: Ledger>(
    tickets: &mut Tickets,
    lists: &mut TicketLists,
    at: usize,
    device: u8,
    steps: &mut Steps<L>,
) -> Passed
    requires inside { at < length tickets.old.records.items }
    requires roomy { All IsRoomy (rows_of tickets.old.records.items) }
    requires listed { AreListed tickets.old.records.items lists.old }
    ensures next { (r : Record) → slice_get tickets.old.records.items at ≡ Some r
        → result.next ≡ r.unreaped.after }
    ensures rows { (r : Record) → slice_get tickets.old.records.items at ≡ Some r
        → rows_of tickets.new.records.items
        ≡ set (rows_of tickets.old.records.items) at (row_unplugged device r.row) }
    ensures places { sum_by owed (rows_of tickets.new.records.items) + result.freed
        ≡ sum_by owed (rows_of tickets.old.records.items) }
    ensures few { result.freed ≤ 1 }
    ensures roomy { All IsRoomy (rows_of tickets.new.records.items) }
    ensures listed { AreListed tickets.new.records.items lists.new }
    ensures capacity { vec_capacity tickets.new.records ≡ vec_capacity tickets.old.records }
    ensures looks { steps.new ≤ steps.old + 3 }
{
    let reached = tickets.at_mut(at, steps);
    let next = reached.unreaped.after.ticket();
    if reached.row.device != device || reached.row.status.is_some() {
        return Passed { next, freed: 0 };
    }
    reached.row.fail(errno::SHUTDOWN);
    let endpoint = reached.row.endpoint;
    let link = reached.queue;
    lists.finish(tickets, at, device, endpoint, link, steps);
    Passed { next, freed: 1 }
}

impl TicketTable {
    /// A table without tickets.
    pub(crate) fn new(alloc: Global) -> TicketTable
        ensures rows { result.rows ≡ [] }
    {
        TicketTable {
            tickets: Tickets::new(alloc),
            lists: TicketLists::new(alloc),
        }
    }

    /// How many tickets there are.
    pub(crate) fn len(&self) -> usize
        ensures len { result ≡ length self.now.rows }
    {
        self.tickets.len()
    }

    /// How many of them are not reaped.
    pub(crate) fn unreaped(&self) -> usize
        ensures unreaped { (past : List Event) → Agrees past self.now.rows
            → result ≡ unreaped past }
    {
        self.lists.count
    }

    /// The number of the first ticket that is finished and not reaped.
    pub(crate) fn lowest_finished(&self) -> Option<u64>
        ensures number { result ≡ position is_reapable_row self.now.rows }
    {
        let lowest = self.lists.lowest()?;
        Some(lowest as u64)
    }

    /// Makes room for one more ticket, of an endpoint.
    pub(crate) fn reserve(&mut self, device: u8, endpoint: u8) -> Result<(), NoMemory>
        ensures rows { self.new.rows ≡ self.old.rows }
        ensures room { OnOk result (1 ≤ self.new.room) }
        ensures opened { OnOk result (has_entry self.new device endpoint ≡ true) }
    {
        if self.tickets.reserve().is_err() {
            return Err(NoMemory);
        }
        self.lists.reserve(device, endpoint)
    }

    /// A submission becomes the next ticket. It answers the number.
    pub(crate) fn add<L: Ledger>(&mut self, s: Submission, steps: &mut Steps<L>) -> u64
        requires room { 1 ≤ self.old.room }
        requires opened { has_entry self.old s.device s.endpoint ≡ true }
        requires whole { IsWhole s }
        ensures long { result ≡ length self.old.rows }
        ensures number { (past : List Event) → Agrees past self.old.rows
            → result ≡ length (tickets past) }
        ensures agrees { (past : List Event) → Agrees past self.old.rows
            → Agrees (submit_event (length (tickets past)) s ∷ past) self.new.rows }
        ensures places { sum_by owed self.new.rows ≡ sum_by owed self.old.rows + 2 }
    {
        let ticket = self.tickets.len() as u64;
        self.lists
            .add(&mut self.tickets, TicketRow::queued(s), steps);
        ticket
    }

    /// A refused submission becomes the next ticket.
    pub(crate) fn add_refused(&mut self, s: Submission, errno: u16) -> Done
        requires room { 1 ≤ self.old.room }
        ensures long { result.ticket ≡ length self.old.rows }
        ensures number { (past : List Event) → Agrees past self.old.rows
            → result ≡ refused_done (length (tickets past)) s errno }
        ensures agrees { (past : List Event) → Agrees past self.old.rows
            → Agrees (refuse_event (length (tickets past)) s errno ∷ past) self.new.rows }
        ensures places { sum_by owed self.new.rows ≡ sum_by owed self.old.rows }
    {
        let (row, done) = TicketRow::refused(self.tickets.len() as u64, s, errno);
        self.lists.add_refused(&mut self.tickets, row);
        done
    }

    /// Gives a packet to the oldest IN ticket of an endpoint. It answers how many places that
    /// freed.
    pub(crate) fn give_packet<L: Ledger>(
        &mut self,
        device: u8,
        endpoint: u8,
        bytes: &[u8],
        steps: &mut Steps<L>,
    ) -> Option<usize>
        requires roomy { All IsRoomy self.old.rows }
        ensures agrees { (past : List Event) → Agrees past self.old.rows
            → Agrees (after_packet past device endpoint bytes.now) self.new.rows }
        ensures acts { (past : List Event) → Agrees past self.old.rows
            → after_packet past device endpoint bytes.now
            ≡ (if is_some result then Event.Packet device endpoint bytes.now ∷ past else past) }
        ensures places { sum_by owed self.new.rows + unwrap_or result 0
            ≡ sum_by owed self.old.rows }
        ensures looks { steps.new ≤ steps.old + 1 }
    {
        if endpoint < 128 {
            return None;
        }
        let at = self.lists.oldest(device, endpoint)?;
        let reached = self.tickets.at_mut(at, steps);
        reached.row.take_packet(bytes);
        Some(self.lists.follow(at, reached))
    }

    /// Acknowledges a packet of the oldest OUT ticket of an endpoint. It answers how many places
    /// that freed.
    pub(crate) fn give_ack<L: Ledger>(
        &mut self,
        device: u8,
        endpoint: u8,
        steps: &mut Steps<L>,
    ) -> Option<usize>
        requires roomy { All IsRoomy self.old.rows }
        ensures agrees { (past : List Event) → Agrees past self.old.rows
            → Agrees (after_ack past device endpoint) self.new.rows }
        ensures acts { (past : List Event) → Agrees past self.old.rows
            → after_ack past device endpoint
            ≡ (if is_some result then Event.Ack device endpoint ∷ past else past) }
        ensures places { sum_by owed self.new.rows + unwrap_or result 0
            ≡ sum_by owed self.old.rows }
        ensures looks { steps.new ≤ steps.old + 1 }
    {
        if endpoint >= 128 {
            return None;
        }
        let at = self.lists.oldest(device, endpoint)?;
        let reached = self.tickets.at_mut(at, steps);
        reached.row.take_ack();
        Some(self.lists.follow(at, reached))
    }

    /// Acknowledges the next packet of the oldest OUT ticket of an endpoint, and gives it to the
    /// oldest IN ticket of another, where there are both. It answers how many places that freed.
    pub(crate) fn give_echo<L: Ledger>(
        &mut self,
        device: u8,
        output: u8,
        input: u8,
        steps: &mut Steps<L>,
    ) -> Option<usize>
        requires roomy { All IsRoomy self.old.rows }
        ensures agrees { (past : List Event) → Agrees past self.old.rows
            → Agrees (after_echo past device output input) self.new.rows }
        ensures acts { (past : List Event) → Agrees past self.old.rows
            → after_echo past device output input
            ≡ (if is_some result then Event.Echo device output input ∷ past else past) }
        ensures places { sum_by owed self.new.rows + unwrap_or result 0
            ≡ sum_by owed self.old.rows }
        ensures looks { steps.new ≤ steps.old + 3 }
    {
        if output >= 128 || input < 128 {
            return None;
        }
        let from = self.lists.oldest(device, output)?;
        let to = self.lists.oldest(device, input)?;
        Some(pass_packet(&mut self.tickets, &mut self.lists, from, to, steps))
    }

    /// Finishes the oldest ticket of an endpoint with an errno. It answers whether there was one.
    pub(crate) fn fail_oldest<L: Ledger>(
        &mut self,
        device: u8,
        endpoint: u8,
        errno: u16,
        steps: &mut Steps<L>,
    ) -> bool
        requires roomy { All IsRoomy self.old.rows }
        ensures agrees { (past : List Event) → Agrees past self.old.rows
            → Agrees (after_fail past device endpoint errno) self.new.rows }
        ensures acts { (past : List Event) → Agrees past self.old.rows
            → after_fail past device endpoint errno
            ≡ (if result then Event.Fail device endpoint errno ∷ past else past) }
        ensures places { sum_by owed self.new.rows + (if result then 1 else 0)
            ≡ sum_by owed self.old.rows }
        ensures looks { steps.new ≤ steps.old + 1 }
    {
        let Some(at) = self.lists.oldest(device, endpoint) else {
            return false;
        };
        let reached = self.tickets.at_mut(at, steps);
        reached.row.fail(errno);
        self.lists.follow(at, reached);
        true
    }

    /// Finishes the tickets of a device that is gone, of those that are not reaped. It answers how
    /// many places that freed.
    pub(crate) fn unplug_tickets<L: Ledger>(&mut self, device: u8, steps: &mut Steps<L>) -> usize
        requires roomy { All IsRoomy self.old.rows }
        ensures agrees { (past : List Event) → Agrees past self.old.rows
            → Agrees (Event.Unplug device ∷ past) self.new.rows }
        ensures places { sum_by owed self.new.rows + result ≡ sum_by owed self.old.rows }
        ensures looks { steps.new ≤ steps.old + 3 * count_by is_unreaped_row self.old.rows }
    {
        let mut freed = 0;
        let mut next = self.lists.unreaped.first.ticket();
        'walk: while let Some(at) = next {
            let passed = unplug_ticket(&mut self.tickets, &mut self.lists, at, device, steps);
            freed += passed.freed;
            next = passed.next;
        }
        freed
    }

    /// Takes the completion of a ticket that is finished and not reaped. It answers the ticket's
    /// deadline too, if it has one.
    pub(crate) fn take_finished<L: Ledger>(
        &mut self,
        ticket: u64,
        steps: &mut Steps<L>,
    ) -> Option<(Done, Option<u64>)>
        ensures agrees { (past : List Event) → Agrees past self.old.rows
            → Agrees (after_reap past ticket) self.new.rows }
        ensures done { (past : List Event) → Agrees past self.old.rows
            → reapable past ticket ≡ option_map (λ taken. taken.0) result }
        ensures deadline { (past : List Event) → Agrees past self.old.rows
            → IfSome result (λ taken. taken.1 ≡ deadline_of past ticket) }
        ensures places { sum_by owed self.new.rows + (if is_some result then 1 else 0)
            ≡ sum_by owed self.old.rows }
        ensures looks { steps.new ≤ steps.old + 3 }
    {
        if ticket >= self.tickets.len() as u64 {
            return None;
        }
        let at = ticket as usize;
        let reached = self.tickets.at_mut(at, steps);
        if !reached.row.is_reapable() {
            return None;
        }
        let deadline = reached.row.deadline;
        let done = reached.row.take_done(ticket);
        let link = reached.unreaped;
        self.lists.forget(&mut self.tickets, at, link, steps);
        Some((done, deadline))
    }

    /// Finishes a ticket that is not finished, with errno 2. Where there was one it answers the
    /// ticket's deadline, if it has one.
    pub(crate) fn drop_open<L: Ledger>(
        &mut self,
        ticket: u64,
        steps: &mut Steps<L>,
    ) -> Option<Option<u64>>
        requires roomy { All IsRoomy self.old.rows }
        ensures agrees { (past : List Event) → Agrees past self.old.rows
            → Agrees (after_discard past ticket) self.new.rows }
        ensures acts { (past : List Event) → Agrees past self.old.rows
            → after_discard past ticket
            ≡ (if is_some result then Event.Discard ticket ∷ past else past) }
        ensures deadline { (past : List Event) → Agrees past self.old.rows
            → IfSome result (λ deadline. deadline ≡ deadline_of past ticket) }
        ensures places { sum_by owed self.new.rows + (if is_some result then 1 else 0)
            ≡ sum_by owed self.old.rows }
        ensures looks { steps.new ≤ steps.old + 3 }
    {
        if ticket >= self.tickets.len() as u64 {
            return None;
        }
        let at = ticket as usize;
        let reached = self.tickets.at_mut(at, steps);
        if reached.row.status.is_some() {
            return None;
        }
        let deadline = reached.row.deadline;
        reached.row.fail(errno::NOENT);
        let device = reached.row.device;
        let endpoint = reached.row.endpoint;
        let link = reached.queue;
        self.lists
            .finish(&mut self.tickets, at, device, endpoint, link, steps);
        Some(deadline)
    }

    /// What is known of a ticket.
    pub(crate) fn info_at<L: Ledger>(&self, ticket: u64, steps: &mut Steps<L>) -> TicketInfo
        requires below { ticket < length self.now.rows }
        ensures info { (past : List Event) → Agrees past self.now.rows
            → info_of past ticket ≡ Some result }
    {
        let reached = self.tickets.at(ticket as usize, steps);
        reached.row.info()
    }
}
