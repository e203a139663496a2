//! The lists of the tickets that are not reaped: of those of each endpoint that are not finished,
//! and of all. They are linked through the records, so that no search goes over them.

ghost use Rattle.std.specs.Prelude.{◌≡◌, ◌+◌, ◌<◌, ◌≤◌, ◌++◌, ◌∷◌, [], List, set, length, position, vec_len, vec_capacity, true, Some, None, IsSome, is_some, OnOk, if◌then◌else◌};
ghost use Rattle.usb_kernel.specs.declared.record.Record.{Record};
ghost use Rattle.usb_kernel.specs.Rows.{is_open_row, is_reapable_row};
ghost use Rattle.usb_kernel.specs.declared.slot.TicketRow.{TicketRow};
ghost use Rattle.usb_kernel.specs.Unreaped.{finished_numbers, Finishes, Reaps};
ghost use Rattle.usb_kernel.specs.Queues.{has_queue};
ghost use Rattle.usb_kernel.specs.Listed.{AreListed, GoesOn, IsFollowing, IsFinishing, IsReaping, rows_of};

use crate::looks::Steps;
use crate::queues::Queues;
use crate::record::{Chain, Ends, Link, Record};
use crate::slot::TicketRow;
use crate::tickets::Tickets;
use std::alloc::Global;
use std::sync::ledger::Ledger;
use usb_desc::NoMemory;

/// The ends of the lists of unfinished tickets by endpoint, the ends of the list of all tickets
/// that are not reaped, how many those are, and the numbers of those that are finished, ascending.
#[derive(Drop)]
pub(crate) struct TicketLists {
    pub(crate) queues: Queues,
    pub(crate) unreaped: Ends,
    pub(crate) count: usize,
    pub(crate) finished: Vec<usize>,
}

/// The number of a ticket that is finished now comes to the others.
fn add_finished(finished: &mut Vec<usize>, ticket: usize)
    requires room { vec_len finished.old < vec_capacity finished.old }
    ensures numbers { (rows : List TicketRow) (next : TicketRow)
        → finished.old.items ≡ finished_numbers rows → Finishes rows ticket next
        → finished.new.items ≡ finished_numbers (set rows ticket next) }
    ensures capacity { vec_capacity finished.old ≤ vec_capacity finished.new }
{
    if let Err(at) = finished.binary_search(&ticket) {
        let _ = finished.insert(at, ticket);
    }
}

/// The number of a ticket that is reaped now goes.
fn drop_finished(finished: &mut Vec<usize>, ticket: usize)
    ensures numbers { (rows : List TicketRow) (next : TicketRow)
        → finished.old.items ≡ finished_numbers rows → Reaps rows ticket next
        → finished.new.items ≡ finished_numbers (set rows ticket next) }
    ensures capacity { vec_capacity finished.old ≤ vec_capacity finished.new }
{
    if let Ok(at) = finished.binary_search(&ticket) {
        finished.remove(at);
    }
}

impl TicketLists {
    /// The lists of no tickets.
    pub(crate) fn new(alloc: Global) -> TicketLists
        ensures listed { AreListed [] result }
    {
        TicketLists {
            queues: Queues::new(alloc),
            unreaped: Ends::none(),
            count: 0,
            finished: Vec::new(alloc),
        }
    }

    /// The number of the first open ticket of an endpoint.
    pub(crate) fn oldest(&self, device: u8, endpoint: u8) -> Option<usize>
        ensures oldest { (records : List Record) → AreListed records self.now
            → result ≡ position (is_open_row device endpoint) (rows_of records) }
    {
        self.queues.ends(device, endpoint).first.ticket()
    }

    /// The record of the first open ticket of its endpoint was written: where that finished it, the
    /// list goes on behind it. It answers how many places in the journal that freed.
    pub(crate) fn follow(&mut self, ticket: usize, written: &Record) -> usize
        requires following { IsFollowing self.old ticket written.now }
        ensures listed { (records : List Record) → AreListed records self.old
            → GoesOn records ticket written.now
            → position (is_open_row written.now.row.device written.now.row.endpoint)
            (rows_of records) ≡ Some ticket
            → AreListed (set records ticket written.now) self.new }
        ensures freed { result ≡ (if is_some written.now.row.status then 1 else 0) }
    {
        let row = &written.row;
        if row.status.is_none() {
            return 0;
        }
        self.queues
            .set_first(row.device, row.endpoint, written.queue.after);
        add_finished(&mut self.finished, ticket);
        1
    }

    /// The record of an open ticket of an endpoint was written, which finished it: it goes out of
    /// the list of the endpoint, by at most two look-ups.
    pub(crate) fn finish<L: Ledger>(
        &mut self,
        tickets: &mut Tickets,
        ticket: usize,
        device: u8,
        endpoint: u8,
        link: Link,
        steps: &mut Steps<L>,
    )
        requires finishing { IsFinishing tickets.old.records.items self.old ticket device endpoint
            link }
        ensures listed { AreListed tickets.new.records.items self.new }
        ensures rows { rows_of tickets.new.records.items ≡ rows_of tickets.old.records.items }
        ensures capacity { vec_capacity tickets.new.records ≡ vec_capacity tickets.old.records }
        ensures looks { steps.new ≤ steps.old + 2 }
    {
        let mut ends = self.queues.ends(device, endpoint);
        tickets.unlink(&mut ends, Chain::Queue, ticket, link, steps);
        self.queues.set(device, endpoint, ends);
        add_finished(&mut self.finished, ticket);
    }

    /// The record of a ticket was written, which is reaped now: it goes out of the list of all, by
    /// at most two look-ups.
    pub(crate) fn forget<L: Ledger>(
        &mut self,
        tickets: &mut Tickets,
        ticket: usize,
        link: Link,
        steps: &mut Steps<L>,
    )
        requires reaping { IsReaping tickets.old.records.items self.old ticket link }
        ensures listed { AreListed tickets.new.records.items self.new }
        ensures rows { rows_of tickets.new.records.items ≡ rows_of tickets.old.records.items }
        ensures capacity { vec_capacity tickets.new.records ≡ vec_capacity tickets.old.records }
        ensures looks { steps.new ≤ steps.old + 2 }
    {
        tickets.unlink(&mut self.unreaped, Chain::Unreaped, ticket, link, steps);
        self.count -= 1;
        drop_finished(&mut self.finished, ticket);
    }

    /// The number of the first ticket that is finished and not reaped.
    pub(crate) fn lowest(&self) -> Option<usize>
        ensures lowest { (records : List Record) → AreListed records self.now
            → result ≡ position is_reapable_row (rows_of records) }
    {
        self.finished.first().copied()
    }

    /// Makes an entry for the tickets of an endpoint, and room for the number of one more ticket
    /// once it is finished.
    pub(crate) fn reserve(&mut self, device: u8, endpoint: u8) -> Result<(), NoMemory>
        ensures listed { (records : List Record) → AreListed records self.old
            → AreListed records self.new }
        ensures opened { OnOk result (has_queue self.new.queues device endpoint ≡ true) }
        ensures room { OnOk result (self.new.count + 1 ≤ vec_capacity self.new.finished) }
    {
        if self.queues.open(device, endpoint).is_err() {
            return Err(NoMemory);
        }
        let more = self.count.saturating_sub(self.finished.len());
        let Some(more) = more.checked_add(1) else {
            return Err(NoMemory);
        };
        match self.finished.reserve(more) {
            Ok(()) => Ok(()),
            Err(_) => Err(NoMemory),
        }
    }

    /// Adds an open ticket of an endpoint that has an entry, for which there is room.
    pub(crate) fn add<L: Ledger>(
        &mut self,
        tickets: &mut Tickets,
        row: TicketRow,
        steps: &mut Steps<L>,
    )
        requires listed { AreListed tickets.old.records.items self.old }
        requires room { length tickets.old.records.items < vec_capacity tickets.old.records }
        requires places { self.old.count + 1 ≤ vec_capacity self.old.finished }
        requires opened { has_queue self.old.queues row.device row.endpoint ≡ true }
        requires unfinished { row.status ≡ None }
        requires waiting { IsSome row.buffer }
        ensures listed { AreListed tickets.new.records.items self.new }
        ensures rows { rows_of tickets.new.records.items
            ≡ rows_of tickets.old.records.items ++ row ∷ [] }
        ensures capacity { vec_capacity tickets.new.records ≡ vec_capacity tickets.old.records }
    {
        let ticket = tickets.len();
        let mut ends = self.queues.ends(row.device, row.endpoint);
        let queue = tickets.link_last(&mut ends, Chain::Queue, ticket, steps);
        self.queues.set(row.device, row.endpoint, ends);
        let unreaped = tickets.link_last(&mut self.unreaped, Chain::Unreaped, ticket, steps);
        self.count += 1;
        tickets.push(Record {
            row,
            queue,
            unreaped,
        });
    }

    /// Adds a ticket that is refused, for which there is room. No list changes.
    pub(crate) fn add_refused(&self, tickets: &mut Tickets, row: TicketRow)
        requires listed { AreListed tickets.old.records.items self.now }
        requires room { length tickets.old.records.items < vec_capacity tickets.old.records }
        requires finished { IsSome row.status }
        requires reaped { row.buffer ≡ None }
        ensures listed { AreListed tickets.new.records.items self.now }
        ensures rows { rows_of tickets.new.records.items
            ≡ rows_of tickets.old.records.items ++ row ∷ [] }
        ensures capacity { vec_capacity tickets.new.records ≡ vec_capacity tickets.old.records }
    {
        tickets.push(Record {
            row,
            queue: Link::none(),
            unreaped: Link::none(),
        });
    }
}
