//! What stands at the front of an endpoint, how many tickets are open there, and the room for
//! steps. A front is found by one look-up, and each open ticket is counted by one.

ghost use Rattle.std.specs.Prelude.{◌≡◌, ◌+◌, ◌<◌, ◌≤◌, length, min, position, is_some};
ghost use Rattle.std.specs.List.{count_by};
ghost use Rattle.std.specs.Option.{option_map};
ghost use Rattle.usb_kernel.specs.Journal.{oldest, open_tickets};
ghost use Rattle.usb_kernel.specs.Rows.{is_open_row};
ghost use Rattle.usb_kernel.specs.Fronts.{front_packet, front_maximum, front_row};

use crate::kernel::Kernel;
use crate::looks::Steps;
use crate::slot::TicketRow;
use crate::table::TicketTable;
use std::marker::Brand;
use std::sync::ledger::{Blank, Ledger};

impl TicketTable {
    /// The row of the oldest open ticket of an endpoint, by at most one look-up.
    fn front<L: Ledger>(&self, device: u8, endpoint: u8, steps: &mut Steps<L>) -> Option<&TicketRow>
        ensures row { option_map (λ row. row.now) result ≡ front_row self.now.rows device endpoint }
        ensures looks { steps.new ≤ steps.old + 1 }
    {
        let at = self.lists.oldest(device, endpoint)?;
        let reached = self.tickets.at(at, steps);
        Some(&reached.row)
    }

    /// Whether a ticket of an endpoint is open. It takes no look-up.
    fn has_open(&self, device: u8, endpoint: u8) -> bool
        ensures open_one { result
            ≡ is_some (position (is_open_row device endpoint) self.now.rows) }
    {
        self.lists.oldest(device, endpoint).is_some()
    }

    /// How many tickets of an endpoint are open, by one look-up for each.
    fn open_count<L: Ledger>(&self, device: u8, endpoint: u8, steps: &mut Steps<L>) -> usize
        ensures count { result ≡ count_by (is_open_row device endpoint) self.now.rows }
        ensures looks { steps.new ≡ steps.old + result }
    {
        let mut count = 0;
        let mut next = self.lists.queues.ends(device, endpoint).first.ticket();
        'walk: while let Some(at) = next {
            let reached = self.tickets.at(at, steps);
            next = reached.queue.after.ticket();
            count += 1;
        }
        count
    }
}

/// The row of the oldest open ticket of an endpoint.
fn front_with<L: Ledger>(
    table: &TicketTable,
    device: u8,
    endpoint: u8,
    blank: Blank,
) -> Option<&TicketRow>
    requires name { blank.name ≡ L.name }
    requires parts { blank.parts ≡ L.parts }
    requires some { 0 < blank.parts }
    ensures row { option_map (λ row. row.now) result ≡ front_row table.now.rows device endpoint }
{
    let mut steps = Steps::<L>::new(blank);
    table.front(device, endpoint, &mut steps)
}

/// How many tickets of an endpoint are open.
fn count_with<L: Ledger>(table: &TicketTable, device: u8, endpoint: u8, blank: Blank) -> usize
    requires name { blank.name ≡ L.name }
    requires parts { blank.parts ≡ L.parts }
    requires some { 0 < blank.parts }
    ensures count { result ≡ count_by (is_open_row device endpoint) table.now.rows }
{
    let mut steps = Steps::<L>::new(blank);
    table.open_count(device, endpoint, &mut steps)
}

impl Kernel {
    /// The packet that the next acknowledgement on an OUT endpoint takes. None where no ticket of
    /// the endpoint is open.
    pub fn front_packet(&self, device: u8, endpoint: u8) -> Option<&[u8]>
        ensures packet { option_map (λ bytes. bytes.now) result
            ≡ front_packet self.now.past device endpoint }
    {
        if endpoint >= 128 {
            return None;
        }
        let row = front_with::<Brand>(&self.tickets, device, endpoint, Blank::new(1))?;
        row.next_packet()
    }

    /// The maximum packet size, in bytes, of the oldest open ticket of an endpoint. None where no
    /// ticket of the endpoint is open.
    pub fn front_maximum(&self, device: u8, endpoint: u8) -> Option<usize>
        ensures maximum { result ≡ front_maximum self.now.past device endpoint }
    {
        let row = front_with::<Brand>(&self.tickets, device, endpoint, Blank::new(1))?;
        Some(row.maximum)
    }

    /// Whether a ticket of an endpoint is open.
    pub fn has_open(&self, device: u8, endpoint: u8) -> bool
        ensures open_one { result ≡ is_some (oldest self.now.past device endpoint) }
    {
        self.tickets.has_open(device, endpoint)
    }

    /// How many tickets of an endpoint are open.
    pub fn open_count(&self, device: u8, endpoint: u8) -> usize
        ensures count { result ≡ length (open_tickets self.now.past device endpoint) }
    {
        count_with::<Brand>(&self.tickets, device, endpoint, Blank::new(1))
    }

    /// How many more steps there is room for.
    pub fn room(&self) -> usize
        ensures spare { result ≡ self.now.spare }
    {
        self.spare
    }

    /// Gives up the room for all but n steps.
    pub fn give_up_room(&mut self, n: usize)
        ensures spare { self.new.spare ≡ min self.old.spare n }
        ensures rest { self.new ≡ record self.old { spare = self.new.spare } }
    {
        self.spare = self.spare.min(n);
    }
}
