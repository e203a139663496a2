//! The kernel: devices, tickets and a journal.

ghost use Rattle.std.specs.Prelude.{◌≡◌, ◌+◌, ◌<◌, ◌≤◌, [], length, map, max, reverse, Some, OnOk, OnErr, IfOk};
ghost use Rattle.usb_kernel.specs.Tickets.{tickets};
ghost use Rattle.usb_kernel.specs.Legal.{IsLawful};
ghost use Rattle.usb_kernel.specs.Acts.{EachActs};
ghost use Rattle.usb_kernel.specs.declared.event.Event.{Event};
ghost use Rattle.usb_kernel.specs.Completions.{lowest};
ghost use Rattle.usb_kernel_devices.specs.Devices.{fresh_device};
ghost use Rattle.usb_kernel.specs.Info.{info_of, unreaped};

use crate::event::Event;
use crate::once::info_with;
use crate::submission::TicketInfo;
use crate::table::TicketTable;
use std::alloc::Global;
use std::collections::BTreeSet;
use std::marker::{Brand, Model};
use std::sync::ledger::Blank;
use usb_desc::NoMemory;
use usb_kernel_devices::{DeviceState, Refusals, SimDevice, fresh_devices};

/// A simulated kernel. It keeps its events in a journal, and beside it the table of tickets that
/// the journal means.
#[derive(Drop)]
pub struct Kernel {
    pub(crate) journal: Vec<Event>,
    pub(crate) tickets: TicketTable,
    pub(crate) devices: Vec<DeviceState>,
    pub(crate) clock: u64,
    pub(crate) armed: Refusals,
    pub(crate) deadlines: BTreeSet<(u64, u64)>,
    pub(crate) spare: usize,
    pub(crate) owed: usize,
}

impl Model for Kernel {
    ghost use Rattle.std.specs.Prelude.{reverse};
    ghost use Rattle.usb_kernel.specs.Value.{KernelState};

    ghost Value = { KernelState };

    ghost view = { λ k.
        record {
          past = reverse k.journal.items;
          devices = k.devices.items;
          clock = k.clock;
          armed = k.armed.armed;
          spare = k.spare;
        } };

    ghost use Rattle.usb_kernel.specs.KernelFacts.{IsKept};

    ghost invariant = { IsKept };
}

impl Kernel {
    /// A kernel with these devices, by number, no event, clock 0 and no armed refusal. Where two
    /// devices share a number the first counts.
    pub fn new(alloc: Global, devices: Vec<(u8, SimDevice)>) -> Result<Kernel, NoMemory>
        ensures past { IfOk result (λ kernel. kernel.past ≡ []) }
        ensures devices { IfOk result (λ kernel. kernel.devices ≡ map fresh_device devices.items) }
        ensures clock { IfOk result (λ kernel. kernel.clock ≡ 0) }
        ensures armed { IfOk result (λ kernel. kernel.armed ≡ []) }
        ensures spare { IfOk result (λ kernel. kernel.spare ≡ 0) }
    {
        let devices = fresh_devices(alloc, devices)?;
        Ok(Kernel {
            journal: Vec::new(alloc),
            tickets: TicketTable::new(alloc),
            devices,
            clock: 0,
            armed: Refusals::new(alloc)?,
            deadlines: BTreeSet::new(alloc),
            spare: 0,
            owed: 0,
        })
    }

    /// The events, in the order in which they came.
    pub fn journal(&self) -> &[Event]
        ensures events { result.now ≡ reverse self.now.past }
        ensures lawful { IsLawful self.now.past }
        ensures acts { EachActs self.now.past }
    {
        self.journal.as_slice()
    }

    /// How many tickets there are. They have the numbers from 0 on.
    #[tactic(auto, using(crate::proofs::Fresh::length_rows))]
    pub fn tickets(&self) -> u64
        ensures tickets { result ≡ length (tickets self.now.past) }
    {
        self.tickets.len() as u64
    }

    /// How many tickets are not reaped.
    pub fn unreaped(&self) -> usize
        ensures unreaped { result ≡ unreaped self.now.past }
    {
        self.tickets.unreaped()
    }

    /// What is known of a ticket.
    #[tactic(auto, using(crate::proofs::Fresh::length_rows))]
    pub fn ticket(&self, ticket: u64) -> TicketInfo
        requires below { ticket < length (tickets self.now.past) }
        ensures info { info_of self.now.past ticket ≡ Some result }
    {
        info_with::<Brand>(&self.tickets, ticket, Blank::new(1))
    }

    /// The least number of a ticket that is finished and not reaped.
    #[tactic(auto, using(crate::proofs::Lowest::lowest_position))]
    pub fn lowest_finished(&self) -> Option<u64>
        ensures lowest { result ≡ lowest self.now.past }
    {
        self.tickets.lowest_finished()
    }

    /// Makes room for at least n steps.
    pub fn reserve(&mut self, n: usize) -> Result<(), NoMemory>
        ensures ok { OnOk result (n ≤ self.new.spare) }
        ensures exact { OnOk result (self.new.spare ≡ max self.old.spare n) }
        ensures kept { self.old.spare ≤ self.new.spare }
        ensures rest { self.new ≡ record self.old { spare = self.new.spare } }
        ensures err { OnErr result (self.new ≡ self.old) }
    {
        if n <= self.spare {
            return Ok(());
        }
        let Some(more) = n.checked_add(self.owed) else {
            return Err(NoMemory);
        };
        if self.journal.reserve(more).is_err() || self.armed.reserve(n).is_err() {
            return Err(NoMemory);
        }
        self.spare = n;
        Ok(())
    }

    /// The clock, in nanoseconds.
    pub fn now(&self) -> u64
        ensures clock { result ≡ self.now.clock }
    {
        self.clock
    }

    /// Raises the clock to this time, in nanoseconds, where that is later.
    pub fn idle(&mut self, until: u64)
        ensures clock { self.new.clock ≡ max self.old.clock until }
        ensures rest { self.new ≡ record self.old { clock = self.new.clock } }
    {
        self.clock = self.clock.max(until);
    }
}

fn needs_both<T: Send + Sync>(_x: &T) {}

/// A kernel may be lent to another thread.
pub fn is_send_and_sync(kernel: &Kernel) {
    needs_both(kernel);
}
