//! The tickets. Those without an end stand in slots that are used again.

ghost use Rattle.std.specs.Prelude.{◌≡◌, ◌^◌, ◌<◌, ◌≤◌, ◌++◌, ◌∷◌, [], List, map, length, set, slice_get, option_and_then, Some, IsSome, OnOk};
ghost use Rattle.std.specs.Option.{option_copied};
ghost use Rattle.usb_device_ledger.specs.EndedTickets as ends;
ghost use Rattle.usb_device_ledger.specs.LedgerState.{host_ticket};
ghost use Rattle.usb_device_ledger.specs.Slots.{HaveSlots, slots_with};
ghost use Rattle.usb_device_ledger.specs.TicketStates.{Ended, state_of, standing_at};

use crate::ends::TicketEnd;
use crate::place::{TicketPlace, end_at, key_at};
use crate::pool::Pool;
use crate::standing::Standing;
use std::alloc::Global;
use std::marker::Model;
use usb_desc::NoMemory;

/// The tickets, each by its number, which is the generation in which it stands in its slot.
#[derive(Drop)]
pub(crate) struct TicketSlots {
    pool: Pool<Standing>,
    places: Vec<TicketPlace>,
}

impl Model for TicketSlots {
    ghost use Rattle.usb_device_ledger.specs.Places.{TicketsState};

    ghost Value = { TicketsState };

    ghost use Rattle.usb_device_ledger.specs.TicketSlotFacts.{tickets_state, IsPlaced};

    ghost view = { tickets_state };

    ghost invariant = { IsPlaced };
}

impl TicketSlots {
    /// There is no ticket.
    pub fn new(alloc: Global) -> TicketSlots
        ensures slots { result.slots ≡ [] }
        ensures slot_count { result.slot_count ≡ 0 }
    {
        TicketSlots {
            pool: Pool::new(alloc),
            places: Vec::new(alloc),
        }
    }

    /// The number of tickets.
    pub fn count(&self) -> usize
        ensures count { result ≡ length self.now.slots }
    {
        self.places.len()
    }

    /// How many slots there are. Each ticket without an end stands in one of its own.
    pub fn slot_count(&self) -> usize
        ensures count { result ≡ self.now.slot_count }
        ensures places { HaveSlots (map host_ticket self.now.slots) result }
    {
        self.pool.slot_count()
    }

    /// Makes room for one more ticket.
    pub fn reserve(&mut self) -> Result<(), NoMemory>
        ensures room { OnOk result (1 ≤ self.new.room) }
        ensures rest { self.new ≡ record self.old { room = self.new.room } }
    {
        if self.places.reserve(1).is_err() {
            return Err(NoMemory);
        }
        if self.pool.reserve().is_err() {
            return Err(NoMemory);
        }
        Ok(())
    }

    /// One more ticket has no end. It takes no memory.
    pub fn add(&mut self, standing: Standing)
        requires room { 1 ≤ self.old.room }
        ensures slots { self.new.slots ≡ self.old.slots ++ state_of standing ∷ [] }
        ensures slot_count { self.new.slot_count
            ≡ slots_with (map host_ticket self.old.slots) self.old.slot_count }
        ensures few { length self.new.slots < 2 ^ 64 }
    {
        let key = self.pool.insert(standing);
        self.places.push_reserved(TicketPlace::At(key));
    }

    /// What stands of a ticket, if it has no end.
    pub fn standing(&self, ticket: usize) -> Option<&Standing>
        ensures standing { option_copied result ≡ standing_at self.now.slots ticket }
    {
        let key = key_at(&self.places, ticket)?;
        self.pool.get(key)
    }

    /// Another state of a ticket that has no end.
    pub fn replace(&mut self, ticket: usize, standing: Standing)
        requires there { IsSome (standing_at self.old.slots ticket) }
        ensures slots { self.new ≡ record self.old {
          slots = set self.old.slots ticket (state_of standing);
        } }
    {
        let key = key_at(&self.places, ticket).unwrap();
        let _ = self.pool.replace(key, standing);
    }

    /// A ticket that has no end gets this one, and its slot is free. What stood of it comes out.
    pub fn end(&mut self, ticket: usize, end: TicketEnd) -> Standing
        requires there { IsSome (standing_at self.old.slots ticket) }
        ensures standing { standing_at self.old.slots ticket ≡ Some result }
        ensures slots { self.new ≡ record self.old {
          slots = set self.old.slots ticket (Ended end);
        } }
    {
        let key = key_at(&self.places, ticket).unwrap();
        self.places[ticket] = TicketPlace::Over(end);
        self.pool.remove(key).unwrap()
    }

    /// The end of a ticket, if it has one.
    pub fn end_of(&self, ticket: usize) -> Option<TicketEnd>
        ensures end { result ≡ ends.end_at (map host_ticket self.now.slots) ticket }
    {
        end_at(&self.places, ticket)
    }
}
