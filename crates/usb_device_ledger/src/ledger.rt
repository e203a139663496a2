//! The claimed interfaces, their endpoints, and the tickets of these.

ghost use Rattle.std.specs.Prelude.{◌≡◌, ◌+◌, ◌-◌, ◌^◌, ◌<◌, ◌≤◌, ◌++◌, ◌∷◌, [], length, set, take, true, false, slice_get, option_and_then, Some, None, IsSome, OnOk, OnErr, IfOk};
ghost use Rattle.std.specs.Option.{ForSome, option_copied};
ghost use Rattle.usb_device_tables.specs.History.{value_at, live_count};
ghost use Rattle.usb_device_ledger.specs.OwnerRows.{claim_state};
ghost use Rattle.std.specs.List.{count_by};
ghost use Rattle.usb_device_ledger.specs.Owners.{is_ticket_of, is_used_among, has_living, is_owned_among};
ghost use Rattle.usb_device_ledger.specs.Releases.{claim_of, claim_ended, without_claim, interface_at};
ghost use Rattle.usb_device_ledger.specs.EndedTickets.{end_at};
ghost use Rattle.usb_device_ledger.specs.Entries.{fresh_interface, control_endpoint};
ghost use Rattle.usb_device_ledger.specs.Kept.{EachIsOwned, EachLives};
ghost use Rattle.usb_device_ledger.specs.LedgerState.{host_ticket, tickets_in, ticket_key, slot_data, slot_with, slot_without, ended_with, left_with, abandoned_key};
ghost use Rattle.usb_device_ledger.specs.Slots.{HaveSlots, slots_with};
ghost use Rattle.usb_device_ledger.specs.TicketStates as TicketState;

use crate::ends::TicketEnd;
use crate::owners::{Claim, EndedClaim, Owners};
use crate::standing::Standing;
use crate::ticket_slots::TicketSlots;
use std::alloc::Global;
use std::marker::Model;
use usb_desc::NoMemory;
use usb_device_tables::Key;
use usb_kernel::Done;
use usb_xfer::TransferData;

/// What a ticket leaves when it ends: its transfer, where its endpoint had it, and the claim that
/// ends with it.
#[derive(Drop)]
pub struct Ending {
    pub transfer: Option<TransferData>,
    pub claim: Option<EndedClaim>,
}

/// The claimed interfaces and the endpoints, each by its key, and the tickets, each by its number.
#[derive(Drop)]
pub struct Ledger {
    owners: Owners,
    tickets: TicketSlots,
}

impl Model for Ledger {
    ghost use Rattle.std.specs.Prelude.{map};
    ghost use Rattle.std.specs.Option.{option_map};
    ghost use Rattle.usb_device_ledger.specs.OwnerRows.{endpoint_of};
    ghost use Rattle.usb_device_ledger.specs.EndedTickets.{end_at};
    ghost use Rattle.usb_device_ledger.specs.LedgerState.{LedgerState};

    ghost Value = { LedgerState };

    ghost view = { λ l. record {
      interfaces = l.owners.interfaces;
      endpoints = map (option_map endpoint_of) l.owners.rows;
      slots = l.tickets.slots;
      room = l.tickets.room;
      claim_capacity = l.owners.claim_capacity;
      slot_count = l.tickets.slot_count;
    } };

    ghost use Rattle.usb_device_ledger.specs.LedgerFacts.{IsTied};

    ghost invariant = { IsTied };
}

impl Ledger {
    /// Nothing is claimed, and there is no ticket.
    pub fn new(alloc: Global) -> Ledger
        ensures empty { result ≡ record {
          interfaces = [];
          endpoints = [];
          slots = [];
          room = result.room;
          claim_capacity = 0;
          slot_count = 0;
        } }
    {
        Ledger {
            owners: Owners::new(alloc),
            tickets: TicketSlots::new(alloc),
        }
    }

    /// A ticket that has no end gets this one.
    pub fn end(&mut self, ticket: usize, end: TicketEnd) -> Ending
        requires within { ticket < length self.old.slots }
        requires key { ForSome (slice_get self.old.slots ticket) (λ s.
            IsSome (ticket_key (host_ticket s))) }
        ensures slots { ForSome (slice_get self.old.slots ticket) (λ s.
            self.new ≡ left_with (record self.old {
              slots = set self.old.slots ticket (TicketState.Ended end);
            }) (ticket_key (host_ticket s))) }
        ensures transfer { ForSome (slice_get self.old.slots ticket) (λ s.
            result.transfer ≡ slot_data s) }
        ensures claim { ForSome (slice_get self.old.slots ticket) (λ s.
            result.claim ≡ ended_with (record self.old {
              slots = set self.old.slots ticket (TicketState.Ended end);
            }) (ticket_key (host_ticket s))) }
    {
        let standing = self.tickets.end(ticket, end);
        let parts = standing.into_parts();
        let claim = self.owners.end_ticket(parts.key);
        Ending {
            transfer: parts.transfer,
            claim,
        }
    }

    /// The completion of a ticket has come. A ticket that was given up is reclaimed, and the claim
    /// may end with it.
    pub fn complete(&mut self, done: Done) -> Option<EndedClaim>
        requires within { done.ticket < length self.old.slots }
        ensures slots { ForSome (slice_get self.old.slots done.ticket) (λ s.
            self.new ≡ left_with (record self.old {
              slots = set self.old.slots done.ticket (slot_with done s);
            }) (abandoned_key s)) }
        ensures claim { ForSome (slice_get self.old.slots done.ticket) (λ s.
            result ≡ ended_with (record self.old {
              slots = set self.old.slots done.ticket (slot_with done s);
            }) (abandoned_key s)) }
    {
        let ticket = done.ticket as usize;
        let standing = self.tickets.standing(ticket)?;
        match standing.with_completion(done) {
            Some(complete) => {
                self.tickets.replace(ticket, complete);
                None
            }
            None => self.end(ticket, TicketEnd::Reclaimed).claim,
        }
    }

    /// The endpoint of a ticket that has no end gives it up.
    pub fn give_up(&mut self, ticket: usize)
        requires within { ticket < length self.old.slots }
        requires key { ForSome (slice_get self.old.slots ticket) (λ s.
            IsSome (ticket_key (host_ticket s))) }
        ensures slots { ForSome (slice_get self.old.slots ticket) (λ s.
            self.new ≡ record self.old { slots = set self.old.slots ticket (slot_without s) }) }
    {
        if let Some(standing) = self.tickets.standing(ticket) {
            let key = standing.key();
            self.tickets.replace(ticket, Standing::Abandoned { key });
        }
    }

    /// Makes room for one more ticket.
    pub fn reserve(&mut self) -> Result<(), NoMemory>
        ensures room { OnOk result (1 ≤ self.new.room) }
        ensures rest { self.new ≡ record self.old { room = self.new.room } }
    {
        self.tickets.reserve()
    }

    /// An endpoint that is open holds the next ticket. It takes no memory.
    pub fn hold(&mut self, key: usize, transfer: TransferData)
        requires room { 1 ≤ self.old.room }
        requires there { IsSome (value_at self.old.endpoints key) }
        requires open { ForSome (value_at self.old.endpoints key) (λ e. e.is_open ≡ true) }
        ensures slots { self.new ≡ record self.old {
          slots = self.old.slots ++ TicketState.HeldBy key transfer ∷ [];
          room = self.new.room;
          slot_count = slots_with (tickets_in self.old) self.old.slot_count;
        } }
    {
        self.tickets.add(Standing::HeldBy { key, transfer });
        self.owners.add_ticket(key);
    }

    /// The handle of an endpoint is closed.
    pub fn leave(&mut self, key: usize) -> Option<EndedClaim>
        requires there { IsSome (value_at self.old.endpoints key) }
        ensures endpoints { ForSome (value_at self.old.endpoints key) (λ e.
            self.new ≡ left_with (record self.old {
              endpoints = set self.old.endpoints key (Some (record e { is_open = false }));
            }) (Some key)) }
        ensures claim { ForSome (value_at self.old.endpoints key) (λ e.
            result ≡ claim_of self.old.interfaces (tickets_in self.old)
            (set self.old.endpoints key (Some (record e { is_open = false }))) key) }
    {
        self.owners.close_endpoint(key)
    }

    /// A handle of an interface is closed. The claim ends where it was the last owner.
    pub fn close_handle(&mut self, interface: Key) -> Option<EndedClaim>
        requires there { IsSome (value_at self.old.interfaces interface.serial) }
        requires some { ForSome (value_at self.old.interfaces interface.serial) (λ c.
            0 < c.handles) }
        ensures interfaces { ForSome (value_at self.old.interfaces interface.serial) (λ c.
            let left = set self.old.interfaces interface.serial
            (Some (record c { handles = c.handles - 1 })) in
            self.new ≡ record self.old {
              interfaces = without_claim left (Some interface.serial)
                  (claim_ended left (tickets_in self.old) self.old.endpoints interface.serial);
            }) }
        ensures claim { ForSome (value_at self.old.interfaces interface.serial) (λ c.
            let left = set self.old.interfaces interface.serial
            (Some (record c { handles = c.handles - 1 })) in
            result ≡ claim_ended left (tickets_in self.old) self.old.endpoints
            interface.serial) }
    {
        self.owners.close_handle(interface)
    }

    /// One more handle of an interface is open.
    pub fn add_handle(&mut self, interface: Key) -> Result<(), NoMemory>
        requires there { IsSome (value_at self.old.interfaces interface.serial) }
        ensures interfaces { OnOk result
            (ForSome (value_at self.old.interfaces interface.serial) (λ c.
            self.new ≡ record self.old {
              interfaces = set self.old.interfaces interface.serial
                  (Some (record c { handles = c.handles + 1 }));
            })) }
        ensures err { OnErr result (self.new ≡ self.old) }
        ensures full { OnErr result
            (ForSome (value_at self.old.interfaces interface.serial) (λ c.
            c.handles ≡ 2 ^ 64 - 1)) }
    {
        self.owners.add_handle(interface)
    }

    /// An interface has another alternate setting.
    pub fn set_setting(&mut self, interface: Key, setting: u8)
        requires there { IsSome (value_at self.old.interfaces interface.serial) }
        ensures interfaces { ForSome (value_at self.old.interfaces interface.serial) (λ c.
            self.new ≡ record self.old {
              interfaces = set self.old.interfaces interface.serial
                  (Some (record c { setting = setting }));
            }) }
    {
        self.owners.set_setting(interface, setting);
    }

    /// Whether an endpoint of an interface lives.
    pub fn has_living(&self, interface: Key) -> bool
        requires there { IsSome (value_at self.now.interfaces interface.serial) }
        ensures living { result ≡
            has_living (tickets_in self.now) self.now.endpoints interface.serial }
    {
        self.owners.has_living(interface)
    }

    /// Whether an interface has an owner beside one of its handles.
    pub fn is_shared(&self, interface: Key) -> bool
        requires there { IsSome (value_at self.now.interfaces interface.serial) }
        ensures shared { ForSome (value_at self.now.interfaces interface.serial) (λ c.
            result ≡ is_owned_among (tickets_in self.now) self.now.endpoints interface.serial
            (record c { handles = c.handles - 1 })) }
    {
        self.owners.is_shared(interface)
    }

    /// A claimed interface.
    pub fn interface(&self, interface: Key) -> &Claim
        requires there { IsSome (value_at self.now.interfaces interface.serial) }
        ensures claim { value_at self.now.interfaces interface.serial ≡
            Some (claim_state result.now) }
    {
        self.owners.interface(interface)
    }

    /// The key of the open device of an interface.
    pub fn opened(&self, interface: Key) -> Key
        requires there { IsSome (value_at self.now.interfaces interface.serial) }
        ensures opened { ForSome (value_at self.now.interfaces interface.serial) (λ c.
            result.serial ≡ c.opened) }
    {
        self.owners.interface(interface).opened
    }

    /// The number of the device of an interface at the kernel.
    pub fn device(&self, interface: Key) -> u8
        requires there { IsSome (value_at self.now.interfaces interface.serial) }
        ensures device { ForSome (value_at self.now.interfaces interface.serial) (λ c.
            result ≡ c.device) }
    {
        self.owners.interface(interface).device
    }

    /// Whether the bit of an address is in use at an interface.
    pub fn is_used(&self, interface: Key, address: u8) -> bool
        requires there { IsSome (value_at self.now.interfaces interface.serial) }
        ensures used { result ≡ is_used_among (tickets_in self.now) self.now.endpoints
            interface.serial address }
    {
        self.owners.is_used(interface, address)
    }

    /// Makes room for one more claimed interface.
    pub fn reserve_claim(&mut self) -> Result<(), NoMemory>
        ensures room { OnOk result (live_count self.new.interfaces < self.new.claim_capacity) }
        ensures serials { OnOk result (length self.new.interfaces + 1 < 2 ^ 64) }
        ensures rest { self.new ≡ record self.old { claim_capacity = self.new.claim_capacity } }
    {
        self.owners.reserve_claim()
    }

    /// One more interface is claimed, with one handle.
    pub fn open_interface(&mut self, opened: Key, device: u8, number: u8, reattach: bool) -> Key
        requires room { live_count self.old.interfaces < self.old.claim_capacity }
        requires serials { length self.old.interfaces + 1 < 2 ^ 64 }
        ensures key { result.serial ≡ length self.old.interfaces }
        ensures interfaces { self.new ≡ record self.old {
          interfaces = self.old.interfaces ++ Some (fresh_interface opened.serial device number
              reattach) ∷ [];
        } }
    {
        self.owners.open_interface(opened, device, number, reattach)
    }

    /// How many claimed interfaces there is memory for.
    pub fn claim_capacity(&self) -> usize
        ensures capacity { result ≡ self.now.claim_capacity }
        ensures holds_all { live_count self.now.interfaces ≤ result }
    {
        self.owners.claim_capacity()
    }

    /// Nothing is kept that has gone: each interface has an owner, and each endpoint lives. That is
    /// so of all ledgers, and the call does nothing.
    pub fn nothing_is_kept_that_has_gone(&self)
        ensures owned { EachIsOwned (tickets_in self.now) self.now.endpoints self.now.interfaces }
        ensures alive { EachLives (tickets_in self.now) self.now.endpoints }
    {
        self.owners.nothing_is_kept_that_has_gone();
    }

    /// How many endpoints are kept.
    pub fn endpoint_count(&self) -> usize
        ensures live { result ≡ live_count self.now.endpoints }
    {
        self.owners.endpoint_count()
    }

    /// One more endpoint of an interface is open. Its bit must not be in use.
    pub fn open_endpoint(&mut self, interface: Key, address: u8) -> Result<usize, NoMemory>
        requires there { IsSome (value_at self.old.interfaces interface.serial) }
        requires unused { is_used_among (tickets_in self.old) self.old.endpoints
            interface.serial address ≡ false }
        ensures key { IfOk result (λ key. key ≡ length self.old.endpoints) }
        ensures endpoints { OnOk result (self.new ≡ record self.old {
          endpoints = self.old.endpoints ++ Some (record {
            interface = Some interface.serial;
            address = address;
            is_open = true;
          }) ∷ [];
        }) }
        ensures err { OnErr result (self.new ≡ self.old) }
    {
        self.owners.open_endpoint(interface, address)
    }

    /// One more control endpoint is open.
    pub fn open_control(&mut self, address: u8) -> Result<usize, NoMemory>
        ensures key { IfOk result (λ key. key ≡ length self.old.endpoints) }
        ensures endpoints { OnOk result (self.new ≡ record self.old {
          endpoints = self.old.endpoints ++ Some (control_endpoint address) ∷ [];
        }) }
        ensures err { OnErr result (self.new ≡ self.old) }
        ensures unheld { count_by (is_ticket_of (length self.old.endpoints)) (tickets_in self.old)
            ≡ 0 }
    {
        self.owners.open_control(address)
    }

    /// Takes the endpoint that was opened last back, as if it had not been opened. It is a control
    /// endpoint that never had a ticket.
    pub fn take_control_back(&mut self)
        requires some { 0 < length self.old.endpoints }
        requires control { ForSome (value_at self.old.endpoints (length self.old.endpoints - 1))
            (λ e. e.interface ≡ None) }
        requires unheld { count_by (is_ticket_of (length self.old.endpoints - 1))
            (tickets_in self.old) ≡ 0 }
        ensures endpoints { self.new ≡ record self.old {
          endpoints = take (length self.old.endpoints - 1) self.old.endpoints;
        } }
    {
        self.owners.take_control_back();
    }

    /// The transfer of a ticket that an endpoint holds.
    pub fn transfer(&self, ticket: u64) -> Option<&TransferData>
        ensures transfer { option_copied result
            ≡ option_and_then slot_data (slice_get self.now.slots ticket) }
    {
        self.tickets.standing(ticket as usize)?.transfer()
    }

    /// The end of a ticket, if it has one.
    pub fn end_of(&self, ticket: u64) -> Option<TicketEnd>
        ensures end { result ≡ end_at (tickets_in self.now) ticket }
    {
        self.tickets.end_of(ticket as usize)
    }

    /// The number of tickets.
    pub fn count(&self) -> usize
        ensures count { result ≡ length self.now.slots }
    {
        self.tickets.count()
    }

    /// How many slots there are. Each ticket without an end stands in one of its own.
    pub fn slot_count(&self) -> usize
        ensures count { result ≡ self.now.slot_count }
        ensures places { HaveSlots (tickets_in self.now) result }
    {
        self.tickets.slot_count()
    }
}
