//! Who owns the claimed interfaces, and which of their endpoints are in use, kept as counts and
//! bits.

ghost use Rattle.std.specs.Prelude.{ℕ, ◌≡◌, ◌+◌, ◌-◌, ◌^◌, ◌<◌, ◌≤◌, ◌++◌, ◌∷◌, [], length, set, true, false, IfSome, IsSome, nat_lt, slice_get, option_and_then, Some, None, OnOk, OnErr, IfOk, take};
ghost use Rattle.std.specs.Option.{ForSome};
ghost use Rattle.std.specs.List.{list_any, count_by};
ghost use Rattle.std.specs.FinSet as bits;
ghost use Rattle.usb_desc.specs.BitSet.{bit_of, members};
ghost use Rattle.usb_device_tables.specs.History.{value_at, live_count};
ghost use Rattle.usb_device_ledger.specs.Entries.{ClaimedInterface, fresh_interface};
ghost use Rattle.usb_device_ledger.specs.Releases.{without_claim};
ghost use Rattle.usb_device_ledger.specs.OwnerRows.{OwnersState, AreAlive, claim_state, claim_if, is_alive, is_alive_on, is_counted, uses_row, interface_of_row, with_row, rows_left, row_gone, claim_gone, row_interface};

use std::alloc::Global;
use std::marker::Model;
use usb_desc::{EndpointBitSet, NoMemory};
use usb_device_tables::{Key, Registry, SerialMap};

/// A claim that ends: the device's number at the kernel, the interface's number, and whether its
/// driver is to be attached again.
#[derive(Clone, Copy)]
pub struct EndedClaim {
    pub device: u8,
    pub number: u8,
    pub reattach: bool,
}

/// A claimed interface: the key of its open device, the device's number at the kernel, its own
/// number and alternate setting, whether its driver is to be attached again when the claim ends,
/// how many handles of it are open, how many of its endpoints live, and their bits.
#[derive(Drop)]
pub struct Claim {
    pub opened: Key,
    pub device: u8,
    pub number: u8,
    pub setting: u8,
    pub reattach: bool,
    pub handles: usize,
    living: usize,
    bits: EndpointBitSet,
}

/// An endpoint: the key of its interface (a control endpoint has none), its address, whether its
/// handle is open, and how many of its tickets have no end.
#[derive(Clone, Copy)]
pub(crate) struct EndpointRow {
    pub interface: Option<Key>,
    pub address: u8,
    pub is_open: bool,
    pub tickets: usize,
}

/// The claimed interfaces and their endpoints, each by its key. An endpoint that lives no more goes,
/// and then an interface that has no owner any more. Of an endpoint 8 bytes stay, for its number.
#[derive(Drop)]
pub(crate) struct Owners {
    claims: Registry<Claim>,
    rows: SerialMap<EndpointRow>,
}

impl Model for Owners {
    ghost use Rattle.std.specs.Prelude.{map};
    ghost use Rattle.std.specs.Option.{option_map};
    ghost use Rattle.usb_device_ledger.specs.OwnerRows.{OwnersState, claim_state};

    ghost Value = { OwnersState };

    ghost view = { λ o. record {
      interfaces = map (option_map claim_state) o.claims.values;
      rows = o.rows;
      claim_capacity = o.claims.capacity;
    } };

    ghost use Rattle.usb_device_ledger.specs.OwnerFacts.{AreCounted};

    ghost invariant = { AreCounted };
}

impl EndpointRow {
    /// Whether the endpoint lives.
    fn is_alive(&self) -> bool
        ensures alive { result ≡ is_alive self.now }
    {
        self.is_open || self.tickets > 0
    }
}

impl Claim {
    /// The claim, where the interface has no owner.
    fn if_left(&self) -> Option<EndedClaim>
        ensures left { result ≡ claim_if self.now }
    {
        if self.handles > 0 || self.living > 0 {
            return None;
        }
        Some(EndedClaim {
            device: self.device,
            number: self.number,
            reattach: self.reattach,
        })
    }

    /// An endpoint of the interface lives no more.
    fn lose(&mut self, address: u8)
        requires some { 0 < self.old.living }
        ensures rest { self.new ≡ record self.old {
          living = self.old.living - 1;
          bits = self.new.bits;
        } }
        ensures bits { members self.new.bits ≡ bits.remove (members self.old.bits)
            (bit_of address) }
    {
        self.living -= 1;
        self.bits.clear(address);
    }
}

impl Claim {
    /// An endpoint of the interface lives.
    fn gain(&mut self, address: u8)
        requires small { self.old.living + 1 < 2 ^ 64 }
        ensures rest { self.new ≡ record self.old {
          living = self.old.living + 1;
          bits = self.new.bits;
        } }
        ensures bits { members self.new.bits ≡ bits.insert (members self.old.bits)
            (bit_of address) }
    {
        self.living += 1;
        self.bits.set(address);
    }
}

/// Takes the entry of an interface out, where it has no owner. Its claim ends.
fn end_claim(claims: &mut Registry<Claim>, interface: Key) -> Option<EndedClaim>
    ensures ended { result ≡ option_and_then claim_if (value_at claims.old.values
        interface.serial) }
    ensures gone { claims.new ≡ record claims.old {
      values = without_claim claims.old.values (Some interface.serial) result;
    } }
{
    let Some(claim) = claims.get(interface) else {
        return None;
    };
    let Some(ended) = claim.if_left() else {
        return None;
    };
    let _ = claims.remove(interface);
    Some(ended)
}

impl Owners {
    /// The row of an endpoint.
    fn row(&self, key: usize) -> EndpointRow
        requires there { IsSome (value_at self.now.rows key) }
        ensures row { value_at self.now.rows key ≡ Some result }
    {
        *self.rows.get(key).unwrap()
    }

    /// An endpoint is open or not, and has this many tickets without an end. Where it lives
    /// no more it goes, and the claim of its interface ends if it was the last owner.
    fn change(&mut self, key: usize, is_open: bool, tickets: usize) -> Option<EndedClaim>
        requires there { IsSome (value_at self.old.rows key) }
        ensures rows { self.new ≡ record self.old {
          interfaces = without_claim self.old.interfaces (interface_of_row self.old.rows key)
              result;
          rows = rows_left (with_row self.old.rows key is_open tickets) key;
        } }
        ensures gone { result ≡
            row_gone self.old.interfaces (with_row self.old.rows key is_open tickets) key }
    {
        let mut row = self.row(key);
        row.is_open = is_open;
        row.tickets = tickets;
        if row.is_alive() {
            self.rows.replace(key, row);
            return None;
        }
        let _ = self.rows.remove(key);
        let Some(interface) = row.interface else {
            return None;
        };
        let Some(claim) = self.claims.get_mut(interface) else {
            return None;
        };
        claim.lose(row.address);
        end_claim(&mut self.claims, interface)
    }

    /// No interface, and no endpoint.
    pub fn new(alloc: Global) -> Owners
        ensures empty { result ≡ record {
          interfaces = [];
          rows = [];
          claim_capacity = 0;
        } }
    {
        Owners {
            claims: Registry::new(alloc),
            rows: SerialMap::new(alloc),
        }
    }

    /// A ticket comes to an endpoint that is open.
    pub fn add_ticket(&mut self, key: usize)
        requires there { IsSome (value_at self.old.rows key) }
        requires open { ForSome (value_at self.old.rows key) (λ e. e.is_open ≡ true) }
        requires small { ForSome (value_at self.old.rows key) (λ e. e.tickets + 1 < 2 ^ 64) }
        ensures rows { ForSome (value_at self.old.rows key) (λ e.
            self.new ≡ record self.old { rows = with_row self.old.rows key true (e.tickets + 1) }) }
    {
        let row = self.row(key);
        let _ = self.change(key, true, row.tickets + 1);
    }

    /// A ticket of an endpoint has its end.
    pub fn end_ticket(&mut self, key: usize) -> Option<EndedClaim>
        requires there { IsSome (value_at self.old.rows key) }
        requires some { ForSome (value_at self.old.rows key) (λ e. 0 < e.tickets) }
        ensures rows { ForSome (value_at self.old.rows key) (λ e.
            self.new ≡ record self.old {
              interfaces = without_claim self.old.interfaces (interface_of_row self.old.rows key)
                  result;
              rows = rows_left (with_row self.old.rows key e.is_open (e.tickets - 1)) key;
            }) }
        ensures gone { ForSome (value_at self.old.rows key) (λ e. result ≡ row_gone
            self.old.interfaces (with_row self.old.rows key e.is_open (e.tickets - 1)) key) }
    {
        let row = self.row(key);
        self.change(key, row.is_open, row.tickets - 1)
    }

    /// The handle of an endpoint is closed.
    pub fn close_endpoint(&mut self, key: usize) -> Option<EndedClaim>
        requires there { IsSome (value_at self.old.rows key) }
        ensures rows { ForSome (value_at self.old.rows key) (λ e.
            self.new ≡ record self.old {
              interfaces = without_claim self.old.interfaces (interface_of_row self.old.rows key)
                  result;
              rows = rows_left (with_row self.old.rows key false e.tickets) key;
            }) }
        ensures gone { ForSome (value_at self.old.rows key) (λ e. result ≡ row_gone
            self.old.interfaces (with_row self.old.rows key false e.tickets) key) }
    {
        let row = self.row(key);
        self.change(key, false, row.tickets)
    }

    /// A handle of an interface is closed. The claim ends where it was the last owner.
    pub fn close_handle(&mut self, interface: Key) -> Option<EndedClaim>
        requires there { IsSome (value_at self.old.interfaces interface.serial) }
        requires some { ForSome (value_at self.old.interfaces interface.serial) (λ c.
            0 < c.handles) }
        ensures interfaces { ForSome (value_at self.old.interfaces interface.serial) (λ c.
            let left = set self.old.interfaces interface.serial
            (Some (record c { handles = c.handles - 1 })) in
            self.new ≡ record self.old {
              interfaces = without_claim left (Some interface.serial) result;
            }) }
        ensures gone { ForSome (value_at self.old.interfaces interface.serial) (λ c.
            let left = set self.old.interfaces interface.serial
            (Some (record c { handles = c.handles - 1 })) in
            result ≡ claim_gone left self.old.rows interface.serial) }
    {
        let Some(claim) = self.claims.get_mut(interface) else {
            return None;
        };
        claim.handles -= 1;
        end_claim(&mut self.claims, interface)
    }

    /// One more handle of an interface is open.
    pub fn add_handle(&mut self, interface: Key) -> Result<(), NoMemory>
        requires there { IsSome (value_at self.old.interfaces interface.serial) }
        ensures interfaces { OnOk result
            (ForSome (value_at self.old.interfaces interface.serial) (λ c.
            self.new ≡ record self.old {
              interfaces = set self.old.interfaces interface.serial
                  (Some (record c { handles = c.handles + 1 }));
            })) }
        ensures err { OnErr result (self.new ≡ self.old) }
        ensures full { OnErr result
            (ForSome (value_at self.old.interfaces interface.serial) (λ c.
            c.handles ≡ 2 ^ 64 - 1)) }
    {
        let Some(claim) = self.claims.get_mut(interface) else {
            return Ok(());
        };
        if claim.handles == usize::MAX {
            return Err(NoMemory);
        }
        claim.handles += 1;
        Ok(())
    }

    /// An interface has another alternate setting.
    pub fn set_setting(&mut self, interface: Key, setting: u8)
        requires there { IsSome (value_at self.old.interfaces interface.serial) }
        ensures interfaces { ForSome (value_at self.old.interfaces interface.serial) (λ c.
            self.new ≡ record self.old {
              interfaces = set self.old.interfaces interface.serial
                  (Some (record c { setting = setting }));
            }) }
    {
        if let Some(claim) = self.claims.get_mut(interface) {
            claim.setting = setting;
        }
    }

    /// A claimed interface.
    pub fn interface(&self, interface: Key) -> &Claim
        requires there { IsSome (value_at self.now.interfaces interface.serial) }
        ensures claim { value_at self.now.interfaces interface.serial ≡
            Some (claim_state result.now) }
        ensures living { result.now.living ≡
            count_by (is_alive_on interface.serial) self.now.rows }
    {
        self.claims.get(interface).unwrap()
    }

    /// Whether an endpoint of an interface lives.
    pub fn has_living(&self, interface: Key) -> bool
        requires there { IsSome (value_at self.now.interfaces interface.serial) }
        ensures living { result ≡
            nat_lt 0 (count_by (is_alive_on interface.serial) self.now.rows) }
    {
        self.interface(interface).living > 0
    }

    /// Whether an interface has an owner beside one of its handles.
    pub fn is_shared(&self, interface: Key) -> bool
        requires there { IsSome (value_at self.now.interfaces interface.serial) }
        ensures shared { ForSome (value_at self.now.interfaces interface.serial) (λ c.
            result ≡ is_counted self.now.rows interface.serial
            (record c { handles = c.handles - 1 })) }
    {
        let claim = self.interface(interface);
        claim.handles > 1 || claim.living > 0
    }

    /// Whether a living endpoint of an interface has the bit of an address.
    pub fn is_used(&self, interface: Key, address: u8) -> bool
        requires there { IsSome (value_at self.now.interfaces interface.serial) }
        ensures used { result ≡ list_any (uses_row interface.serial address) self.now.rows }
    {
        match self.claims.get(interface) {
            Some(claim) => claim.bits.is_set(address),
            None => false,
        }
    }

    /// Makes room for one more claimed interface.
    pub fn reserve_claim(&mut self) -> Result<(), NoMemory>
        ensures room { OnOk result (live_count self.new.interfaces < self.new.claim_capacity) }
        ensures serials { OnOk result (length self.new.interfaces + 1 < 2 ^ 64) }
        ensures rest { self.new ≡ record self.old { claim_capacity = self.new.claim_capacity } }
    {
        if self.claims.reserve().is_err() {
            return Err(NoMemory);
        }
        Ok(())
    }

    /// One more interface is claimed, with one handle.
    pub fn open_interface(&mut self, opened: Key, device: u8, number: u8, reattach: bool) -> Key
        requires room { live_count self.old.interfaces < self.old.claim_capacity }
        requires serials { length self.old.interfaces + 1 < 2 ^ 64 }
        ensures key { result.serial ≡ length self.old.interfaces }
        ensures interfaces { self.new ≡ record self.old {
          interfaces = self.old.interfaces ++ Some (fresh_interface opened.serial device number
              reattach) ∷ [];
        } }
    {
        self.claims.insert_reserved(Claim {
            opened,
            device,
            number,
            setting: 0,
            reattach,
            handles: 1,
            living: 0,
            bits: EndpointBitSet::new(),
        })
    }

    /// How many claimed interfaces there is memory for.
    pub fn claim_capacity(&self) -> usize
        ensures capacity { result ≡ self.now.claim_capacity }
        ensures holds_all { live_count self.now.interfaces ≤ result }
    {
        self.claims.capacity()
    }

    /// Nothing is kept that has gone: each interface has an owner, and each endpoint lives. That is
    /// so of each value of this type, and the call does nothing.
    pub fn nothing_is_kept_that_has_gone(&self)
        ensures owned { (i : ℕ) (c : ClaimedInterface) →
            value_at self.now.interfaces i ≡ Some c → is_counted self.now.rows i c ≡ true }
        ensures alive { AreAlive self.now.rows }
    {
        let _ = &self.rows;
    }

    /// How many endpoints are kept.
    pub fn endpoint_count(&self) -> usize
        ensures live { result ≡ live_count self.now.rows }
    {
        self.rows.len()
    }

    /// One more endpoint of an interface is open. Its bit must not be in use.
    pub fn open_endpoint(&mut self, interface: Key, address: u8) -> Result<usize, NoMemory>
        requires there { IsSome (value_at self.old.interfaces interface.serial) }
        requires unused { list_any (uses_row interface.serial address) self.old.rows ≡ false }
        ensures key { IfOk result (λ key. key ≡ length self.old.rows) }
        ensures rows { OnOk result (self.new ≡ record self.old {
          rows = self.old.rows ++ Some (record {
            interface = Some interface;
            address = address;
            is_open = true;
            tickets = 0;
          }) ∷ [];
        }) }
        ensures err { OnErr result (self.new ≡ self.old) }
    {
        let row = EndpointRow {
            interface: Some(interface),
            address,
            is_open: true,
            tickets: 0,
        };
        let Ok(key) = self.rows.insert(row) else {
            return Err(NoMemory);
        };
        let Some(claim) = self.claims.get_mut(interface) else {
            unreachable!();
        };
        claim.gain(address);
        Ok(key)
    }

    /// One more control endpoint is open, which is of no interface.
    pub fn open_control(&mut self, address: u8) -> Result<usize, NoMemory>
        ensures key { IfOk result (λ key. key ≡ length self.old.rows) }
        ensures rows { OnOk result (self.new ≡ record self.old {
          rows = self.old.rows ++ Some (record {
            interface = None;
            address = address;
            is_open = true;
            tickets = 0;
          }) ∷ [];
        }) }
        ensures err { OnErr result (self.new ≡ self.old) }
    {
        let row = EndpointRow {
            interface: None,
            address,
            is_open: true,
            tickets: 0,
        };
        let Ok(key) = self.rows.insert(row) else {
            return Err(NoMemory);
        };
        Ok(key)
    }

    /// Takes the endpoint that was opened last back, which is a control endpoint, as if it had not
    /// been opened.
    pub fn take_control_back(&mut self)
        requires some { 0 < length self.old.rows }
        requires control { ForSome (value_at self.old.rows (length self.old.rows - 1)) (λ e.
            row_interface e ≡ None) }
        ensures rows { self.new ≡ record self.old {
          rows = take (length self.old.rows - 1) self.old.rows;
        } }
    {
        self.rows.take_back();
    }
}
