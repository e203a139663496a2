//! The bus over a kernel alone.

ghost use Rattle.std.specs.Prelude.{◌≡◌, ◌≤◌, ◌<◌, ◌*◌, ◌^◌, ◌++◌, ◌∷◌, [], true, false, max, length, Some, None, is_some, IsSome, IsTrue, IfOk, OnOk, OnErr, IfErr, IfSome, refl};
ghost use Rattle.usb_kernel.specs.Tickets.{tickets};
ghost use Rattle.usb_kernel.specs.Steps.{HasErrno};
ghost use Rattle.usb_kernel_devices.specs.Errnos.{IsErrno};
ghost use Rattle.usb_kernel.specs.Submits.{submit_refusal};
ghost use Rattle.usb_xfer.specs.Transfers.{IsFilled};
ghost use Rattle.usb_device_endpoint.specs.KernelBusState.{KernelBusState};
ghost use Rattle.usb_device_endpoint.specs.KernelBusCalls.{bus_of, owner_at, key_at, bus_value, bus_submitted, bus_refused, bus_discarded, bus_without, bus_closed, bus_turned, bus_turn, bus_idled, bus_halt_cleared, bus_halt_result, bus_stepped, kernel_bus_calls};
ghost use Rattle.usb_device_endpoint.specs.KernelBusLaws.{bus_of-without_owner, bus_value-holds};
ghost use Rattle.usb_device_endpoint.specs.Routes.{AsksWhole};

use crate::bus::Bus;
use crate::kernel_slots::{OwnedTransfer, add_slot, has_come, store, take_slot};
use crate::route::{Route, Turn};
use std::alloc::Global;
use std::marker::Model;
use usb_desc::NoMemory;
use usb_kernel::{Kernel, KernelStep};
use usb_xfer::{Idle, Pending, Slots, TransferData};

/// A kernel, and what endpoints hold there: the least bus. It goes on by itself only by reaps; the
/// steps of a simulation are applied to it between two calls.
#[derive(Drop)]
pub struct KernelBus {
    kernel: Kernel,
    slots: Vec<OwnedTransfer>,
    keys: Vec<bool>,
}

impl Model for KernelBus {
    ghost use Rattle.usb_device_endpoint.specs.KernelBusState.{KernelBusState};

    ghost Value = { KernelBusState };

    ghost use Rattle.usb_device_endpoint.specs.KernelBusFacts.{holds_of, IsMatched};

    ghost view = { λ h.
        record { kernel = h.kernel; holds = holds_of h.slots.items; keys = h.keys.items } };

    ghost invariant = { IsMatched };
}

impl KernelBus {
    /// A bus over a kernel that has no ticket yet.
    pub fn new(alloc: Global, kernel: Kernel) -> KernelBus
        requires none { tickets kernel.past ≡ [] }
        ensures bus { result ≡ record { kernel = kernel; holds = []; keys = [] } }
    {
        KernelBus {
            kernel,
            slots: Vec::new(alloc),
            keys: Vec::new(alloc),
        }
    }

    /// The key of a new endpoint. An `Err` is want of memory, and then nothing has changed.
    pub fn open(&mut self) -> Result<usize, NoMemory>
        ensures key { IfOk result (λ key. key ≡ length self.old.keys) }
        ensures bus { OnOk result
            (self.new ≡ record self.old { keys = self.old.keys ++ true ∷ [] }) }
        ensures fresh { key_at self.old.keys (length self.old.keys) ≡ false }
        ensures open { IfOk result (λ key. key_at self.new.keys key ≡ true) }
        ensures err { OnErr result (self.new ≡ self.old) }
    {
        let key = self.keys.len();
        match self.keys.push(true) {
            Ok(()) => Ok(key),
            Err(_) => Err(NoMemory),
        }
    }

    /// The kernel.
    pub fn kernel(&self) -> &Kernel
        ensures kernel { result.now ≡ self.now.kernel }
    {
        &self.kernel
    }

    /// Makes room for at least n steps. An `Err` is want of memory, and then nothing has changed.
    pub fn reserve(&mut self, n: usize) -> Result<(), NoMemory>
        ensures ok { OnOk result (n ≤ self.new.kernel.spare) }
        ensures bus { OnOk result
            (self.new ≡ record self.old
            { kernel = record self.old.kernel { spare = max self.old.kernel.spare n } }) }
        ensures err { OnErr result (self.new ≡ self.old) }
    {
        self.kernel.reserve(n)
    }

    /// Applies a step of the simulation. It takes no memory.
    pub fn step(&mut self, step: KernelStep)
        requires spare { 1 ≤ self.old.kernel.spare }
        requires errno { HasErrno step }
        ensures bus { self.new ≡ bus_stepped self.old step }
    {
        let done = self.kernel.step_once(step);
        store(&mut self.slots, done);
    }

    /// The buffer of a transfer becomes the next ticket, with a deadline or none.
    fn submit_transfer(
        &mut self,
        to: Route,
        deadline: Option<u64>,
        t: TransferData,
    ) -> Result<u64, TransferData>
        requires filled { IsFilled t }
        requires whole { AsksWhole t to }
        ensures ticket { IfOk result (λ n. n ≡ length (tickets self.old.kernel.past)) }
        ensures ok { OnOk result (self.new ≡ bus_submitted self.old to deadline t) }
        ensures known { OnOk result
            (IfSome (submit_refusal self.old.kernel.devices self.old.kernel.armed to.device)
            IsErrno) }
        ensures holds { length self.old.holds ≡ length (tickets self.old.kernel.past) }
        ensures err { OnErr result (self.new ≡ self.old) }
        ensures back { IfErr result (λ back. back ≡ t) }
    {
        let mut data = t;
        if self.slots.reserve(1).is_err() {
            return Err(data);
        }
        let buffer = data.take_buffer();
        match self.kernel.submit(to.submission(deadline, buffer)) {
            Ok(submitted) => Ok(add_slot(&mut self.slots, to.key, data, submitted)),
            Err(back) => {
                data.set_buffer(back.buffer);
                Err(data)
            }
        }
    }

    /// The buffer of a transfer becomes the next ticket, which is refused with this errno.
    fn refuse_transfer(
        &mut self,
        to: Route,
        t: TransferData,
        errno: u16,
    ) -> Result<u64, TransferData>
        requires filled { IsFilled t }
        requires errno { IsErrno errno }
        ensures ticket { IfOk result (λ n. n ≡ length (tickets self.old.kernel.past)) }
        ensures ok { OnOk result (self.new ≡ bus_refused self.old to t errno) }
        ensures holds { length self.old.holds ≡ length (tickets self.old.kernel.past) }
        ensures err { OnErr result (self.new ≡ self.old) }
        ensures back { IfErr result (λ back. back ≡ t) }
    {
        let mut data = t;
        if self.slots.reserve(1).is_err() {
            return Err(data);
        }
        let buffer = data.take_buffer();
        match self.kernel.refuse(to.submission(None, buffer), errno) {
            Ok(submitted) => Ok(add_slot(&mut self.slots, to.key, data, submitted)),
            Err(back) => {
                data.set_buffer(back.buffer);
                Err(data)
            }
        }
    }

    /// A ticket that is held ends: its transfer, as far as it has come.
    fn end_ticket(&mut self, ticket: u64) -> TransferData
        requires held { IsSome (owner_at self.old.holds ticket) }
        ensures rest { self.new ≡ bus_without self.old ticket }
        ensures value { IsSome (bus_value self.old ticket)
            → bus_value self.old ticket ≡ Some result }
    {
        take_slot(&mut self.slots, ticket)
    }

    /// Discards a ticket that is not finished.
    fn discard_ticket(&mut self, ticket: u64)
        ensures bus { self.new ≡ bus_discarded self.old ticket }
    {
        self.kernel.discard(ticket);
    }

    /// A key is that of an open endpoint no more.
    fn close_key(&mut self, key: usize)
        requires key { key_at self.old.keys key ≡ true }
        ensures bus { self.new ≡ bus_closed self.old key }
    {
        self.keys[key] = false;
    }

    /// Reaps the lowest ticket that is finished and not reaped.
    fn take_turn(&mut self) -> Turn
        ensures turn { result ≡ bus_turn self.old }
        ensures bus { self.new ≡ bus_turned self.old }
    {
        match self.kernel.lowest_finished() {
            Some(ticket) => {
                let done = self.kernel.reap(ticket);
                store(&mut self.slots, done);
                Turn::Reaped
            }
            None => Turn::TimeUp,
        }
    }

    /// Raises the clock, and gives the timer its turn.
    fn raise_clock(&mut self, until: u64)
        ensures bus { self.new ≡ bus_idled self.old until }
    {
        self.kernel.idle(until);
        self.kernel.timer_turn();
    }
}

impl Slots<TransferData> for KernelBus {
    ghost stands = { λ h t. is_some (owner_at h.holds t) };

    ghost value = { bus_value };

    ghost taken = { bus_without };

    fn is_complete(&self, p: &Pending<TransferData>) -> bool {
        has_come(&self.slots, p.ticket())
    }

    fn into_idle(&mut self, p: Pending<TransferData>) -> Idle<TransferData>
        requires stands { IsTrue (is_some (owner_at self.old.holds p)) }
        requires complete { IsSome (bus_value self.old p) }
        ensures value { bus_value self.old p ≡ Some result }
        ensures rest { self.new ≡ bus_without self.old p }
    {
        let transfer = self.end_ticket(p.spend());
        Idle::new(transfer)
    }
}

impl Bus for KernelBus {
    ghost calls = { kernel_bus_calls };

    ghost handles_stand = { λ old new. Unit {0} };

    fn submit(
        &mut self,
        to: Route,
        t: Idle<TransferData>,
    ) -> Result<Pending<TransferData>, Idle<TransferData>> {
        match self.submit_transfer(to, None, t.into_inner()) {
            Ok(ticket) => Ok(Pending::new(ticket)),
            Err(back) => Err(Idle::new(back)),
        }
    }

    fn submit_by(
        &mut self,
        to: Route,
        t: Idle<TransferData>,
        deadline: u64,
    ) -> Result<Pending<TransferData>, Idle<TransferData>> {
        match self.submit_transfer(to, Some(deadline), t.into_inner()) {
            Ok(ticket) => Ok(Pending::new(ticket)),
            Err(back) => Err(Idle::new(back)),
        }
    }

    fn refuse(
        &mut self,
        to: Route,
        t: Idle<TransferData>,
        errno: u16,
    ) -> Result<Pending<TransferData>, Idle<TransferData>> {
        match self.refuse_transfer(to, t.into_inner(), errno) {
            Ok(ticket) => Ok(Pending::new(ticket)),
            Err(back) => Err(Idle::new(back)),
        }
    }

    fn discard(&mut self, p: &Pending<TransferData>) {
        self.discard_ticket(p.ticket());
    }

    fn abandon(&mut self, p: Pending<TransferData>) {
        let _transfer = self.end_ticket(p.spend());
    }

    fn leave(&mut self, endpoint_key: usize) {
        self.close_key(endpoint_key);
    }

    fn turn(&mut self) -> Turn {
        self.take_turn()
    }

    fn idle(&mut self, until: u64) {
        self.raise_clock(until);
    }

    fn now(&self) -> u64 {
        self.kernel.now()
    }

    fn clear_halt(&mut self, device: u8, endpoint: u8) -> Result<(), u16> {
        self.kernel.clear_halt(device, endpoint)
    }

    fn calls_keep_handles() {}

    ghost stands_is = { λ x t. refl };

    ghost value_is = { bus_value-holds };

    ghost taken_is = { λ x t. refl };

    ghost state_taken = { bus_of-without_owner };

    ghost handles_same = { λ x. tt };

    ghost handles_in_turn = { λ x y z first second. tt };
}
