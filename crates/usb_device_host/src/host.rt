//! The host: a kernel, and what is open on it.

ghost use Rattle.std.specs.Prelude.{◌≡◌, ◌+◌, ◌<◌, ◌≤◌, ◌++◌, ◌∷◌, [], ℕ, List, length, set, true, false, IsSome, is_some, IsTrue, OnOk, OnErr, IfOk, IfErr, IfSome, slice_get, option_and_then, Option, Some, None, refl};
ghost use Rattle.std.specs.Option.{ForSome};
ghost use Rattle.std.specs.List.{All};
ghost use Rattle.usb_xfer.specs.declared.transfer.Held.{Held};
ghost use Rattle.usb_kernel.specs.declared.event.Event.{Event};
ghost use Rattle.usb_kernel_devices.specs.declared.step.KernelStep.{KernelStep};
ghost use Rattle.usb_kernel.specs.Tickets.{tickets};
ghost use Rattle.usb_device_tables.specs.History.{live_count};
ghost use Rattle.usb_kernel.specs.Completions.{completion};
ghost use Rattle.usb_kernel_devices.specs.Errnos.{IsErrno};
ghost use Rattle.usb_kernel.specs.Submits.{number_of, submit_refusal};
ghost use Rattle.usb_kernel.specs.Steps.{HasErrno};
ghost use Rattle.usb_device_endpoint.specs.Routes.{GoesBy, AsksWhole};
ghost use Rattle.usb_kernel.specs.Holds.{held_at_once};
ghost use Rattle.usb_kernel.specs.TransferCompletions.{CompletesOnly};
ghost use Rattle.usb_device_ledger.specs.declared.opened.OpenDevice.{OpenDevice};
ghost use Rattle.usb_device_host.specs.HostState.{HostState, host_of};
ghost use Rattle.usb_device_ledger.specs.EndedTickets.{end_at};
ghost use Rattle.usb_device_host.specs.HostBus.{hold_at, owner_at, key_at, host_value};
ghost use Rattle.usb_device_host.specs.HostBusFacts.{bus_of-taken};
ghost use Rattle.usb_device_host.specs.DeviceHandles.{DeviceHandlesStand, handles-same, handles-in_turn};
ghost use Rattle.usb_device_host.specs.HeldTransfers.{host_transfer};
ghost use Rattle.usb_device_host.specs.HostCalls.{host_submitted, host_refused, host_discarded, host_left, host_timed, host_idled, host_halt_result, host_halt_cleared, host_calls};
ghost use Rattle.usb_device_host.specs.HostFrames.{HostGoesOn};
ghost use Rattle.usb_device_host.specs.Finishes.{finished, HasEnds, HasCompletions};
ghost use Rattle.usb_device_host.specs.HostFacts.{TicketsAgree, host_made};
ghost use Rattle.usb_device_host.specs.HostLaws.{held-owned, value-held};
ghost use Rattle.usb_device_host.specs.HostTurns.{host_stepped, host_reaped, host_turned, host_turn, host_rest};
ghost use Rattle.usb_device_ledger.specs.LedgerState.{ticket_key, host_ticket};
ghost use Rattle.usb_device_ledger.specs.Kept.{EachIsOwned, EachLives};
ghost use Rattle.usb_device_host.specs.Releases.{without_ended};
ghost use Rattle.usb_device_host.specs.TicketEnds.{host_ended, host_taken, host_abandoned, came};

use std::alloc::Global;
use std::collections::VecDeque;
use std::marker::Model;
use usb_device_endpoint::{Bus, Route, Turn};
use usb_device_ledger::{Devices, EndedClaim, Ledger, TicketEnd};
use usb_kernel::{Done, Kernel, KernelStep, Submitted, completion_from};
use usb_xfer::{Held, Idle, Pending, Slots, TransferData};

/// A kernel, what is open on it, and the steps of a line that are left.
///
/// ```
/// let kernel = Kernel::new(alloc, devices)?;
/// let mut host = Host::new(alloc, kernel);
/// let opened = Device::open_at(&mut host, 1, 6);
/// ```
#[derive(Drop)]
pub struct Host {
    pub(crate) kernel: Kernel,
    pub(crate) devices: Devices,
    pub(crate) ledger: Ledger,
    pub(crate) steps: VecDeque<KernelStep>,
}

impl Model for Host {
    ghost use Rattle.usb_device_host.specs.HostState.{HostState};
    ghost use Rattle.usb_device_host.specs.HostFacts.{host_made, IsMatched};

    ghost Value = { HostState };

    ghost view = { λ h. host_made h.kernel h.devices h.ledger h.steps.items };

    ghost invariant = { IsMatched };
}

/// Ends a claim at the kernel, if one ends, and has the driver attached where that was noted.
pub(crate) fn release(kernel: &mut Kernel, ended: Option<EndedClaim>)
    ensures kernel { kernel.new ≡ without_ended kernel.old ended }
    ensures rest { kernel.new
        ≡ record kernel.old { devices = kernel.new.devices; armed = kernel.new.armed } }
{
    if let Some(claim) = ended {
        let _ = kernel.release(claim.device, claim.number);
        if claim.reattach {
            let _ = kernel.attach(claim.device, claim.number);
        }
    }
}

/// A completion has come, or none.
fn complete(kernel: &mut Kernel, ledger: &mut Ledger, arrived: Option<Done>)
    requires within { ForSome arrived (λ done. done.ticket < length ledger.old.slots) }
    ensures host { (devices : List (Option OpenDevice)) (steps : List KernelStep) →
        host_made kernel.new devices ledger.new steps ≡
        came (host_made kernel.old devices ledger.old steps) arrived }
    ensures agree { (past : List Event) → TicketsAgree past ledger.old.slots →
        CompletesOnly past kernel.old.past arrived → TicketsAgree kernel.new.past ledger.new.slots }
    ensures spare { kernel.new.spare ≡ kernel.old.spare }
{
    let Some(done) = arrived else {
        return;
    };
    let ended = ledger.complete(done);
    release(kernel, ended);
}

/// What a submission gave: the ticket's number, and what its transfer holds.
#[derive(Drop)]
pub(crate) struct NewTicket {
    pub ticket: u64,
    pub held: Held,
}

/// A refused ticket has its completion at once.
pub(crate) fn ticket_from(submitted: Submitted) -> NewTicket
    ensures ticket { result.ticket ≡ number_of submitted }
    ensures held { result.held ≡ held_at_once submitted }
{
    match submitted {
        Submitted::Queued(ticket) => NewTicket {
            ticket,
            held: Held::Nothing,
        },
        Submitted::Refused(done) => NewTicket {
            ticket: done.ticket,
            held: Held::Complete(completion_from(done)),
        },
    }
}

impl Host {
    /// A host of a kernel that has no ticket.
    pub fn new(alloc: Global, kernel: Kernel) -> Host
        requires none { tickets kernel.past ≡ [] }
        ensures host { result ≡ host_of kernel }
    {
        Host {
            kernel,
            devices: Devices::new(alloc),
            ledger: Ledger::new(alloc),
            steps: VecDeque::new(alloc),
        }
    }

    /// The allocator that it was made with, from which what is open on it takes memory.
    pub fn allocator(&self) -> Global {
        *self.steps.allocator()
    }

    /// How many open devices there is memory for at once.
    pub fn device_capacity(&self) -> usize
        ensures holds_all { live_count self.now.devices ≤ result }
    {
        self.devices.capacity()
    }

    /// How many claimed interfaces there is memory for at once.
    pub fn interface_capacity(&self) -> usize
        ensures holds_all { live_count self.now.interfaces ≤ result }
    {
        self.ledger.claim_capacity()
    }

    /// How many endpoints are kept: those that are open, and those that were closed and have a ticket
    /// without an end.
    pub fn endpoint_count(&self) -> usize
        ensures live { result ≡ live_count self.now.endpoints }
    {
        self.ledger.endpoint_count()
    }

    /// Nothing is kept that has gone: each claimed interface has an owner, and each endpoint lives.
    /// That is so of all hosts, and the call does nothing.
    pub fn nothing_is_kept_that_has_gone(&self)
        ensures owned { EachIsOwned self.now.tickets self.now.endpoints self.now.interfaces }
        ensures alive { EachLives self.now.tickets self.now.endpoints }
    {
        self.ledger.nothing_is_kept_that_has_gone();
    }

    /// The kernel.
    pub fn kernel(&self) -> &Kernel
        ensures kernel { result.now ≡ self.now.kernel }
    {
        &self.kernel
    }

    /// The number of tickets.
    pub fn tickets(&self) -> u64
        ensures number { result ≡ length (tickets self.now.kernel.past) }
        ensures count { result ≡ length self.now.tickets }
    {
        self.kernel.tickets()
    }

    /// The kernel, taken out.
    pub fn into_kernel(self) -> Kernel
        ensures kernel { result ≡ self.kernel }
    {
        let Host { kernel, .. } = self;
        kernel
    }

    /// Hands the steps of a line over. None may be left, and the kernel must have a place for each.
    pub fn lend_steps(&mut self, steps: Vec<KernelStep>)
        requires none { self.old.steps ≡ [] }
        requires room { length steps.items ≤ self.old.kernel.spare }
        requires errnos { All HasErrno steps.items }
        ensures steps { self.new ≡ record self.old { steps = steps.items } }
    {
        self.steps = VecDeque::from_vec(steps);
    }

    /// A step between the lines. The kernel must have a place for it beside those of the steps that
    /// are left.
    pub fn step(&mut self, step: KernelStep)
        requires room { length self.old.steps < self.old.kernel.spare }
        requires errno { HasErrno step }
        ensures stepped { self.new ≡ host_stepped self.old step }
    {
        let arrived = self.kernel.step_once(step);
        complete(&mut self.kernel, &mut self.ledger, arrived);
    }

    /// Reaps a ticket, where it is finished and not reaped.
    fn reap(&mut self, ticket: u64)
        ensures reaped { self.new ≡ host_reaped self.old ticket }
    {
        let arrived = self.kernel.reap(ticket);
        complete(&mut self.kernel, &mut self.ledger, arrived);
    }

    /// Applies the steps that are left, in order.
    pub fn rest(&mut self)
        ensures rest { self.new ≡ host_rest self.old }
    {
        while let Some(step) = self.steps.pop_front() {
            self.step(step);
        }
    }

    /// The end of a ticket, if it has one.
    pub fn ticket_end(&self, ticket: u64) -> Option<TicketEnd>
        ensures end { result ≡ end_at self.now.tickets ticket }
    {
        self.ledger.end_of(ticket)
    }

    /// Discards the tickets that are not finished, by number, and then reaps those that are not
    /// reaped, by number.
    pub fn finish(&mut self)
        ensures finished { self.new ≡ finished self.old }
        ensures ended { ((t : ℕ) → owner_at self.old.tickets t ≡ None) → HasEnds self.new.tickets }
        ensures reaped { HasCompletions self.new.kernel.past }
    {
        let count = self.kernel.tickets();
        for ticket in 0..count {
            self.discard_ticket(ticket);
        }
        for ticket in 0..count {
            self.reap(ticket);
        }
    }

    /// A transfer becomes the next ticket, with a deadline or none, refused or not, which the
    /// endpoint of the route's key holds.
    fn submit_transfer(
        &mut self,
        to: Route,
        deadline: Option<u64>,
        t: TransferData,
    ) -> Result<u64, TransferData>
        requires key { key_at self.old.endpoints to.key ≡ true }
        requires goes { GoesBy t to }
        requires whole { AsksWhole t to }
        ensures ticket { IfOk result (λ n. n ≡ length (tickets self.old.kernel.past)) }
        ensures count { length self.old.tickets ≡ length (tickets self.old.kernel.past) }
        ensures ok { OnOk result (self.new ≡ host_submitted self.old to deadline t) }
        ensures known { OnOk result
            (IfSome (submit_refusal self.old.kernel.devices self.old.kernel.armed to.device)
            IsErrno) }
        ensures err { OnErr result (self.new ≡ self.old) }
        ensures back { IfErr result (λ back. back ≡ t) }
    {
        let mut transfer = t;
        if self.ledger.reserve().is_err() {
            return Err(transfer);
        }
        let buffer = transfer.take_buffer();
        match self.kernel.submit(to.submission(deadline, buffer)) {
            Ok(submitted) => {
                let entry = ticket_from(submitted);
                transfer.held = entry.held;
                self.ledger.hold(to.key, transfer);
                Ok(entry.ticket)
            }
            Err(back) => {
                transfer.set_buffer(back.buffer);
                Err(transfer)
            }
        }
    }

    /// A transfer becomes the next ticket, refused with this errno, which the endpoint of the
    /// route's key holds.
    fn refuse_transfer(
        &mut self,
        to: Route,
        t: TransferData,
        errno: u16,
    ) -> Result<u64, TransferData>
        requires key { key_at self.old.endpoints to.key ≡ true }
        requires goes { GoesBy t to }
        requires errno { IsErrno errno }
        ensures ticket { IfOk result (λ n. n ≡ length (tickets self.old.kernel.past)) }
        ensures count { length self.old.tickets ≡ length (tickets self.old.kernel.past) }
        ensures ok { OnOk result (self.new ≡ host_refused self.old to t errno) }
        ensures err { OnErr result (self.new ≡ self.old) }
        ensures back { IfErr result (λ back. back ≡ t) }
    {
        let mut transfer = t;
        if self.ledger.reserve().is_err() {
            return Err(transfer);
        }
        let buffer = transfer.take_buffer();
        match self.kernel.refuse(to.submission(None, buffer), errno) {
            Ok(submitted) => {
                let entry = ticket_from(submitted);
                transfer.held = entry.held;
                self.ledger.hold(to.key, transfer);
                Ok(entry.ticket)
            }
            Err(back) => {
                transfer.set_buffer(back.buffer);
                Err(transfer)
            }
        }
    }

    /// Whether the completion of a ticket that an endpoint holds has come.
    pub(crate) fn has_come(&self, ticket: u64) -> bool
        requires held { IsSome (hold_at self.now.tickets ticket) }
        ensures come { result ≡ is_some (host_value self.now ticket) }
        ensures reaped { result ≡ is_some (completion self.now.kernel.past ticket) }
    {
        self.reaped(ticket).is_some()
    }

    /// A ticket that an endpoint holds has its end.
    pub(crate) fn end_ticket(&mut self, ticket: u64, end: TicketEnd) -> Option<TransferData>
        requires held { IsSome (hold_at self.old.tickets ticket) }
        ensures ended { self.new ≡ host_ended self.old ticket end }
        ensures value { IsSome (host_value self.old ticket) → result ≡ host_value self.old ticket }
        ensures transfer { result ≡ host_transfer self.old ticket }
    {
        let ending = self.ledger.end(ticket as usize, end);
        release(&mut self.kernel, ending.claim);
        ending.transfer
    }

    /// An endpoint gives a ticket up that it holds: its transfer is dropped where it was reaped,
    /// else reclaimed at its reap.
    pub fn abandon_ticket(&mut self, ticket: u64)
        requires held { IsSome (hold_at self.old.tickets ticket) }
        ensures abandoned { self.new ≡ host_abandoned self.old ticket }
    {
        if self.has_come(ticket) {
            let _ = self.end_ticket(ticket, TicketEnd::Dropped);
            return;
        }
        self.ledger.give_up(ticket as usize);
    }

    /// Discards a ticket, where it is not finished.
    fn discard_ticket(&mut self, ticket: u64)
        ensures discarded { self.new ≡ host_discarded self.old ticket }
    {
        self.kernel.discard(ticket);
    }

    /// The endpoint of this key is closed. Once no ticket is left to it either its entry goes, and
    /// with the last owner of its interface the claim ends.
    pub fn leave_endpoint(&mut self, key: usize)
        requires key { key_at self.old.endpoints key ≡ true }
        ensures left { self.new ≡ host_left self.old key }
    {
        let ended = self.ledger.leave(key);
        release(&mut self.kernel, ended);
    }

    /// Goes on by a step, or by a reap.
    pub(crate) fn take_turn(&mut self) -> Turn
        ensures turn { result ≡ host_turn self.old }
        ensures next { self.new ≡ host_turned self.old }
    {
        if let Some(step) = self.steps.pop_front() {
            self.step(step);
            return Turn::Stepped;
        }
        match self.kernel.lowest_finished() {
            Some(ticket) => {
                self.reap(ticket);
                Turn::Reaped
            }
            None => Turn::TimeUp,
        }
    }

    /// A turn of the timer: the tickets that are not finished and whose deadline is at most the
    /// clock are discarded.
    pub fn timer(&mut self)
        ensures timed { self.new ≡ host_timed self.old }
        ensures went { HostGoesOn self.old self.new }
    {
        self.kernel.timer_turn();
    }

    /// Raises the clock, and gives the timer its turn.
    pub(crate) fn raise_clock(&mut self, until: u64)
        ensures idled { self.new ≡ host_idled self.old until }
    {
        self.kernel.idle(until);
        self.kernel.timer_turn();
    }

    /// Clears the halt of an endpoint at the kernel, which keeps none. An armed refusal is used up.
    fn ask_clear_halt(&mut self, device: u8, endpoint: u8) -> Result<(), u16>
        ensures result { result ≡ host_halt_result self.old device endpoint }
        ensures cleared { self.new ≡ host_halt_cleared self.old device endpoint }
    {
        self.kernel.clear_halt(device, endpoint)
    }

    /// The number of tickets.
    fn count(&self) -> usize
        ensures count { result ≡ length (tickets self.now.kernel.past) }
    {
        self.ledger.count()
    }
}

impl Slots<TransferData> for Host {
    ghost stands = { λ h t. is_some (hold_at h.tickets t) };

    ghost value = { host_value };

    ghost taken = { host_taken };

    fn is_complete(&self, p: &Pending<TransferData>) -> bool {
        self.has_come(p.ticket())
    }

    fn into_idle(&mut self, p: Pending<TransferData>) -> Idle<TransferData>
        requires stands { IsTrue (is_some (hold_at self.old.tickets p)) }
        requires complete { IsSome (host_value self.old p) }
        ensures value { host_value self.old p ≡ Some result }
        ensures rest { self.new ≡ host_taken self.old p }
    {
        let transfer = self.end_ticket(p.spend(), TicketEnd::Taken);
        Idle::new(transfer.unwrap())
    }
}

impl Bus for Host {
    ghost calls = { host_calls };

    ghost handles_stand = { DeviceHandlesStand };

    fn submit(
        &mut self,
        to: Route,
        t: Idle<TransferData>,
    ) -> Result<Pending<TransferData>, Idle<TransferData>> {
        match self.submit_transfer(to, None, t.into_inner()) {
            Ok(ticket) => Ok(Pending::new(ticket)),
            Err(back) => Err(Idle::new(back)),
        }
    }

    fn submit_by(
        &mut self,
        to: Route,
        t: Idle<TransferData>,
        deadline: u64,
    ) -> Result<Pending<TransferData>, Idle<TransferData>> {
        match self.submit_transfer(to, Some(deadline), t.into_inner()) {
            Ok(ticket) => Ok(Pending::new(ticket)),
            Err(back) => Err(Idle::new(back)),
        }
    }

    fn refuse(
        &mut self,
        to: Route,
        t: Idle<TransferData>,
        errno: u16,
    ) -> Result<Pending<TransferData>, Idle<TransferData>> {
        match self.refuse_transfer(to, t.into_inner(), errno) {
            Ok(ticket) => Ok(Pending::new(ticket)),
            Err(back) => Err(Idle::new(back)),
        }
    }

    fn discard(&mut self, p: &Pending<TransferData>) {
        self.discard_ticket(p.ticket());
    }

    fn abandon(&mut self, p: Pending<TransferData>) {
        self.abandon_ticket(p.spend());
    }

    fn leave(&mut self, endpoint_key: usize) {
        self.leave_endpoint(endpoint_key);
    }

    fn turn(&mut self) -> Turn {
        let turn = self.take_turn();
        let _count = self.count();
        turn
    }

    fn idle(&mut self, until: u64) {
        self.raise_clock(until);
    }

    fn now(&self) -> u64 {
        self.kernel.now()
    }

    fn clear_halt(&mut self, device: u8, endpoint: u8) -> Result<(), u16> {
        self.ask_clear_halt(device, endpoint)
    }

    fn calls_keep_handles() {}

    ghost stands_is = { held-owned };

    ghost value_is = { value-held };

    ghost taken_is = { λ h t. refl };

    ghost state_taken = { bus_of-taken };

    ghost handles_same = { handles-same };

    ghost handles_in_turn = { handles-in_turn };
}
