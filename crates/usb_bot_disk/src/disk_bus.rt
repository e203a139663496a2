//! A bus with a simulated disk on one of its devices.

ghost use Rattle.std.specs.Prelude.{◌≡◌, ◌+◌, ◌<◌, ◌≤◌, ◌^◌, ◌++◌, ◌∷◌, [], true, length, replicate, Some, None, is_some, IsSome, IsTrue, if◌then◌else◌, IfOk, IfErr, OnOk, OnErr, option_and_then, refl};
ghost use Rattle.std.specs.Option.{ForSome};
ghost use Rattle.std.specs.Bool.{OnTrue};
ghost use Rattle.std.specs.Borrow.{sem};
ghost use Rattle.usb_xfer.specs.Transfers.{IsFilled, buffer_held};
ghost use Rattle.usb_kernel_devices.specs.declared.step.KernelStep.TheVariants as step;
ghost use Rattle.usb_kernel.specs.Tickets.{tickets};
ghost use Rattle.usb_kernel.specs.Journal.{open_tickets};
ghost use Rattle.usb_device_endpoint.specs.Routes.{GoesBy, AsksWhole};
ghost use Rattle.usb_device_endpoint.specs.EndpointState.{EndpointState};
ghost use Rattle.usb_device_endpoint.specs.Handles.{Stands};
ghost use Rattle.usb_device_endpoint.specs.Submitted.{IsSubmitted};
ghost use Rattle.usb_device_host.specs.HostBus.{bus_of, hold_at, key_at, host_value};
ghost use Rattle.usb_device_host.specs.HostCalls.{host_submitted};
ghost use Rattle.usb_device_host.specs.HostTurns.{all_stepped};
ghost use Rattle.usb_device_host.specs.HostLaws.{held-owned, value-held};
ghost use Rattle.usb_device_host.specs.TicketEnds.{host_taken};
ghost use Rattle.usb_device_host.specs.DeviceHandles.{handles-same, handles-in_turn};
ghost use Rattle.usb_bot_disk.specs.Machine.{listens};
ghost use Rattle.usb_bot_disk.specs.MachineFacts.{IsSound, HasCome};
ghost use Rattle.usb_bot_disk.specs.DiskState.{DiskState, disk_made};
ghost use Rattle.usb_bot_disk.specs.DiskTurns.{next_taken, next_sent, with_room, action_of, acted_by};
ghost use Rattle.usb_bot_disk.specs.DiskCalls.{length_by, full_packets, is_inp, dropped_by, prepared, disk_submitted, with_host, disk_bus_of, disk_calls, DiskHandlesStand};
ghost use Rattle.usb_bot_disk.specs.DiskBusFacts.{state-taken};

use crate::blanks::Blanks;
use crate::block_disk::BlockDisk;
use std::marker::Model;
use usb_desc::NoMemory;
use usb_device_endpoint::{Bus, Route, Turn};
use usb_device_host::Host;
use usb_kernel::{Kernel, KernelStep};
use usb_xfer::{Held, Idle, Pending, Slots, TransferData};

/// With this errno (EPIPE) the tickets fail that are open when what came is no wrapper.
const STALL: u16 = 32;

/// A host with a simulated disk behind two bulk endpoints of one of its devices. The disk goes on
/// in the turns of the bus, by one action a turn.
#[derive(Drop)]
pub struct DiskBus {
    host: Host,
    device: u8,
    out: u8,
    inp: u8,
    machine: BlockDisk,
    blanks: Blanks,
}

impl Model for DiskBus {
    ghost use Rattle.usb_bot_disk.specs.DiskState.{DiskState};

    ghost Value = { DiskState };

    ghost view = { λ b.
        record {
          host = b.host;
          device = b.device;
          out = b.out;
          inp = b.inp;
          machine = b.machine;
          blanks = b.blanks;
        } };
}

/// Fails the oldest open ticket of an endpoint, so many times.
fn fail_open(host: &mut Host, device: u8, endpoint: u8, count: usize)
    requires room { length host.old.steps + count ≤ host.old.kernel.spare }
    ensures host { host.new
        ≡ all_stepped host.old (replicate count (step.Fail device endpoint 32)) }
    ensures steps { host.new.steps ≡ host.old.steps }
    ensures spare { host.new.kernel.spare + count ≡ host.old.kernel.spare }
{
    for _ in 0..count {
        host.step(KernelStep::Fail {
            device,
            endpoint,
            errno: STALL,
        });
    }
}

/// How many tickets of an endpoint are open, where a packet is not accepted.
fn open_unless(accepted: bool, kernel: &Kernel, device: u8, endpoint: u8) -> usize
    ensures count { result ≡ (if accepted then 0
        else length (open_tickets kernel.now.past device endpoint)) }
{
    if accepted {
        0
    } else {
        kernel.open_count(device, endpoint)
    }
}

/// How many bytes a transfer moves by a route.
fn length_by(to: Route, t: &TransferData) -> usize
    requires filled { IsFilled t.now }
    ensures length { ForSome (buffer_held t.now.held) (λ b. result ≡ length_by to b) }
    ensures small { result < 2 ^ 31 }
{
    let Held::Filled(buffer) = &t.held else {
        unreachable!();
    };
    let len = buffer.len();
    if to.endpoint >= 128 {
        buffer.requested_len()
    } else {
        len
    }
}

/// How many packets of the maximum size so many bytes are.
fn full_packets(len: usize, maximum: usize) -> usize
    requires small { len < 2 ^ 31 }
    ensures count { result ≡ full_packets len maximum }
    ensures few { result < 2 ^ 31 }
    ensures fits { 0 < result → maximum < 2 ^ 31 }
{
    if maximum == 0 { 0 } else { len / maximum }
}

/// A transfer becomes the next ticket of a host, with a deadline or none.
fn submit_to_host(
    host: &mut Host,
    to: Route,
    deadline: Option<u64>,
    t: Idle<TransferData>,
) -> Result<Pending<TransferData>, Idle<TransferData>>
    requires key { key_at host.old.endpoints to.key ≡ true }
    requires goes { GoesBy t to }
    requires whole { AsksWhole t to }
    ensures ticket { IfOk result (λ p. p ≡ length (tickets host.old.kernel.past)) }
    ensures fresh { OnOk result
        ((bus_of host.old).owner (length (tickets host.old.kernel.past)) ≡ None) }
    ensures state { OnOk result
        (IsSubmitted (bus_of host.old) (bus_of host.new) to deadline t.held) }
    ensures left { OnOk result
        (128 ≤ to.endpoint → (bus_of host.new).turns_left ≤ (bus_of host.old).turns_left) }
    ensures ok { OnOk result (host.new ≡ host_submitted host.old to deadline t) }
    ensures err { OnErr result (host.new ≡ host.old) }
    ensures back { IfErr result (λ back. back ≡ t) }
{
    match deadline {
        Some(deadline) => host.submit_by(to, t, deadline),
        None => host.submit(to, t),
    }
}

impl DiskBus {
    ghost use Rattle.usb_bot_disk.specs.DiskLends.{LendsHost};

    /// A bus whose disk has not got a byte yet. It answers what comes to the OUT endpoint `out` of
    /// the device with this number at the kernel, on the IN endpoint `inp`.
    pub fn new(host: Host, disk: BlockDisk, device: u8, out: u8, inp: u8) -> DiskBus
        ensures bus { result ≡ disk_made host disk.disk device out inp }
        // an endpoint that stands at the host stands on the bus
        ensures stand { (e : EndpointState) → Stands (bus_of host) e →
            Stands (disk_bus_of result) e }
    {
        let blanks = Blanks::new(host.allocator());
        DiskBus {
            host,
            device,
            out,
            inp,
            machine: disk.restarted(),
            blanks,
        }
    }

    /// The host, for all that is no call of a bus.
    pub fn host_mut(&mut self) -> &mut Host
        ensures* writes_back { sem 𝓛 (LendsHost self.entry result) }
        ensures value { result.now ≡ self.old.host }
    {
        &mut self.host
    }

    /// The disk, as it is now.
    pub fn disk(&self) -> &BlockDisk
        ensures disk { result.now ≡ self.now.machine }
    {
        &self.machine
    }

    /// Whether a route leads to the endpoint on which the disk sends.
    fn is_inp(&self, to: Route) -> bool
        ensures inp { result ≡ is_inp self.now to }
    {
        to.device == self.device && to.endpoint == self.inp
    }

    /// The disk listens, and takes the packet that stands at the OUT endpoint, if one stands there
    /// and there is room for the steps.
    fn take_packet(&mut self) -> bool
        ensures acts { result
            ≡ is_some (option_and_then (with_room self.old) (next_taken self.old)) }
        ensures bus { self.new
            ≡ acted_by self.old (option_and_then (with_room self.old) (next_taken self.old)) }
        ensures sound { OnTrue result (IsSound self.new.machine.disk self.new.machine.stage) }
    {
        let kernel = self.host.kernel();
        let Some(maximum) = kernel.front_maximum(self.device, self.out) else {
            return false;
        };
        let Some(packet) = kernel.front_packet(self.device, self.out) else {
            return false;
        };
        if maximum == 0 {
            return false;
        }
        let accepted = self.machine.accepts(packet, maximum);
        let outs = open_unless(accepted, kernel, self.device, self.out);
        let ins = open_unless(accepted, kernel, self.device, self.inp);
        if self.host.room().saturating_sub(outs) <= ins {
            return false;
        }
        self.machine.take(packet, maximum);
        self.host.step(KernelStep::Ack {
            device: self.device,
            endpoint: self.out,
        });
        fail_open(&mut self.host, self.device, self.out, outs);
        fail_open(&mut self.host, self.device, self.inp, ins);
        true
    }

    /// The disk sends the next packet, if a ticket is open for it, an empty packet is ready, and
    /// there is room for the step.
    fn send_packet(&mut self) -> bool
        ensures acts { result
            ≡ is_some (option_and_then (with_room self.old) (next_sent self.old)) }
        ensures bus { self.new
            ≡ acted_by self.old (option_and_then (with_room self.old) (next_sent self.old)) }
    {
        let Some(maximum) = self.host.kernel().front_maximum(self.device, self.inp) else {
            return false;
        };
        let Some(size) = self.blanks.first() else {
            return false;
        };
        let count = self.machine.next_len(maximum);
        if maximum == 0 || count > size || self.host.room() == 0 {
            return false;
        }
        let blank = self.blanks.take_first();
        let bytes = self.machine.next_packet(maximum, blank);
        self.machine.go_on(count);
        self.host.step(KernelStep::Packet {
            device: self.device,
            endpoint: self.inp,
            bytes,
        });
        true
    }

    /// One action of the disk, if one is possible and there is room for its steps.
    fn act(&mut self) -> bool
        ensures acts { result ≡ is_some (action_of self.old) }
        ensures bus { self.new ≡ acted_by self.old (action_of self.old) }
        ensures before { IsSound self.old.machine.disk self.old.machine.stage }
        ensures came { HasCome self.old.machine.disk self.old.machine.got self.old.machine.stage }
        ensures after { OnTrue result (listens self.old.machine.stage ≡ true
            → IsSound self.new.machine.disk self.new.machine.stage) }
    {
        if self.machine.listens() {
            self.take_packet()
        } else {
            self.send_packet()
        }
    }

    /// How many of the empty packets that are ready a submission drops: all of them, where no ticket
    /// is open that they can be for.
    fn dropped_by(&self, to: Route) -> usize
        ensures dropped { result ≡ dropped_by self.now to }
    {
        if self.is_inp(to) && !self.host.kernel().has_open(self.device, self.inp) {
            self.blanks.len()
        } else {
            0
        }
    }

    /// Makes all ready for a transfer of `len` bytes by a route: room for its packets and for one
    /// step more, and the empty packets that the disk may send into it.
    ///
    /// # Errors
    ///
    /// Want of memory. Nothing has changed.
    fn prepare(&mut self, to: Route, len: usize) -> Result<(), NoMemory>
        requires small { len < 2 ^ 31 }
        ensures ok { OnOk result (self.new ≡ prepared self.old to len) }
        ensures err { OnErr result (self.new ≡ self.old) }
    {
        let count = full_packets(len, to.maximum);
        let had = self.host.room();
        let Some(room) = had.checked_add(count + 2) else {
            return Err(NoMemory);
        };
        self.host.reserve(room)?;
        if !self.is_inp(to) {
            return Ok(());
        }
        let added = self.blanks.add(count, to.maximum);
        if added.is_err() {
            self.host.give_up_room(had);
        }
        added
    }

    /// A transfer becomes the next ticket, with a deadline or none.
    fn submit_prepared(
        &mut self,
        to: Route,
        deadline: Option<u64>,
        t: Idle<TransferData>,
    ) -> Result<Pending<TransferData>, Idle<TransferData>>
        requires key { key_at self.old.host.endpoints to.key ≡ true }
        requires goes { GoesBy t to }
        requires whole { AsksWhole t to }
        ensures ticket { IfOk result (λ p. p ≡ length (tickets self.old.host.kernel.past)) }
        ensures fresh { OnOk result ((bus_of self.old.host).owner
            (length (tickets self.old.host.kernel.past)) ≡ None) }
        ensures state { OnOk result
            (IsSubmitted (bus_of self.old.host) (bus_of self.new.host) to deadline t.held) }
        ensures left { OnOk result (128 ≤ to.endpoint → (bus_of self.new.host).turns_left
            ≤ (bus_of self.old.host).turns_left) }
        ensures ok { OnOk result (self.new ≡ disk_submitted self.old to deadline t) }
        ensures err { OnErr result (self.new ≡ self.old) }
        ensures back { IfErr result (λ back. back ≡ t) }
    {
        let dropped = self.dropped_by(to);
        let room = self.host.room();
        let blanks = self.blanks.len();
        let len = length_by(to, &t);
        let Ok(()) = self.prepare(to, len) else {
            return Err(t);
        };
        match submit_to_host(&mut self.host, to, deadline, t) {
            Ok(pending) => {
                self.blanks.forget(dropped);
                Ok(pending)
            }
            Err(back) => {
                self.blanks.truncate(blanks);
                self.host.give_up_room(room);
                Err(back)
            }
        }
    }
}

impl Slots<TransferData> for DiskBus {
    ghost stands = { λ b t. is_some (hold_at b.host.tickets t) };

    ghost value = { λ b t. host_value b.host t };

    ghost taken = { λ b t. with_host b (host_taken b.host t) };

    fn is_complete(&self, p: &Pending<TransferData>) -> bool {
        self.host.is_complete(p)
    }

    fn into_idle(&mut self, p: Pending<TransferData>) -> Idle<TransferData>
        requires stands { IsTrue (is_some (hold_at self.old.host.tickets p)) }
        requires complete { IsSome (host_value self.old.host p) }
        ensures value { host_value self.old.host p ≡ Some result }
        ensures rest { self.new ≡ with_host self.old (host_taken self.old.host p) }
    {
        self.host.into_idle(p)
    }
}

impl Bus for DiskBus {
    ghost calls = { disk_calls };

    ghost handles_stand = { DiskHandlesStand };

    fn submit(
        &mut self,
        to: Route,
        t: Idle<TransferData>,
    ) -> Result<Pending<TransferData>, Idle<TransferData>> {
        self.submit_prepared(to, None, t)
    }

    fn submit_by(
        &mut self,
        to: Route,
        t: Idle<TransferData>,
        deadline: u64,
    ) -> Result<Pending<TransferData>, Idle<TransferData>> {
        self.submit_prepared(to, Some(deadline), t)
    }

    fn refuse(
        &mut self,
        to: Route,
        t: Idle<TransferData>,
        errno: u16,
    ) -> Result<Pending<TransferData>, Idle<TransferData>> {
        self.host.refuse(to, t, errno)
    }

    fn discard(&mut self, p: &Pending<TransferData>) {
        self.host.discard(p);
    }

    fn abandon(&mut self, p: Pending<TransferData>) {
        self.host.abandon(p);
    }

    fn leave(&mut self, endpoint_key: usize) {
        self.host.leave(endpoint_key);
    }

    fn turn(&mut self) -> Turn {
        if self.act() {
            let _count = self.host.tickets();
            return Turn::Stepped;
        }
        self.host.turn()
    }

    fn idle(&mut self, until: u64) {
        self.host.idle(until);
    }

    fn now(&self) -> u64 {
        self.host.now()
    }

    fn clear_halt(&mut self, device: u8, endpoint: u8) -> Result<(), u16> {
        self.host.clear_halt(device, endpoint)
    }

    fn calls_keep_handles() {}

    ghost stands_is = { λ b t. held-owned b.host t };

    ghost value_is = { λ b t. value-held b.host t };

    ghost taken_is = { λ b t. refl };

    ghost state_taken = { state-taken };

    ghost handles_same = { λ b. handles-same b.host };

    ghost handles_in_turn = { λ x y z. handles-in_turn x.host y.host z.host };
}
