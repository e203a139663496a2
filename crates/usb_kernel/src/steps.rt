//! Steps: what comes to a kernel from its devices, from time and from a reaping.

ghost use Rattle.std.specs.Prelude.{◌≡◌, ◌+◌, ◌*◌, ◌<◌, ◌≤◌, ◌++◌, ◌∷◌, [], max, Some};
ghost use Rattle.usb_kernel.specs.Tickets.{tickets};
ghost use Rattle.usb_kernel_devices.specs.Errnos.{IsErrno};
ghost use Rattle.usb_kernel.specs.declared.event.Event.{Event};
ghost use Rattle.usb_kernel_devices.specs.Devices.{devices_unplugged};
ghost use Rattle.usb_kernel.specs.Steps.{after_packet, after_ack, after_echo, after_fail, after_unplug, reaped_by, after_reap_of, reapable_of, stepped, step_done, devices_stepped, clock_stepped, armed_stepped, HasErrno};
ghost use Rattle.usb_kernel.specs.Timers.{timer_turned};
ghost use Rattle.usb_kernel.specs.Info.{unreaped};
ghost use Rattle.usb_kernel.specs.Overdue.{overdue_count};
ghost use Rattle.usb_kernel.specs.Looks.{looks};

use crate::errno;
use crate::event::Event;
use crate::journal::put;
use crate::kernel::Kernel;
use crate::looks::Steps;
use crate::submission::Done;
use std::sync::ledger::Ledger;
use usb_kernel_devices::{Armed, Bytes, KernelStep, unplug_device};

impl Kernel {
    /// Applies a step, which uses one place of `spare` whether it acts or not. It takes no memory.
    /// The count of look-ups at records of tickets rises by at most `looks`.
    pub fn step<L: Ledger>(&mut self, step: KernelStep, steps: &mut Steps<L>) -> Option<Done>
        requires spare { 1 ≤ self.old.spare }
        requires errno { HasErrno step }
        ensures past { self.new.past ≡ stepped self.old.devices self.old.clock self.old.past step }
        ensures done { result ≡ step_done self.old.past step }
        ensures devices { self.new.devices ≡ devices_stepped self.old.devices step }
        ensures clock { self.new.clock ≡ clock_stepped self.old.clock step }
        ensures armed { self.new.armed ≡ armed_stepped self.old.armed step }
        ensures spare { self.new.spare + 1 ≡ self.old.spare }
        ensures looks { steps.new ≤ steps.old + looks self.old step }
    {
        match step {
            KernelStep::Packet {
                device,
                endpoint,
                bytes,
            } => self.packet(device, endpoint, bytes, steps),
            KernelStep::Ack { device, endpoint } => self.ack(device, endpoint, steps),
            KernelStep::Echo {
                device,
                output,
                input,
            } => self.echo(device, output, input, steps),
            KernelStep::Fail {
                device,
                endpoint,
                errno,
            } => self.fail(device, endpoint, errno, steps),
            KernelStep::Unplug { device } => self.unplug(device, steps),
            KernelStep::Clock { to } => self.clock(to),
            KernelStep::Timer => self.timer(steps),
            KernelStep::Reap { ticket } => return self.reap_step(ticket, steps),
            KernelStep::Refuse {
                device,
                call,
                errno,
            } => self.arm(Armed {
                device,
                call,
                errno,
            }),
        }
        None
    }

    /// A packet comes to an endpoint: it goes to the oldest IN ticket.
    fn packet<L: Ledger>(&mut self, device: u8, endpoint: u8, bytes: Bytes, steps: &mut Steps<L>)
        requires spare { 1 ≤ self.old.spare }
        ensures past { self.new.past ≡ after_packet self.old.past device endpoint bytes }
        ensures spare { self.new.spare + 1 ≡ self.old.spare }
        ensures rest { self.new ≡ record self.old { past = self.new.past; spare = self.new.spare } }
        ensures looks { steps.new ≤ steps.old + 2 }
    {
        self.spare -= 1;
        if let Some(freed) = self
            .tickets
            .give_packet(device, endpoint, bytes.as_slice(), steps)
        {
            self.owed -= freed;
            put(
                &mut self.journal,
                Event::Packet {
                    device,
                    endpoint,
                    bytes,
                },
            );
        }
    }

    /// An endpoint acknowledges a packet of its oldest OUT ticket.
    fn ack<L: Ledger>(&mut self, device: u8, endpoint: u8, steps: &mut Steps<L>)
        requires spare { 1 ≤ self.old.spare }
        ensures past { self.new.past ≡ after_ack self.old.past device endpoint }
        ensures spare { self.new.spare + 1 ≡ self.old.spare }
        ensures rest { self.new ≡ record self.old { past = self.new.past; spare = self.new.spare } }
        ensures looks { steps.new ≤ steps.old + 2 }
    {
        self.spare -= 1;
        if let Some(freed) = self.tickets.give_ack(device, endpoint, steps) {
            self.owed -= freed;
            put(&mut self.journal, Event::Ack { device, endpoint });
        }
    }

    /// An endpoint acknowledges a packet of its oldest OUT ticket, which goes to the oldest IN
    /// ticket of another.
    fn echo<L: Ledger>(&mut self, device: u8, output: u8, input: u8, steps: &mut Steps<L>)
        requires spare { 1 ≤ self.old.spare }
        ensures past { self.new.past ≡ after_echo self.old.past device output input }
        ensures spare { self.new.spare + 1 ≡ self.old.spare }
        ensures rest { self.new ≡ record self.old { past = self.new.past; spare = self.new.spare } }
        ensures looks { steps.new ≤ steps.old + 4 }
    {
        self.spare -= 1;
        if let Some(freed) = self.tickets.give_echo(device, output, input, steps) {
            self.owed -= freed;
            put(
                &mut self.journal,
                Event::Echo {
                    device,
                    output,
                    input,
                },
            );
        }
    }

    /// The oldest ticket of an endpoint fails.
    fn fail<L: Ledger>(&mut self, device: u8, endpoint: u8, errno: u16, steps: &mut Steps<L>)
        requires spare { 1 ≤ self.old.spare }
        requires errno { IsErrno errno }
        ensures past { self.new.past ≡ after_fail self.old.past device endpoint errno }
        ensures spare { self.new.spare + 1 ≡ self.old.spare }
        ensures rest { self.new ≡ record self.old { past = self.new.past; spare = self.new.spare } }
        ensures looks { steps.new ≤ steps.old + 2 }
    {
        self.spare -= 1;
        if self.tickets.fail_oldest(device, endpoint, errno, steps) {
            self.owed -= 1;
            put(
                &mut self.journal,
                Event::Fail {
                    device,
                    endpoint,
                    errno,
                },
            );
        }
    }

    /// A plugged device is gone, and its tickets are finished.
    pub(crate) fn unplug<L: Ledger>(&mut self, device: u8, steps: &mut Steps<L>)
        requires spare { 1 ≤ self.old.spare }
        ensures past { self.new.past ≡ after_unplug self.old.devices self.old.past device }
        ensures devices { self.new.devices ≡ devices_unplugged self.old.devices device }
        ensures spare { self.new.spare + 1 ≡ self.old.spare }
        ensures rest { self.new ≡ record self.old
            { past = self.new.past; devices = self.new.devices; spare = self.new.spare } }
        ensures looks { steps.new ≤ steps.old + 3 * unreaped self.old.past }
    {
        self.spare -= 1;
        if unplug_device(&mut self.devices, device) {
            self.owed -= self.tickets.unplug_tickets(device, steps);
            put(&mut self.journal, Event::Unplug { device });
        }
    }

    /// The clock is set, where that is later.
    fn clock(&mut self, to: u64)
        requires spare { 1 ≤ self.old.spare }
        ensures clock { self.new.clock ≡ max self.old.clock to }
        ensures spare { self.new.spare + 1 ≡ self.old.spare }
        ensures rest { self.new
            ≡ record self.old { clock = self.new.clock; spare = self.new.spare } }
    {
        self.spare -= 1;
        self.idle(to);
    }

    /// The timer has its turn.
    fn timer<L: Ledger>(&mut self, steps: &mut Steps<L>)
        requires spare { 1 ≤ self.old.spare }
        ensures past { self.new.past ≡ timer_turned self.old.clock self.old.past }
        ensures spare { self.new.spare + 1 ≡ self.old.spare }
        ensures rest { self.new ≡ record self.old { past = self.new.past; spare = self.new.spare } }
        ensures looks { steps.new ≤ steps.old + 3 * overdue_count self.old.clock self.old.past }
    {
        self.spare -= 1;
        self.turn_timer(steps);
    }

    /// Arms a refusal.
    fn arm(&mut self, refusal: Armed)
        requires spare { 1 ≤ self.old.spare }
        requires errno { IsErrno refusal.errno }
        ensures armed { self.new.armed ≡ self.old.armed ++ refusal ∷ [] }
        ensures spare { self.new.spare + 1 ≡ self.old.spare }
        ensures rest { self.new
            ≡ record self.old { armed = self.new.armed; spare = self.new.spare } }
    {
        self.spare -= 1;
        self.armed.arm(refusal);
    }

    /// The ticket that a step reaps: the one that is named, or the lowest that is finished and not
    /// reaped.
    fn ticket_to_reap(&self, ticket: Option<u64>) -> Option<u64>
        ensures ticket { result ≡ reaped_by self.now.past ticket }
    {
        if ticket.is_some() {
            ticket
        } else {
            self.lowest_finished()
        }
    }

    /// The step that reaps.
    fn reap_step<L: Ledger>(&mut self, ticket: Option<u64>, steps: &mut Steps<L>) -> Option<Done>
        requires spare { 1 ≤ self.old.spare }
        ensures past { self.new.past
            ≡ after_reap_of self.old.past (reaped_by self.old.past ticket) }
        ensures done { result ≡ reapable_of self.old.past (reaped_by self.old.past ticket) }
        ensures spare { self.new.spare + 1 ≡ self.old.spare }
        ensures rest { self.new ≡ record self.old { past = self.new.past; spare = self.new.spare } }
        ensures looks { steps.new ≤ steps.old + 3 }
    {
        self.spare -= 1;
        let ticket = self.ticket_to_reap(ticket)?;
        self.reap_ticket(ticket, steps)
    }
}
