//! The wait for a control transfer.

ghost use Rattle.std.specs.Prelude.{◌≡◌, Some, true, false, IsSome};
ghost use Rattle.usb_kernel.specs.TransferCompletions.{transfer_completion};
ghost use Rattle.usb_device_host.specs.HostAwaits.{deadline_of, host_awaited, host_turned_until};
ghost use Rattle.usb_device_host.specs.HostBus.{hold_at, owner_at, key_at};
ghost use Rattle.usb_device_endpoint.specs.Waits.{is_reaped};
ghost use Rattle.usb_device_host.specs.HostCalls.{host_left, host_calls};
ghost use Rattle.usb_device_host.specs.HostFrames.{HostGoesOn};
ghost use Rattle.usb_device_host.specs.TicketEnds.{host_taken};

use crate::host::Host;
use usb_device_endpoint::Turn;
use usb_device_ledger::TicketEnd;
use usb_xfer::Completion;

impl Host {
    /// Goes on by a step or by a reap; where time is up, to this time.
    fn turn_until(&mut self, deadline: u64)
        ensures turned { self.new ≡ host_turned_until self.old deadline }
    {
        match self.take_turn() {
            Turn::TimeUp => self.raise_clock(deadline),
            Turn::Stepped | Turn::Reaped => {}
        }
    }

    /// Goes on until the completion of a ticket is there. Where time is up the clock is raised to
    /// the ticket's deadline, at which the timer discards the ticket if it is not finished.
    pub fn await_ticket(&mut self, ticket: u64, deadline: u64)
        requires held { IsSome (hold_at self.old.tickets ticket) }
        requires deadline { is_reaped host_calls ticket self.old ≡ false →
            deadline_of self.old.kernel.past ticket ≡ Some deadline }
        ensures awaited { self.new ≡ host_awaited self.old ticket deadline }
        ensures found { is_reaped host_calls ticket self.new ≡ true }
        ensures went { HostGoesOn self.old self.new }
    {
        'turns: while !self.has_come(ticket) {
            self.turn_until(deadline);
        }
    }

    /// Takes the completion of a control transfer (USB 2.0, section 9.3), and closes its endpoint.
    pub fn take_control(&mut self, key: usize, ticket: u64) -> Completion
        requires held { owner_at self.old.tickets ticket ≡ Some key }
        requires key { key_at self.old.endpoints key ≡ true }
        requires found { is_reaped host_calls ticket self.old ≡ true }
        ensures host { self.new ≡ host_left (host_taken self.old ticket) key }
        ensures completion { transfer_completion self.old.kernel.past ticket ≡ Some result }
    {
        let ended = self.end_ticket(ticket, TicketEnd::Taken);
        let mut transfer = ended.unwrap();
        self.leave_endpoint(key);
        transfer.take_completion()
    }
}
