//! The slots of the tickets of a host.

ghost use Rattle.std.specs.Prelude.{◌≡◌, ◌&&◌, is_some, is_none};
ghost use Rattle.std.specs.Option.{option_copied};
ghost use Rattle.usb_kernel.specs.Completions.{completion};
ghost use Rattle.usb_device_ledger.specs.EndedTickets.{end_at};
ghost use Rattle.usb_device_ledger.specs.Slots.{HaveSlots};
ghost use Rattle.usb_device_host.specs.HostBus.{host_value};

use crate::host::Host;
use usb_xfer::{Held, TransferData};

impl Host {
    /// How many slots there are for tickets without an end. Each such ticket stands in one of its
    /// own.
    pub fn slot_count(&self) -> usize
        ensures count { result ≡ self.now.slot_count }
        ensures places { HaveSlots self.now.tickets result }
    {
        self.ledger.slot_count()
    }

    /// The transfer of a ticket that is reaped and has no end, with its completion.
    pub fn reaped(&self, ticket: u64) -> Option<&TransferData>
        ensures value { option_copied result ≡ host_value self.now ticket }
        ensures there { is_some result ≡ (is_some (completion self.now.kernel.past ticket)
            && is_none (end_at self.now.tickets ticket)) }
    {
        let transfer = self.ledger.transfer(ticket)?;
        match transfer.held {
            Held::Complete(_) => Some(transfer),
            _ => None,
        }
    }
}
