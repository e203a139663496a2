//! What a bus keeps of each ticket.

ghost use Rattle.std.specs.Prelude.{◌≡◌, ◌<◌, ◌++◌, ◌∷◌, [], List, Some, None, IsSome, is_some, vec_len, vec_capacity, set};
ghost use Rattle.usb_xfer.specs.declared.transfer.Held.{Held};
ghost use Rattle.usb_xfer.specs.Transfers.{completion_held};
ghost use Rattle.usb_kernel.specs.declared.event.Event.{Event};
ghost use Rattle.usb_kernel.specs.Submits.{number_of};
ghost use Rattle.usb_kernel.specs.TransferCompletions.{transfer_completion, CompletesOnly};
ghost use Rattle.usb_kernel.specs.Holds.{held_at_once, value_for};
ghost use Rattle.usb_device_endpoint.specs.KernelBusCalls.{owner_at, hold_at};
ghost use Rattle.usb_device_endpoint.specs.KernelBusFacts.{Agree, holds_of, holding, with_completion, ended_slot};

use std::mem;
use usb_kernel::{Done, Submitted, completion_from};
use usb_xfer::{Completion, Held, TransferData};

/// What is kept of a ticket: the key of the endpoint that holds it, until it is taken or given up,
/// and the transfer, which holds nothing while the kernel has its buffer.
#[derive(Drop)]
pub struct OwnedTransfer {
    pub owner: Option<usize>,
    pub transfer: TransferData,
}

impl OwnedTransfer {
    /// Keeps the completion that came, where an endpoint waits for it.
    fn keep(&mut self, completion: Completion)
        ensures slot { self.new ≡ with_completion self.old completion }
    {
        if self.owner.is_some() {
            self.transfer.held = Held::Complete(completion);
        }
    }

    /// Nobody holds the ticket any more: its transfer, as far as it has come.
    fn end(&mut self) -> TransferData
        ensures slot { self.new ≡ ended_slot self.old }
        ensures value { result ≡ self.old.transfer }
    {
        self.owner = None;
        let held = mem::replace(&mut self.transfer.held, Held::Nothing);
        TransferData {
            endpoint: self.transfer.endpoint,
            kind: self.transfer.kind,
            held,
        }
    }

    /// Whether the completion is there.
    fn is_complete(&self) -> bool
        ensures complete { result ≡ is_some (completion_held self.now.transfer.held) }
    {
        matches!(self.transfer.held, Held::Complete(_))
    }
}

/// Keeps a completion that came.
pub fn store(slots: &mut Vec<OwnedTransfer>, came: Option<Done>)
    ensures holds { holds_of slots.new.items ≡ holds_of slots.old.items }
    ensures agree { (past next : List Event) → Agree past slots.old.items
        → CompletesOnly past next came → Agree next slots.new.items }
{
    let Some(done) = came else {
        return;
    };
    let ticket = done.ticket;
    if ticket >= slots.len() as u64 {
        return;
    }
    let completion = completion_from(done);
    let slot = &mut slots[ticket as usize];
    slot.keep(completion);
}

/// The transfer of a ticket that is held, which ends.
pub fn take_slot(slots: &mut Vec<OwnedTransfer>, ticket: u64) -> TransferData
    requires held { IsSome (owner_at (holds_of slots.old.items) ticket) }
    ensures holds { holds_of slots.new.items ≡ set (holds_of slots.old.items) ticket None }
    ensures agree { (past : List Event) → Agree past slots.old.items
        → Agree past slots.new.items }
    ensures value { (past : List Event) → Agree past slots.old.items
        → IsSome (value_for (transfer_completion past ticket)
        (hold_at (holds_of slots.old.items) ticket))
        → value_for (transfer_completion past ticket) (hold_at (holds_of slots.old.items) ticket)
        ≡ Some result }
{
    let slot = &mut slots[ticket as usize];
    slot.end()
}

/// Whether the transfer of a ticket that is held is complete.
pub fn has_come(slots: &[OwnedTransfer], ticket: u64) -> bool
    requires held { IsSome (owner_at (holds_of slots.now) ticket) }
    ensures come { (past : List Event) → Agree past slots.now
        → result ≡ is_some
        (value_for (transfer_completion past ticket) (hold_at (holds_of slots.now) ticket)) }
{
    let slot = &slots[ticket as usize];
    slot.is_complete()
}

/// A slot for a new ticket of this key, whose completion is there at once where it was refused. The
/// answer is its number.
pub fn add_slot(
    slots: &mut Vec<OwnedTransfer>,
    key: usize,
    mut transfer: TransferData,
    submitted: Submitted,
) -> u64
    requires room { vec_len slots.old < vec_capacity slots.old }
    requires empty { transfer.held ≡ Held.Nothing }
    ensures number { result ≡ number_of submitted }
    ensures items { slots.new.items ≡ slots.old.items ++ record
        { owner = Some key; transfer = holding transfer (held_at_once submitted) } ∷ [] }
{
    let ticket = match submitted {
        Submitted::Queued(ticket) => ticket,
        Submitted::Refused(done) => {
            let ticket = done.ticket;
            transfer.set_completion(completion_from(done));
            ticket
        }
    };
    let _ = slots.push(OwnedTransfer {
        owner: Some(key),
        transfer,
    });
    ticket
}
