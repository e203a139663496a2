//! What stands of a ticket that has no end.

ghost use Rattle.std.specs.Prelude.{◌≡◌, Some, IfSome, IfNone, true, false};
ghost use Rattle.std.specs.Option.{option_copied};
ghost use Rattle.usb_device_ledger.specs.TicketStates.{state_of};
ghost use Rattle.usb_device_ledger.specs.LedgerState.{host_ticket, ticket_key, slot_data, slot_kept, is_given_up};

use usb_kernel::{Done, completion_from};
use usb_xfer::{Held, TransferData};

/// A ticket that has no end: its endpoint's key and its transfer while the endpoint holds it, and
/// its endpoint's key alone when that gave it up before its reap. The transfer has no buffer while
/// the kernel has it, and then its completion.
#[derive(Drop)]
pub(crate) enum Standing {
    HeldBy { key: usize, transfer: TransferData },
    Abandoned { key: usize },
}

/// The parts of what stands of a ticket.
#[derive(Drop)]
pub(crate) struct Parts {
    pub key: usize,
    pub transfer: Option<TransferData>,
}

impl Standing {
    /// The key of the endpoint, and the transfer.
    pub(crate) fn into_parts(self) -> Parts
        ensures key { ticket_key (host_ticket (state_of self)) ≡ Some result.key }
        ensures transfer { result.transfer ≡ slot_data (state_of self) }
    {
        match self {
            Standing::HeldBy { key, transfer } => Parts {
                key,
                transfer: Some(transfer),
            },
            Standing::Abandoned { key } => Parts {
                key,
                transfer: None,
            },
        }
    }

    /// The key of the endpoint.
    pub(crate) fn key(&self) -> usize
        ensures key { ticket_key (host_ticket (state_of self.now)) ≡ Some result }
    {
        match self {
            Standing::HeldBy { key, transfer: _ } => *key,
            Standing::Abandoned { key } => *key,
        }
    }

    /// What stands of the ticket with its completion, which has come, where an endpoint holds the
    /// ticket.
    pub(crate) fn with_completion(&self, done: Done) -> Option<Standing>
        ensures kept { IfSome result (λ s. state_of s ≡ slot_kept done (state_of self.now)) }
        ensures held { IfSome result (λ _. is_given_up (state_of self.now) ≡ false) }
        ensures given_up { IfNone result (is_given_up (state_of self.now) ≡ true) }
    {
        match self {
            Standing::HeldBy { key, transfer } => Some(Standing::HeldBy {
                key: *key,
                transfer: TransferData {
                    endpoint: transfer.endpoint,
                    kind: transfer.kind,
                    held: Held::Complete(completion_from(done)),
                },
            }),
            Standing::Abandoned { key: _ } => None,
        }
    }

    /// The transfer, where an endpoint holds the ticket.
    pub(crate) fn transfer(&self) -> Option<&TransferData>
        ensures transfer { option_copied result ≡ slot_data (state_of self.now) }
    {
        match self {
            Standing::HeldBy { key: _, transfer } => Some(transfer),
            Standing::Abandoned { key: _ } => None,
        }
    }
}
