//! The fate of a ticket.

ghost use Rattle.std.specs.Prelude.{◌≡◌};
ghost use Rattle.usb_trace_lines.specs.Fates.{fate_told};

use usb_kernel::TicketInfo;
use usb_xfer::{TransferError, transfer_status};

/// The fate of a ticket, as a trace tells it: the status of its completion where it is reaped, and
/// none where it is not. The count is that of the bytes received or acknowledged.
#[derive(Clone, Copy, PartialEq, Eq, Debug)]
pub struct FateLine {
    pub ticket: u64,
    pub status: Option<Result<(), TransferError>>,
    pub count: u64,
}

impl FateLine {
    /// The fate of a ticket of which this is known.
    pub fn of(ticket: u64, info: &TicketInfo) -> FateLine
        ensures told { result ≡ fate_told ticket info.now }
    {
        let status = if info.reaped {
            Some(transfer_status(info.refused, info.status.unwrap_or(0)))
        } else {
            None
        };
        FateLine {
            ticket,
            status,
            count: info.count as u64,
        }
    }
}
