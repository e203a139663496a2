//! A reaped ticket as the completion of its transfer.

ghost use Rattle.std.specs.Prelude.{◌≡◌};
ghost use Rattle.usb_kernel.specs.TransferCompletions.{completion_of};

use crate::submission::Done;
use usb_xfer::{Completion, transfer_status};

/// The completion of a transfer that the kernel is done with: its buffer, the count of bytes that
/// went over, and its status by the errno.
pub fn completion_from(done: Done) -> Completion
    ensures completion { result ≡ completion_of done }
{
    let Done {
        ticket: _,
        status,
        refused,
        count,
        buffer,
    } = done;
    Completion {
        buffer,
        actual_len: count,
        status: transfer_status(refused, status),
    }
}
