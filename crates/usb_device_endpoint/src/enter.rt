//! How a transfer is handed to a bus.

ghost use Rattle.std.specs.Prelude.{◌≡◌, ◌<◌, ◌≤◌, true, length, Some, None, OnOk, OnErr, IfOk, IfErr};
ghost use Rattle.usb_kernel.specs.Tickets.{tickets};
ghost use Rattle.usb_kernel.specs.Submissions.{IsWhole};
ghost use Rattle.usb_kernel.specs.WholePackets.{is_whole};
ghost use Rattle.usb_device_endpoint.specs.Routes.{GoesBy, AsksWhole, submission_of};
ghost use Rattle.usb_xfer.specs.Transfers.{IsFilled, IsComplete, buffer_held, completion_held};
ghost use Rattle.usb_device_endpoint.specs.Submits.{HandsOver, Enters, transfer_by, handed_over};

use crate::{Bus, Route};
use usb_kernel::errno;
use usb_xfer::{Buffer, Completion, Idle, Pending, TransferData};

/// Whether a length in bytes is that of whole packets, of which there is at least one.
pub(crate) fn is_whole_length(maximum: usize, len: usize) -> bool
    requires packets { 0 < maximum }
    ensures whole { result ≡ is_whole maximum len }
{
    len > 0 && len % maximum == 0
}

/// The completion of a transfer that is complete.
pub(crate) fn completion_in(transfer: Idle<TransferData>) -> Completion
    requires complete { IsComplete transfer }
    ensures completion { completion_held transfer.held ≡ Some result }
{
    transfer.into_inner().take_completion()
}

/// The buffer of a transfer that was not submitted.
fn buffer_in(transfer: Idle<TransferData>) -> Buffer
    requires filled { IsFilled transfer }
    ensures buffer { buffer_held transfer.held ≡ Some result }
{
    transfer.into_inner().take_buffer()
}

/// Submits a transfer, with a deadline or none, or has it refused where it is not valid. An `Err` is
/// want of memory: the transfer comes back and nothing has changed.
fn hand_over<B: Bus>(
    bus: &mut B,
    to: Route,
    deadline: Option<u64>,
    transfer: Idle<TransferData>,
    is_valid: bool,
) -> Result<Pending<TransferData>, Idle<TransferData>>
    requires key { (B.calls.state bus.old).keys to.key ≡ true }
    requires goes { GoesBy transfer to }
    requires whole { is_valid ≡ true → AsksWhole transfer to }
    ensures ticket { IfOk result (λ p. p ≡ length (tickets (B.calls.state bus.old).past)) }
    ensures fresh { OnOk result
        ((B.calls.state bus.old).owner (length (tickets (B.calls.state bus.old).past)) ≡ None) }
    ensures state { OnOk result
        (HandsOver (B.calls.state bus.old) (B.calls.state bus.new) to deadline transfer.held
        is_valid) }
    ensures left { OnOk result
        (128 ≤ to.endpoint → (B.calls.state bus.new).turns_left
        ≤ (B.calls.state bus.old).turns_left) }
    ensures ok { OnOk result
        (bus.new ≡ handed_over B.calls bus.old to deadline transfer is_valid) }
    ensures err { OnErr result (bus.new ≡ bus.old) }
    ensures back { IfErr result (λ back. back ≡ transfer) }
{
    if !is_valid {
        return bus.refuse(to, transfer, errno::INVAL);
    }
    match deadline {
        None => bus.submit(to, transfer),
        Some(deadline) => bus.submit_by(to, transfer, deadline),
    }
}

/// Makes a buffer the next ticket, with a deadline or none, which is refused where it is not valid.
/// An `Err` is want of memory: the buffer comes back and nothing has changed.
pub(crate) fn enter<B: Bus>(
    bus: &mut B,
    to: Route,
    deadline: Option<u64>,
    buf: Buffer,
    is_valid: bool,
) -> Result<Pending<TransferData>, Buffer>
    requires key { (B.calls.state bus.old).keys to.key ≡ true }
    requires whole { is_valid ≡ true → IsWhole (submission_of to None buf) }
    ensures ticket { IfOk result (λ p. p ≡ length (tickets (B.calls.state bus.old).past)) }
    ensures fresh { OnOk result
        ((B.calls.state bus.old).owner (length (tickets (B.calls.state bus.old).past)) ≡ None) }
    ensures state { OnOk result (Enters (B.calls.state bus.old)
        (B.calls.state bus.new) to deadline buf is_valid) }
    ensures left { OnOk result
        (128 ≤ to.endpoint → (B.calls.state bus.new).turns_left
        ≤ (B.calls.state bus.old).turns_left) }
    ensures ok { OnOk result
        (bus.new ≡ handed_over B.calls bus.old to deadline (transfer_by to buf) is_valid) }
    ensures err { OnErr result (bus.new ≡ bus.old) }
    ensures back { IfErr result (λ back. back ≡ buf) }
{
    let mut transfer = TransferData::new(to.endpoint, to.kind);
    transfer.set_buffer(buf);
    match hand_over(bus, to, deadline, Idle::new(transfer), is_valid) {
        Ok(ticket) => Ok(ticket),
        Err(back) => Err(buffer_in(back)),
    }
}
