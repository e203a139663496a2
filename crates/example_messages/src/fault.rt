//! Why a request is not answered.

ghost use Rattle.std.specs.Prelude.{◌≡◌};
ghost use Rattle.example_messages.specs.Faults.{transfer_fault, write_fault, read_fault, fail_with};

use usb_device::{Fail, TransferError};
use usb_io::{ReadFault, WriteFault};

/// Why a request is not answered.
#[derive(Clone, Copy, PartialEq, Eq, Debug, Drop)]
pub enum Fault {
    /// An endpoint stalled. `Messages::restart` clears its halt.
    Stalled,
    /// The device was unplugged.
    Unplugged,
    /// The device did not take the request in time, or did not answer it in time.
    TimedOut,
    /// A transfer failed otherwise.
    Failed(TransferError),
    /// The answer is longer than `LONGEST_ANSWER`.
    TooLong,
    /// Something of an earlier request is left, and nothing was done. `Messages::restart` drops it.
    Unsettled,
    /// The writer took no byte of a request, or the reader had no end of an answer.
    Stuck,
}

/// The fault of a transfer that failed.
fn transfer_fault(error: TransferError) -> Fault
    ensures fault { result ≡ transfer_fault error }
{
    match error {
        TransferError::Stall => Fault::Stalled,
        TransferError::Disconnected => Fault::Unplugged,
        error => Fault::Failed(error),
    }
}

/// The fault of a write.
fn write_fault(fault: WriteFault) -> Fault
    ensures fault { result ≡ write_fault fault }
{
    match fault {
        WriteFault::Transfer(error) => transfer_fault(error),
        WriteFault::TimedOut => Fault::TimedOut,
    }
}

/// The fault of a read.
fn read_fault(fault: ReadFault) -> Fault
    ensures fault { result ≡ read_fault fault }
{
    match fault {
        ReadFault::Transfer(error) => transfer_fault(error),
        ReadFault::TimedOut => Fault::TimedOut,
        ReadFault::UnexpectedEof => Fault::Stuck,
    }
}

/// The failure of a request whose write failed.
pub(crate) fn write_failed(fail: Fail<WriteFault>) -> Fail<Fault>
    ensures fail { result ≡ fail_with write_fault fail }
{
    match fail {
        Fail::Cause(fault) => Fail::Cause(write_fault(fault)),
        Fail::Memory => Fail::Memory,
    }
}

/// The failure of a request whose read failed.
pub(crate) fn read_failed(fail: Fail<ReadFault>) -> Fail<Fault>
    ensures fail { result ≡ fail_with read_fault fail }
{
    match fail {
        Fail::Cause(fault) => Fail::Cause(read_fault(fault)),
        Fail::Memory => Fail::Memory,
    }
}
