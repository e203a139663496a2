//! The faults of streams and the errors that ended clients. The text of a fault is written into
//! memory that was made before.

ghost use Rattle.std.specs.Prelude.{◌≡◌, ◌+◌, ◌≤◌, ◌++◌, ◌⊎◌, length, IfOk, string_bytes, string_len, string_capacity, Some};
ghost use Rattle.usb_xfer.specs.TransferTexts.{transfer_error_text};
ghost use Rattle.usb_error.specs.Faults.{transfer_fault};
ghost use Rattle.usb_error.specs.IoKinds.{transfer_kind};
ghost use Rattle.usb_io.specs.StreamFaults.{read_fault, write_fault};
ghost use Rattle.usb_msg.specs.Errors.{error_of, MayLack, ended_by_read, ended_by_write};
ghost use Rattle.usb_msg.specs.Texts.{IsTextRoom};

use crate::error::{Ending, MsgError};
use itoa::Buffer;
use std::alloc::Global;
use usb_desc::NoMemory;
use usb_error::{IoFault, IoKind};
use usb_io::{ReadFault, WriteFault};
use usb_xfer::TransferError;

/// The most bytes that the text of a fault has.
const LONGEST_TEXT: usize = 40;

/// An empty text with room for that of a fault.
pub(crate) fn text_room(alloc: Global) -> Result<String, NoMemory>
    ensures room { IfOk result IsTextRoom }
{
    Ok(String::with_capacity(alloc, LONGEST_TEXT)?)
}

/// A text with more behind it, for which it has room.
fn with_more(mut text: String, more: &str) -> String
    requires fits { string_len text + length more.now ≤ string_capacity text }
    ensures bytes { string_bytes result ≡ string_bytes text ++ more.now }
    ensures len { string_len result ≡ string_len text + length more.now }
    ensures room { string_capacity text ≤ string_capacity result }
{
    let _ = text.push_str(more);
    text
}

/// What a transfer's error prints.
fn transfer_text(room: String, error: TransferError) -> String
    requires room { IsTextRoom room }
    ensures text { string_bytes result ≡ transfer_error_text error }
{
    match error {
        TransferError::Cancelled => with_more(room, "transfer was cancelled"),
        TransferError::Stall => with_more(room, "endpoint stalled"),
        TransferError::Disconnected => with_more(room, "device disconnected"),
        TransferError::Fault => with_more(room, "hardware fault or protocol violation"),
        TransferError::InvalidArgument => with_more(room, "invalid or unsupported argument"),
        TransferError::Unknown(code) => {
            let mut digits = Buffer::new();
            let text = with_more(room, "unknown (errno ");
            with_more(with_more(text, digits.format(code)), ")")
        }
    }
}

/// The kind of a transfer's error.
fn kind_of(error: TransferError) -> IoKind
    ensures kind { result ≡ transfer_kind error }
{
    match error {
        TransferError::Cancelled => IoKind::Interrupted,
        TransferError::Stall => IoKind::ConnectionReset,
        TransferError::Disconnected => IoKind::ConnectionAborted,
        TransferError::InvalidArgument => IoKind::InvalidInput,
        TransferError::Fault | TransferError::Unknown(_) => IoKind::Other,
    }
}

/// The fault of a transfer that failed.
fn transfer_fault(room: String, error: TransferError) -> IoFault
    requires room { IsTextRoom room }
    ensures fault { result ≡ transfer_fault error }
{
    IoFault {
        kind: kind_of(error),
        text: transfer_text(room, error),
    }
}

/// The fault of a write.
pub(crate) fn write_fault(room: String, fault: WriteFault) -> IoFault
    requires room { IsTextRoom room }
    ensures fault { result ≡ write_fault fault }
{
    match fault {
        WriteFault::Transfer(error) => transfer_fault(room, error),
        WriteFault::TimedOut => IoFault {
            kind: IoKind::TimedOut,
            text: with_more(room, "write timeout"),
        },
    }
}

/// The fault of a read.
pub(crate) fn read_fault(room: String, fault: ReadFault) -> IoFault
    requires room { IsTextRoom room }
    ensures fault { result ≡ read_fault fault }
{
    match fault {
        ReadFault::Transfer(error) => transfer_fault(room, error),
        ReadFault::TimedOut => IoFault {
            kind: IoKind::TimedOut,
            text: with_more(room, "timeout waiting for read"),
        },
        ReadFault::UnexpectedEof => IoFault {
            kind: IoKind::UnexpectedEof,
            text: with_more(room, "ended without short packet"),
        },
    }
}

impl Ending {
    /// What a fault of a read ends a client by. That a transfer did not end in time ends none.
    pub(crate) fn of_read(fault: ReadFault) -> Option<Ending>
        ensures ending { result ≡ ended_by_read fault }
    {
        match fault {
            ReadFault::Transfer(error) => Some(Ending::Transfer(error)),
            ReadFault::TimedOut | ReadFault::UnexpectedEof => None,
        }
    }

    /// What a fault of a write ends a client by.
    pub(crate) fn of_write(fault: WriteFault) -> Option<Ending>
        ensures ending { result ≡ ended_by_write fault }
    {
        match fault {
            WriteFault::Transfer(error) => Some(Ending::Transfer(error)),
            WriteFault::TimedOut => None,
        }
    }

    /// The error that it is told by. Only the text of a failed transfer needs memory.
    pub(crate) fn to_error(self, alloc: Global) -> MsgError
        ensures error { (result ≡ error_of self)
            ⊎ ((result ≡ MsgError.Memory) × MayLack (Some self)) }
    {
        match self {
            Ending::Short { len } => MsgError::Short { len },
            Ending::TooLong => MsgError::TooLong,
            Ending::WrongTag { expected, got } => MsgError::WrongTag { expected, got },
            Ending::Transfer(error) => match IoFault::from_transfer(alloc, error) {
                Ok(fault) => MsgError::Io(fault),
                Err(_) => MsgError::Memory,
            },
            Ending::Memory => MsgError::Memory,
        }
    }
}
