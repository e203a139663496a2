//! Why a request or a response failed.

use std::error::Error;
use std::fmt;
use usb_error::IoFault;
use usb_xfer::TransferError;

/// Why a request or a response failed.
#[derive(Debug, Drop)]
pub enum MsgError {
    /// The next message ended with so many bytes, fewer than the 4 of a tag.
    Short { len: u32 },
    /// The next message has more bytes than the 4100 of the longest frame.
    TooLong,
    /// The next message has another tag than the one that is due.
    WrongTag { expected: u32, got: u32 },
    /// The writer or the reader failed so.
    Io(IoFault),
    /// Want of memory.
    Memory,
}

/// What ended a client, by which each later call fails.
#[derive(Clone, Copy, Debug, PartialEq, Eq, Drop)]
pub enum Ending {
    /// A message ended with so many bytes, fewer than the 4 of a tag.
    Short { len: u32 },
    /// A message has more bytes than the 4100 of the longest frame.
    TooLong,
    /// A message has another tag than the one that was due.
    WrongTag { expected: u32, got: u32 },
    /// A transfer of the writer or of the reader failed.
    Transfer(TransferError),
    /// The end of a request found no memory.
    Memory,
}

impl fmt::Display for MsgError {
    ghost use Rattle.std.specs.Prelude.{Some};
    ghost use Rattle.usb_msg.specs.Errors.{message_error_text};

    ghost output = { λ e. Some (message_error_text e) };

    fn fmt<W: fmt::Write>(&self, f: &mut fmt::Formatter<W>) -> fmt::Result {
        match self {
            MsgError::Short { len } => write!(f, "message of {len} bytes has no tag"),
            MsgError::TooLong => f.write_str("message is too long"),
            MsgError::WrongTag { expected, got } => {
                write!(f, "message has tag {got}, where {expected} is due")
            }
            MsgError::Io(fault) => f.write_str(fault.text.as_str()),
            MsgError::Memory => f.write_str("out of memory"),
        }
    }
}

impl Error for MsgError {}
