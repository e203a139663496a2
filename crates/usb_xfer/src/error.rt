//! Why a transfer failed, and the texts of it.

ghost use Rattle.std.specs.Prelude.{◌≡◌, ◌++◌, IfOk, OnOk, OnErr, string_bytes};
ghost use Rattle.usb_xfer.specs.TransferErrors.{error_of_errno, error_of_refusal};
ghost use Rattle.usb_xfer.specs.TransferStatus.{status_of};
ghost use Rattle.usb_xfer.specs.TransferTexts.{errno_text, error_word};
ghost use Rattle.usb_xfer.specs.TransferTexts.{status_word as word_of};

use std::alloc::{AllocError, Global};
use std::error::Error;
use std::fmt;
use usb_desc::NoMemory;
use usb_desc::errno::{
    COMM, CONNRESET, ILSEQ, INVAL, NODEV, NOENT, OVERFLOW, PIPE, PROTO, SHUTDOWN, TIME, TIMEDOUT,
};

/// Why a transfer failed.
#[derive(Clone, Copy, PartialEq, Eq, Debug)]
pub enum TransferError {
    /// The transfer was cancelled, or its time was up.
    Cancelled,
    /// The endpoint is halted: USB 2.0, section 8.4.5, STALL.
    Stall,
    /// The device is gone.
    Disconnected,
    /// A fault of the hardware, or a violation of the protocol.
    Fault,
    /// An argument is invalid or not supported.
    InvalidArgument,
    /// Any other errno.
    Unknown(u32),
}

impl TransferError {
    /// The error of a submitted transfer that ended with this errno.
    pub fn from_errno(errno: u16) -> TransferError
        ensures table { result ≡ error_of_errno errno }
    {
        match errno {
            NOENT | CONNRESET | TIMEDOUT => TransferError::Cancelled,
            PIPE => TransferError::Stall,
            NODEV | SHUTDOWN => TransferError::Disconnected,
            TIME | COMM | PROTO | OVERFLOW | ILSEQ => TransferError::Fault,
            INVAL => TransferError::InvalidArgument,
            code => TransferError::Unknown(code as u32),
        }
    }

    /// The error of a transfer whose submission was refused with this errno: `from_errno`, but
    /// nothing that was never submitted is cancelled.
    pub fn from_refusal(errno: u16) -> TransferError
        ensures table { result ≡ error_of_refusal errno }
    {
        match TransferError::from_errno(errno) {
            TransferError::Cancelled => TransferError::Unknown(errno as u32),
            error => error,
        }
    }

    /// The word of the error in an answer.
    pub fn word(self, alloc: Global) -> Result<String, AllocError>
        ensures word { IfOk result (λ s. string_bytes s ≡ error_word self) }
    {
        match self {
            TransferError::Cancelled => String::from_str(alloc, "cancelled"),
            TransferError::Stall => String::from_str(alloc, "stall"),
            TransferError::Disconnected => String::from_str(alloc, "disconnected"),
            TransferError::Fault => String::from_str(alloc, "fault"),
            TransferError::InvalidArgument => String::from_str(alloc, "invalid"),
            TransferError::Unknown(code) => format!(in alloc; "unknown:{code}"),
        }
    }
}

impl fmt::Display for TransferError {
    ghost use Rattle.std.specs.Prelude.{Some};
    ghost use Rattle.usb_xfer.specs.TransferTexts.{transfer_error_text};

    ghost output = { λ e. Some (transfer_error_text e) };

    fn fmt<W: fmt::Write>(&self, f: &mut fmt::Formatter<W>) -> fmt::Result {
        match self {
            TransferError::Cancelled => f.write_str("transfer was cancelled"),
            TransferError::Stall => f.write_str("endpoint stalled"),
            TransferError::Disconnected => f.write_str("device disconnected"),
            TransferError::Fault => f.write_str("hardware fault or protocol violation"),
            TransferError::InvalidArgument => f.write_str("invalid or unsupported argument"),
            TransferError::Unknown(code) => write!(f, "unknown (errno {code})"),
        }
    }
}

impl Error for TransferError {}

/// How a transfer ended: whether its submission was refused, and its errno. The errno 0 means that
/// it went well.
pub fn transfer_status(refused: bool, errno: u16) -> Result<(), TransferError>
    ensures status { result ≡ status_of refused errno }
{
    match (errno, refused) {
        (0, _) => Ok(()),
        (_, true) => Err(TransferError::from_refusal(errno)),
        (_, false) => Err(TransferError::from_errno(errno)),
    }
}

/// The word that answers print for a transfer that was refused or not, and ended with this errno:
/// `ok` for 0, else `cancelled`, `stall`, `disconnected`, `fault`, `invalid` or `unknown:N`.
pub fn status_word(alloc: Global, refused: bool, errno: u16) -> Result<String, AllocError>
    ensures word { IfOk result (λ s. string_bytes s ≡ word_of refused errno) }
{
    match transfer_status(refused, errno) {
        Ok(()) => String::from_str(alloc, "ok"),
        Err(error) => error.word(alloc),
    }
}

/// Appends `errno N`. Without memory the text stays as it was.
pub fn format_os_error_code(out: &mut String, code: u32) -> Result<(), NoMemory>
    ensures appended { OnOk result
        (string_bytes out.new ≡ string_bytes out.old ++ errno_text code) }
    ensures err { OnErr result (string_bytes out.new ≡ string_bytes out.old) }
{
    let alloc = *out.allocator();
    let Ok(text) = format!(in alloc; "errno {code}") else {
        return Err(NoMemory);
    };
    match out.push_str(text.as_str()) {
        Ok(()) => Ok(()),
        Err(_) => Err(NoMemory),
    }
}
