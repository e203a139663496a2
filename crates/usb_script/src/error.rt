//! Why a script is not answered.

ghost use Rattle.std.specs.Prelude.{◌≡◌};
ghost use Rattle.usb_script.specs.declared.error.SessionError.TheVariants.{Memory};

use std::alloc::{AllocError, AllocFailed};
use std::error::Error;
use std::fmt;
use usb_desc::NoMemory;

/// Why a session ends before all of its script is answered.
#[derive(Clone, Copy, Debug, PartialEq, Eq)]
pub enum SessionError {
    /// The first line outside the grammar, counted from 1.
    Malformed { line: u32 },
    /// The script has more than [`crate::MAX_SCRIPT`] bytes.
    TooLong,
    /// The script could not be read to its end.
    ReadFault,
    /// An answer could not be written.
    WriteFault,
    /// There was no memory.
    Memory,
}

impl fmt::Display for SessionError {
    ghost use Rattle.std.specs.Prelude.{Some};
    ghost use Rattle.usb_script.specs.ErrorText.{error_text};

    ghost output = { λ e. Some (error_text e) };

    fn fmt<W: fmt::Write>(&self, f: &mut fmt::Formatter<W>) -> fmt::Result {
        match self {
            SessionError::Malformed { line } => write!(f, "malformed line {line}"),
            SessionError::TooLong => write!(f, "script too long"),
            SessionError::ReadFault => write!(f, "read fault"),
            SessionError::WriteFault => write!(f, "write fault"),
            SessionError::Memory => write!(f, "out of memory"),
        }
    }
}

impl Error for SessionError {}

impl From<AllocError> for SessionError {
    ghost from_gives = { λ _ e. e ≡ Memory };

    fn from(_refused: AllocError) -> SessionError {
        SessionError::Memory
    }
}

impl<T: Drop> From<AllocFailed<T>> for SessionError {
    ghost from_gives = { λ _ e. e ≡ Memory };

    fn from(_refused: AllocFailed<T>) -> SessionError {
        SessionError::Memory
    }
}

impl From<NoMemory> for SessionError {
    ghost from_gives = { λ _ e. e ≡ Memory };

    fn from(_refused: NoMemory) -> SessionError {
        SessionError::Memory
    }
}
