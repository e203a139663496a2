//! Why a line or a word is not read.

ghost use Rattle.std.specs.Prelude.{◌≡◌};
ghost use Rattle.usb_script_words.specs.declared.line_error.LineError.TheVariants.{Memory};

use std::alloc::{AllocError, AllocFailed};

/// Why a line or a word is not read.
#[derive(Clone, Copy, Debug, PartialEq, Eq)]
pub enum LineError {
    /// It is outside the grammar.
    Malformed,
    /// There was no memory.
    Memory,
}

impl From<AllocError> for LineError {
    ghost from_gives = { λ _ e. e ≡ Memory };

    fn from(_refused: AllocError) -> LineError {
        LineError::Memory
    }
}

impl<T: Drop> From<AllocFailed<T>> for LineError {
    ghost from_gives = { λ _ e. e ≡ Memory };

    fn from(_refused: AllocFailed<T>) -> LineError {
        LineError::Memory
    }
}
