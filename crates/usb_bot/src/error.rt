//! Why a command failed.

use std::error::Error;
use std::fmt;
use usb_xfer::TransferError;

/// Why a command failed.
#[derive(Clone, Copy, Debug, PartialEq, Eq, Drop)]
pub enum BotError {
    /// The transfer of the wrapper, of the data or of the status failed.
    Transfer(TransferError),
    /// What came for the status is none of this command: Bulk-Only Transport, section 6.3.
    BadStatus,
    /// The command failed. `residue` is how many bytes of its data the device did not move.
    Failed { residue: u32 },
    /// The device did not expect the command's phases: Bulk-Only Transport, section 5.3.3.1.
    Phase,
    /// The command passed, but moved `got` bytes where others were asked for, or has a residue.
    Length { got: u32, residue: u32 },
    /// Want of memory.
    Memory,
}

impl fmt::Display for BotError {
    ghost use Rattle.std.specs.Prelude.{Some};
    ghost use Rattle.usb_bot.specs.Errors.{command_error_text};

    ghost output = { λ e. Some (command_error_text e) };

    fn fmt<W: fmt::Write>(&self, f: &mut fmt::Formatter<W>) -> fmt::Result {
        match self {
            BotError::Transfer(error) => error.fmt(f),
            BotError::BadStatus => f.write_str("status is none of the command"),
            BotError::Failed { residue } => {
                write!(f, "command failed with {residue} bytes not moved")
            }
            BotError::Phase => f.write_str("device has a phase error"),
            BotError::Length { got, residue } => {
                write!(
                    f,
                    "command moved {got} bytes and left a residue of {residue}"
                )
            }
            BotError::Memory => f.write_str("out of memory"),
        }
    }
}

impl Error for BotError {}
