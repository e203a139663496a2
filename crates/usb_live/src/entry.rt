//! What an endpoint keeps of its transfers, and what it gives.

ghost use Rattle.std.specs.Prelude.{◌≡◌, IfOk};

use std::error::Error;
use std::fmt;
use usb_desc::NoMemory;
use usb_xfer::{Buffer, Completion};

/// A transfer on its way: its ticket, its cell, and whether it was refused at once.
#[derive(Clone, Copy)]
pub struct Entry {
    pub ticket: u64,
    pub cell: usize,
    pub refused: bool,
}

/// A transfer that ended: its ticket and its completion.
#[derive(Debug, Drop)]
pub struct Receipt {
    pub ticket: u64,
    pub completion: Completion,
}

impl Receipt {
    /// The same once more, with a buffer of its own.
    pub fn clone(&self) -> Result<Receipt, NoMemory>
        ensures same { IfOk result (λ copy. copy ≡ self.now) }
    {
        let completion = self.completion.clone()?;
        Ok(Receipt {
            ticket: self.ticket,
            completion,
        })
    }
}

/// How many transfers were submitted, and how many of them were taken by their owner, dropped at the end, or reclaimed by the
/// handler. A number at the greatest `u64` stays there.
#[derive(Clone, Copy, PartialEq, Eq, Debug)]
pub struct Tally {
    pub submitted: u64,
    pub taken: u64,
    pub dropped: u64,
    pub reclaimed: u64,
}

impl Tally {
    /// Nothing was submitted yet.
    pub fn new() -> Tally
        ensures zero { result ≡ record { submitted = 0; taken = 0; dropped = 0; reclaimed = 0 } }
    {
        Tally {
            submitted: 0,
            taken: 0,
            dropped: 0,
            reclaimed: 0,
        }
    }
}

/// A transfer was not submitted, and its buffer comes back.
#[derive(Debug, Drop)]
pub enum LiveError {
    /// All 64 cells are occupied.
    Full(Buffer),
    /// Want of memory.
    Memory(Buffer),
}

impl LiveError {
    /// The same once more, with a buffer of its own.
    pub fn clone(&self) -> Result<LiveError, NoMemory>
        ensures same { IfOk result (λ copy. copy ≡ self.now) }
    {
        match self {
            LiveError::Full(buffer) => Ok(LiveError::Full(buffer.clone()?)),
            LiveError::Memory(buffer) => Ok(LiveError::Memory(buffer.clone()?)),
        }
    }
}

impl fmt::Display for LiveError {
    ghost use Rattle.std.specs.Prelude.{Some};
    ghost use Rattle.usb_live.specs.ErrorText.{error_text};

    ghost output = { λ e. Some (error_text e) };

    fn fmt<W: fmt::Write>(&self, f: &mut fmt::Formatter<W>) -> fmt::Result {
        match self {
            LiveError::Full(_) => write!(f, "all 64 cells are occupied"),
            LiveError::Memory(_) => write!(f, "out of memory"),
        }
    }
}

impl Error for LiveError {}
