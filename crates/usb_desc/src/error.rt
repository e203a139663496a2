//! Want of memory, which every crate answers in the same way.

use std::alloc::{AllocError, AllocFailed};
use std::error::Error;
use std::fmt;

/// There was no memory. It is merged with no other error.
#[derive(Clone, Copy, Debug, PartialEq, Eq)]
pub struct NoMemory;

impl fmt::Display for NoMemory {
    fn fmt<W: fmt::Write>(&self, f: &mut fmt::Formatter<W>) -> fmt::Result {
        f.write_str("out of memory")
    }
}

impl Error for NoMemory {}

impl From<AllocError> for NoMemory {
    fn from(_error: AllocError) -> NoMemory {
        NoMemory
    }
}

/// Why a call failed: for a cause of its own, or for want of memory.
#[derive(Clone, Copy, Debug, PartialEq, Eq, Drop)]
pub enum Fail<E> {
    Cause(E),
    Memory,
}

impl<E> From<NoMemory> for Fail<E> {
    ghost use Rattle.std.specs.Prelude.{◌≡◌};
    ghost use Rattle.usb_desc.specs.declared.error.Fail.TheVariants.{Memory};

    ghost from_gives = { λ _ e. e ≡ Memory };

    fn from(_error: NoMemory) -> Fail<E> {
        Fail::Memory
    }
}

/// A value that found no room in a list, say, is dropped.
impl<E, T: Drop> From<AllocFailed<T>> for Fail<E> {
    ghost use Rattle.std.specs.Prelude.{◌≡◌};
    ghost use Rattle.usb_desc.specs.declared.error.Fail.TheVariants.{Memory};

    ghost from_gives = { λ _ e. e ≡ Memory };

    fn from(_error: AllocFailed<T>) -> Fail<E> {
        Fail::Memory
    }
}
