//! Descriptors that are shared.

ghost use Rattle.std.specs.Prelude.{◌≡◌, IfOk};

use std::alloc::Global;
use std::marker::Model;
use std::sync::ArcSlice;
use usb_desc::NoMemory;

/// All descriptors of a device. Those who keep them share one copy of the bytes.
#[derive(Clone, Drop)]
pub struct Descriptors {
    bytes: ArcSlice<u8>,
}

impl Model for Descriptors {
    ghost use Rattle.std.specs.Prelude.{ℕ, List};
    ghost use Rattle.std.specs.Arc.{arc_slice_items};

    ghost Value = { List ℕ };

    ghost view = { λ d. arc_slice_items d.bytes };
}

impl Descriptors {
    /// Takes the bytes over.
    pub fn from_vec(bytes: Vec<u8>) -> Result<Descriptors, NoMemory>
        ensures bytes { IfOk result (λ d. d ≡ bytes.items) }
    {
        match ArcSlice::from_vec(bytes) {
            Ok(bytes) => Ok(Descriptors { bytes }),
            Err(_) => Err(NoMemory),
        }
    }

    /// A copy of the bytes.
    pub fn from_slice(alloc: Global, bytes: &[u8]) -> Result<Descriptors, NoMemory>
        ensures bytes { IfOk result (λ d. d ≡ bytes.now) }
    {
        match ArcSlice::from_slice(alloc, bytes) {
            Ok(bytes) => Ok(Descriptors { bytes }),
            Err(_) => Err(NoMemory),
        }
    }

    /// The same descriptors for one more owner. No byte is copied.
    pub fn clone(&self) -> Result<Descriptors, NoMemory>
        ensures same { IfOk result (λ d. d ≡ self.now) }
    {
        Ok(Clone::clone(self)?)
    }

    /// The bytes.
    pub fn as_slice(&self) -> &[u8]
        ensures bytes { result.now ≡ self.now }
    {
        self.bytes.as_slice()
    }
}
