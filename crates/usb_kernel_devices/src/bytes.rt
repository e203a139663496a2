//! Bytes that are kept.

ghost use Rattle.std.specs.Prelude.{◌≡◌, IfOk};

use std::alloc::Global;
use std::marker::Model;
use usb_desc::NoMemory;

/// Bytes that an event, a step or a device keeps.
#[derive(Clone, Drop)]
pub struct Bytes {
    items: Vec<u8>,
}

impl Model for Bytes {
    ghost use Rattle.std.specs.Prelude.{ℕ, List};

    ghost Value = { List ℕ };

    ghost view = { λ b. b.items.items };
}

impl Bytes {
    /// Takes the bytes over.
    pub fn from_vec(items: Vec<u8>) -> Bytes
        ensures bytes { result ≡ items.items }
    {
        Bytes { items }
    }

    /// A copy of the bytes.
    pub fn from_slice(alloc: Global, items: &[u8]) -> Result<Bytes, NoMemory>
        ensures bytes { IfOk result (λ b. b ≡ items.now) }
    {
        match Vec::from_slice(alloc, items) {
            Ok(items) => Ok(Bytes { items }),
            Err(_) => Err(NoMemory),
        }
    }

    /// The bytes, given back.
    pub fn into_vec(self) -> Vec<u8>
        ensures bytes { result.items ≡ self }
    {
        self.items
    }

    /// The same bytes once more.
    pub fn clone(&self) -> Result<Bytes, NoMemory>
        ensures copy { IfOk result (λ b. b ≡ self.now) }
    {
        Ok(Clone::clone(self)?)
    }

    /// The bytes.
    pub fn as_slice(&self) -> &[u8]
        ensures bytes { result.now ≡ self.now }
    {
        self.items.as_slice()
    }
}
