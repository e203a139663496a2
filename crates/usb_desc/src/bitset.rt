//! A set of endpoints: two bits for each endpoint number, one for each direction.

ghost use Rattle.std.specs.Prelude.{◌≡◌, ℕ, ◌<◌, ◌^◌, ◌↔◌, IsTrue, ⊤};
ghost use Rattle.std.specs.FinSet as set;
ghost use Rattle.usb_desc.specs.BitSet.{bit_of, mask_of, members, IsEndpointAddress};

use std::marker::Model;

/// A set of endpoints: seen as the number with their bits. Bits 4 to 6 of an address are left
/// out, as USB 2.0 table 9-13 keeps them zero.
#[derive(Clone, Copy)]
pub struct EndpointBitSet {
    bits: u32,
}

impl Model for EndpointBitSet {
    ghost use Rattle.std.specs.Prelude.{ℕ, ◌^◌, ◌<◌};

    ghost Value = { ℕ };

    ghost view = { λ s. s.bits };

    ghost invariant = { λ s. s.bits < 2 ^ 32 };

    ghost inverse = { λ bits. record { bits = bits } };
}

impl EndpointBitSet {
    /// The empty set.
    pub fn new() -> EndpointBitSet
        ensures empty { members result ≡ set.empty }
    {
        EndpointBitSet { bits: 0 }
    }

    /// The bit of an endpoint's address. The bits of the addresses 0x00 to 0x0f and 0x80 to 0x8f
    /// differ.
    pub fn mask(ep: u8) -> u32
        ensures value { result ≡ mask_of ep }
        ensures apart { (other : ℕ) → IsEndpointAddress ep → IsEndpointAddress other
            → mask_of other ≡ result → other ≡ ep }
    {
        1 << (2 * (ep % 16) + ep / 128)
    }

    /// Whether the endpoint with this address is in the set.
    pub fn is_set(&self, ep: u8) -> bool
        ensures member { result ≡ set.contains (members self.now) (bit_of ep) }
    {
        self.bits & EndpointBitSet::mask(ep) != 0
    }

    /// Whether no endpoint is in the set.
    pub fn is_empty(&self) -> bool
        ensures empty { IsTrue result ↔ (members self.now ≡ set.empty) }
    {
        self.bits == 0
    }

    /// Adds the endpoint with this address.
    pub fn set(&mut self, ep: u8)
        ensures added { members self.new ≡ set.insert (members self.old) (bit_of ep) }
    {
        self.bits |= EndpointBitSet::mask(ep);
    }

    /// Removes the endpoint with this address.
    pub fn clear(&mut self, ep: u8)
        ensures removed { members self.new ≡ set.remove (members self.old) (bit_of ep) }
    {
        self.bits &= !EndpointBitSet::mask(ep);
    }
}

impl Default for EndpointBitSet {
    ghost is_default = { λ bits. members bits ≡ set.empty };

    fn default() -> EndpointBitSet {
        EndpointBitSet::new()
    }
}
