//! Descriptors that stand one behind the other: USB 2.0, section 9.5.

ghost use Rattle.std.specs.Prelude.{◌≡◌, ℕ, ◌≤◌, ◌∷◌, ◌++◌, [], false, true, length, take, drop, MatchOption, ⊤, nat_eq};
ghost use Rattle.std.specs.Iterator.{item_count};
ghost use Rattle.std.specs.Cmp.{partial_equiv_from_equiv};
ghost use Rattle.std.specs.Cmp.Lexicographic.{pointwise, nat_list_eq_equiv};
ghost use Rattle.usb_desc.specs.Bytes.{length_field, type_field};
ghost use Rattle.usb_desc.specs.Chain.{begins_descriptor, first_descriptor, behind_first, chain, descriptor_of, WalksChain, WalkLosesNothing};
ghost use Rattle.usb_desc.specs.Groups.{begins_group, goes_on, run_bytes, groups};
ghost use Rattle.usb_desc.specs.Forms.{BeginsWith, IsDescriptor};

use std::alloc::AllocError;
use std::marker::Model;

/// The bytes of a single descriptor: at least two, of which the first counts no more than there
/// are. USB 2.0, section 9.5.
#[derive(Debug, Drop)]
pub struct Descriptor<'a> {
    bytes: &'a [u8],
}

impl<'a> Model for Descriptor<'a> {
    ghost use Rattle.std.specs.Prelude.{List, ℕ};
    ghost use Rattle.usb_desc.specs.Forms.{IsDescriptor};

    ghost Value = { List ℕ };

    ghost view = { λ s. s.bytes.now };

    ghost invariant = { λ s. IsDescriptor s.bytes.now };
}

impl<'a> Descriptor<'a> {
    /// All of `buf`, where it has at least two bytes, of which the first counts no more than there
    /// are. Bytes that the first doesn't count are kept.
    pub fn new(buf: &'a [u8]) -> Option<Descriptor<'a>>
        ensures value { result ≡ descriptor_of buf.now }
    {
        let [first, _, ..] = buf else {
            return None;
        };
        if usize::from(*first) > buf.len() {
            return None;
        }
        Some(Descriptor { bytes: buf })
    }

    /// `bLength`, byte 0.
    pub fn descriptor_len(&self) -> usize
        ensures field { result ≡ length_field self.now }
    {
        usize::from(self.bytes[0])
    }

    /// `bDescriptorType`, byte 1.
    pub fn descriptor_type(&self) -> u8
        ensures field { result ≡ type_field self.now }
    {
        self.bytes[1]
    }

    /// The bytes of the descriptor.
    pub fn as_bytes(&self) -> &'a [u8]
        ensures bytes { result.now ≡ self.now }
    {
        self.bytes
    }

    /// The bytes of the descriptor, for as long as it is borrowed.
    pub fn as_slice(&self) -> &[u8]
        ensures bytes { result.now ≡ self.now }
    {
        self.bytes
    }
}

impl<'a> Clone for Descriptor<'a> {
    ghost is_clone = { λ descriptor copy. copy ≡ descriptor };

    ghost is_infallible = { λ _. ⊤ };

    fn clone(&self) -> Result<Descriptor<'a>, AllocError> {
        Ok(Descriptor { bytes: self.bytes })
    }
}

impl<'a> PartialEq for Descriptor<'a> {
    ghost eq = { pointwise nat_eq };

    ghost laws = { partial_equiv_from_equiv nat_list_eq_equiv };

    fn eq(&self, other: &Self) -> bool {
        self.bytes == other.bytes
    }
}

impl<'a> Eq for Descriptor<'a> {
    ghost laws = { nat_list_eq_equiv };
}

/// The descriptors that stand one behind the other: seen as the bytes that are left. It stops
/// where fewer than two bytes stand, and where the first of them is below 2 or counts more than
/// there are.
#[derive(Debug, Drop)]
pub struct DescriptorIter<'a> {
    rest: &'a [u8],
}

impl<'a> Model for DescriptorIter<'a> {
    ghost use Rattle.std.specs.Prelude.{List, ℕ};

    ghost Value = { List ℕ };

    ghost view = { λ s. s.rest.now };
}

impl<'a> DescriptorIter<'a> {
    /// A walk along these bytes.
    pub(crate) fn over(bytes: &'a [u8]) -> DescriptorIter<'a>
        ensures bytes { result ≡ bytes.now }
        ensures loses_nothing { WalkLosesNothing result }
    {
        DescriptorIter { rest: bytes }
    }

    /// The bytes that are left.
    pub fn as_bytes(&self) -> &'a [u8]
        ensures bytes { result.now ≡ self.now }
    {
        self.rest
    }
}

impl<'a> Clone for DescriptorIter<'a> {
    ghost is_clone = { λ walk copy. copy ≡ walk };

    ghost is_infallible = { λ _. ⊤ };

    fn clone(&self) -> Result<DescriptorIter<'a>, AllocError> {
        Ok(DescriptorIter { rest: self.rest })
    }
}

impl<'a> Iterator for DescriptorIter<'a> {
    type Item = Descriptor<'a>;

    ghost next_gives = { WalksChain };

    ghost remaining = { item_count chain };

    fn next(&mut self) -> Option<Descriptor<'a>> {
        let (bytes, rest) = split_first(self.rest)?;
        self.rest = rest;
        Some(Descriptor { bytes })
    }
}

/// The first descriptor, and the bytes behind it; `None` where no descriptor stands at the front.
pub(crate) fn split_first(bytes: &[u8]) -> Option<(&[u8], &[u8])>
    ensures begins { MatchOption result
        (begins_descriptor bytes.now ≡ false)
        (λ _. begins_descriptor bytes.now ≡ true) }
    ensures parts { MatchOption result ⊤
        (λ p. (p.0.now ≡ first_descriptor bytes.now) × (p.1.now ≡ behind_first bytes.now)) }
    ensures walks { MatchOption result
        (chain bytes.now ≡ [])
        (λ p. chain bytes.now ≡ p.0.now ∷ chain p.1.now) }
    ensures joined { MatchOption result ⊤ (λ p. bytes.now ≡ p.0.now ++ p.1.now) }
    ensures form { MatchOption result ⊤ (λ p. IsDescriptor p.0.now) }
{
    let [first, _, ..] = bytes else {
        return None;
    };
    let len = *first as usize;
    if len < 2 || len > bytes.len() {
        return None;
    }
    Some(bytes.split_at(len))
}

// Whether a descriptor goes on with a group of this type.
fn goes_on(descriptor: &[u8], kind: u8) -> bool
    requires two { 2 ≤ length descriptor.now }
    ensures value { result ≡ goes_on kind descriptor.now }
{
    descriptor[0] > 2 && descriptor[1] != kind
}

// Whether a descriptor begins a group of this type, of which it has at least `least` bytes.
fn begins_group(descriptor: &[u8], kind: u8, least: u8) -> bool
    requires two { 2 ≤ length descriptor.now }
    ensures value { result ≡ begins_group kind least descriptor.now }
{
    descriptor[1] == kind && descriptor[0] >= least
}

// How many bytes at the front go on with a group of this type.
fn run_len(bytes: &[u8], kind: u8) -> usize
    ensures within { result ≤ length bytes.now }
    ensures run { run_bytes kind (chain bytes.now) ≡ take result bytes.now }
    ensures behind { (least : ℕ) → groups kind least bytes.now
        ≡ groups kind least (drop result bytes.now) }
{
    let mut rest = bytes;
    while let Some((descriptor, behind)) = split_first(rest) {
        if !goes_on(descriptor, kind) {
            break;
        }
        rest = behind;
    }
    bytes.len() - rest.len()
}

/// The first group of this type, and the bytes behind it; `None` where there is no group.
pub(crate) fn split_group(bytes: &[u8], kind: u8, least: u8) -> Option<(&[u8], &[u8])>
    ensures groups { MatchOption result (groups kind least bytes.now ≡ [])
        (λ p. groups kind least bytes.now ≡ p.0.now ∷ groups kind least p.1.now) }
    ensures form { MatchOption result ⊤ (λ p. BeginsWith kind least p.0.now) }
    ensures last { MatchOption result ⊤ (λ p. length p.1.now ≤ length bytes.now) }
{
    let mut rest = bytes;
    while let Some((descriptor, behind)) = split_first(rest) {
        if begins_group(descriptor, kind, least) {
            let len = descriptor.len() + run_len(behind, kind);
            return Some(rest.split_at(len));
        }
        rest = behind;
    }
    None
}
