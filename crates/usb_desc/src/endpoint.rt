//! Endpoint descriptors: USB 2.0, section 9.6.6.

ghost use Rattle.std.specs.Prelude.{◌≡◌};
ghost use Rattle.std.specs.Iterator.{YieldsFirst, item_count};
ghost use Rattle.usb_desc.specs.Chain.{behind_first, WalkLosesNothing};
ghost use Rattle.usb_desc.specs.Fields as fields;
ghost use Rattle.usb_desc.specs.Groups.{groups};

use crate::chain::{DescriptorIter, split_group};
use crate::layout::{ENDPOINT_LEN, ENDPOINT_TYPE, read_word};
use crate::types::{Direction, TransferType};
use std::fmt;
use std::marker::Model;

/// An endpoint of a setting of an interface: its descriptor, and those that belong to it.
#[derive(Drop)]
pub struct EndpointDescriptor<'a> {
    bytes: &'a [u8],
}

impl<'a> Model for EndpointDescriptor<'a> {
    ghost use Rattle.std.specs.Prelude.{List, ℕ};
    ghost use Rattle.usb_desc.specs.Forms.{BeginsWith};

    ghost Value = { List ℕ };

    ghost view = { λ s. s.bytes.now };

    ghost invariant = { λ s. BeginsWith 5 7 s.bytes.now };
}

impl<'a> EndpointDescriptor<'a> {
    /// The bytes of the descriptor and of those that belong to it.
    pub fn as_bytes(&self) -> &'a [u8]
        ensures bytes { result.now ≡ self.now }
    {
        self.bytes
    }

    /// The descriptors behind the first one.
    pub fn descriptors(&self) -> DescriptorIter<'a>
        ensures bytes { result ≡ behind_first self.now }
        ensures loses_nothing { WalkLosesNothing result }
    {
        DescriptorIter::over(&self.bytes[self.bytes[0] as usize..])
    }

    /// `bEndpointAddress`, byte 2.
    pub fn address(&self) -> u8
        ensures field { result ≡ fields.address self.now }
    {
        self.bytes[2]
    }

    /// `bmAttributes`, byte 3.
    pub fn attributes(&self) -> u8
        ensures field { result ≡ fields.attributes self.now }
    {
        self.bytes[3]
    }

    /// `wMaxPacketSize`, bytes 4 and 5.
    pub fn max_packet_size_raw(&self) -> u16
        ensures field { result ≡ fields.max_packet_size_raw self.now }
    {
        read_word(self.bytes, 4)
    }

    /// `bInterval`: how often the endpoint is polled, in frames or microframes, byte 6.
    pub fn interval(&self) -> u8
        ensures field { result ≡ fields.interval self.now }
    {
        self.bytes[6]
    }

    /// The greatest number of bytes in a packet: bits 0 to 10 of `wMaxPacketSize`.
    pub fn max_packet_size(&self) -> usize
        ensures field { result ≡ fields.max_packet_size self.now }
    {
        usize::from(self.max_packet_size_raw() % 2048)
    }

    /// How many packets a microframe holds: bits 11 and 12 of `wMaxPacketSize`, and one more. It
    /// tells of isochronous and interrupt endpoints at high speed.
    pub fn packets_per_microframe(&self) -> u8
        ensures field { result ≡ fields.packets_per_microframe self.now }
    {
        (self.max_packet_size_raw() / 2048 % 4) as u8 + 1
    }

    /// Which way the endpoint's data go: bit 7 of its address.
    pub fn direction(&self) -> Direction
        ensures field { result ≡ fields.direction self.now }
    {
        Direction::from_address(self.address())
    }

    /// How the endpoint transfers data: bits 0 and 1 of its attributes.
    pub fn transfer_type(&self) -> TransferType
        ensures field { result ≡ fields.transfer_type self.now }
    {
        match self.attributes() % 4 {
            0 => TransferType::Control,
            1 => TransferType::Isochronous,
            2 => TransferType::Bulk,
            _ => TransferType::Interrupt,
        }
    }
}

impl<'a> fmt::Debug for EndpointDescriptor<'a> {
    fn fmt<W: fmt::Write>(&self, f: &mut fmt::Formatter<W>) -> fmt::Result {
        f.debug_struct("EndpointDescriptor")
            .field("address", &self.address())
            .field("direction", &self.direction())
            .field("transfer_type", &self.transfer_type())
            .field("max_packet_size", &self.max_packet_size())
            .field("packets_per_microframe", &self.packets_per_microframe())
            .field("interval", &self.interval())
            .finish()
    }
}

/// The endpoints of a setting, in the order of their descriptors: seen as the list of those that
/// are left. What stands before the first endpoint is skipped.
#[derive(Drop)]
pub struct Endpoints<'a> {
    rest: &'a [u8],
}

impl<'a> Model for Endpoints<'a> {
    ghost use Rattle.std.specs.Prelude.{List, ℕ};
    ghost use Rattle.usb_desc.specs.Groups.{groups};

    ghost Value = { List (List ℕ) };

    ghost view = { λ s. groups 5 7 s.rest.now };
}

impl<'a> Endpoints<'a> {
    /// The endpoints among these descriptors.
    pub(crate) fn among(descriptors: &'a [u8]) -> Endpoints<'a>
        ensures items { result ≡ groups 5 7 descriptors.now }
    {
        Endpoints { rest: descriptors }
    }
}

impl<'a> Iterator for Endpoints<'a> {
    type Item = EndpointDescriptor<'a>;

    ghost next_gives = { YieldsFirst (λ items. items) };

    ghost remaining = { item_count (λ items. items) };

    fn next(&mut self) -> Option<EndpointDescriptor<'a>> {
        let (bytes, rest) = split_group(self.rest, ENDPOINT_TYPE, ENDPOINT_LEN)?;
        self.rest = rest;
        Some(EndpointDescriptor { bytes })
    }
}
