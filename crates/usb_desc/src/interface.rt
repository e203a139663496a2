//! Interface descriptors: USB 2.0, section 9.6.5.

ghost use Rattle.std.specs.Prelude.{◌≡◌, find, ⊤};
ghost use Rattle.std.specs.Int.NonZero.{non_zero_u8_get};
ghost use Rattle.std.specs.Option.{option_map};
ghost use Rattle.std.specs.Iterator.{YieldsFirst, item_count};
ghost use Rattle.usb_desc.specs.Chain.{behind_first, WalkLosesNothing};
ghost use Rattle.usb_desc.specs.Configurations as spec;
ghost use Rattle.usb_desc.specs.Fields as fields;
ghost use Rattle.usb_desc.specs.Groups.{groups};
ghost use Rattle.usb_desc.specs.Lookups.{has_address};

use crate::chain::{DescriptorIter, split_group};
use crate::endpoint::{EndpointDescriptor, Endpoints};
use crate::layout::{INTERFACE_LEN, INTERFACE_TYPE, string_index};
use std::alloc::AllocError;
use std::fmt;
use std::marker::Model;
use std::num::NonZeroU8;

/// An alternate setting of an interface: its descriptor, and those that belong to it.
#[derive(Drop)]
pub struct InterfaceDescriptor<'a> {
    bytes: &'a [u8],
}

impl<'a> Model for InterfaceDescriptor<'a> {
    ghost use Rattle.std.specs.Prelude.{List, ℕ};
    ghost use Rattle.usb_desc.specs.Forms.{BeginsWith};

    ghost Value = { List ℕ };

    ghost view = { λ s. s.bytes.now };

    ghost invariant = { λ s. BeginsWith 4 9 s.bytes.now };
}

impl<'a> InterfaceDescriptor<'a> {
    /// The bytes of the descriptor and of those that belong to it.
    pub fn as_bytes(&self) -> &'a [u8]
        ensures bytes { result.now ≡ self.now }
    {
        self.bytes
    }

    /// The descriptors behind the first one.
    pub fn descriptors(&self) -> DescriptorIter<'a>
        ensures bytes { result ≡ behind_first self.now }
        ensures loses_nothing { WalkLosesNothing result }
    {
        DescriptorIter::over(&self.bytes[self.bytes[0] as usize..])
    }

    /// `bInterfaceNumber`, byte 2.
    pub fn interface_number(&self) -> u8
        ensures field { result ≡ fields.interface_number self.now }
    {
        self.bytes[2]
    }

    /// `bAlternateSetting`, byte 3.
    pub fn alternate_setting(&self) -> u8
        ensures field { result ≡ fields.alternate_setting self.now }
    {
        self.bytes[3]
    }

    /// `bNumEndpoints`, byte 4.
    pub fn num_endpoints(&self) -> u8
        ensures field { result ≡ fields.num_endpoints self.now }
    {
        self.bytes[4]
    }

    /// `bInterfaceClass`, byte 5.
    pub fn class(&self) -> u8
        ensures field { result ≡ fields.interface_class self.now }
    {
        self.bytes[5]
    }

    /// `bInterfaceSubClass`, byte 6.
    pub fn subclass(&self) -> u8
        ensures field { result ≡ fields.interface_subclass self.now }
    {
        self.bytes[6]
    }

    /// `bInterfaceProtocol`, byte 7.
    pub fn protocol(&self) -> u8
        ensures field { result ≡ fields.interface_protocol self.now }
    {
        self.bytes[7]
    }

    /// `iInterface`, the index of the string that describes the setting, byte 8; `None` for 0.
    pub fn string_index(&self) -> Option<NonZeroU8>
        ensures field { option_map non_zero_u8_get result ≡ fields.interface_string_index self.now }
    {
        string_index(self.bytes[8])
    }

    /// The endpoints of this setting, in the order of their descriptors.
    pub fn endpoints(&self) -> Endpoints<'a>
        ensures items { result ≡ spec.endpoints self.now }
    {
        Endpoints::among(&self.bytes[self.bytes[0] as usize..])
    }

    /// The same setting once more.
    pub(crate) fn copy(&self) -> InterfaceDescriptor<'a>
        ensures same { result ≡ self.now }
    {
        InterfaceDescriptor { bytes: self.bytes }
    }

    /// The first endpoint with this address.
    pub fn find_endpoint(&self, address: u8) -> Option<EndpointDescriptor<'a>>
        ensures first { result ≡ find (has_address address) (spec.endpoints self.now) }
    {
        self.endpoints()
            .find(|endpoint| endpoint.address() == address)
    }
}

impl<'a> Clone for InterfaceDescriptor<'a> {
    ghost is_clone = { λ descriptor copy. copy ≡ descriptor };

    ghost is_infallible = { λ _. ⊤ };

    fn clone(&self) -> Result<InterfaceDescriptor<'a>, AllocError> {
        Ok(self.copy())
    }
}

impl<'a> fmt::Debug for InterfaceDescriptor<'a> {
    fn fmt<W: fmt::Write>(&self, f: &mut fmt::Formatter<W>) -> fmt::Result {
        f.debug_struct("InterfaceDescriptor")
            .field("interface_number", &self.interface_number())
            .field("alternate_setting", &self.alternate_setting())
            .field("num_endpoints", &self.num_endpoints())
            .field("class", &self.class())
            .field("subclass", &self.subclass())
            .field("protocol", &self.protocol())
            .field("string_index", &self.string_index())
            .field("bytes", &self.bytes)
            .finish()
    }
}

/// The settings of a configuration's interfaces, in the order of their descriptors: seen as the
/// list of those that are left. What stands before the first interface is skipped.
#[derive(Drop)]
pub struct AltSettings<'a> {
    rest: &'a [u8],
}

impl<'a> Model for AltSettings<'a> {
    ghost use Rattle.std.specs.Prelude.{List, ℕ};
    ghost use Rattle.usb_desc.specs.Groups.{groups};

    ghost Value = { List (List ℕ) };

    ghost view = { λ s. groups 4 9 s.rest.now };
}

impl<'a> AltSettings<'a> {
    /// The settings among these descriptors.
    pub(crate) fn among(descriptors: &'a [u8]) -> AltSettings<'a>
        ensures items { result ≡ groups 4 9 descriptors.now }
    {
        AltSettings { rest: descriptors }
    }
}

impl<'a> Iterator for AltSettings<'a> {
    type Item = InterfaceDescriptor<'a>;

    ghost next_gives = { YieldsFirst (λ items. items) };

    ghost remaining = { item_count (λ items. items) };

    fn next(&mut self) -> Option<InterfaceDescriptor<'a>> {
        let (bytes, rest) = split_group(self.rest, INTERFACE_TYPE, INTERFACE_LEN)?;
        self.rest = rest;
        Some(InterfaceDescriptor { bytes })
    }
}
