//! Configuration descriptors: USB 2.0, section 9.6.3.

ghost use Rattle.std.specs.Prelude.{◌≡◌, ◌∷◌, [], find, map, IfOk, if◌then◌else◌, MatchOption, ⊤};
ghost use Rattle.std.specs.Int.NonZero.{non_zero_u8_get};
ghost use Rattle.std.specs.List.{list_any};
ghost use Rattle.std.specs.List.Sorted.{IsStrictlyIncreasing};
ghost use Rattle.std.specs.Option.{option_map};
ghost use Rattle.std.specs.Iterator.{YieldsFirst, item_count};
ghost use Rattle.usb_desc.specs.Chain.{behind_first, WalkLosesNothing};
ghost use Rattle.usb_desc.specs.Configurations as spec;
ghost use Rattle.usb_desc.specs.Fields as fields;
ghost use Rattle.usb_desc.specs.Forms.{IsConfiguration};
ghost use Rattle.usb_desc.specs.Interfaces.{interfaces, number_of};
ghost use Rattle.usb_desc.specs.Lookups.{has_value, has_number, has_setting};

use crate::chain::DescriptorIter;
use crate::error::NoMemory;
use crate::interface::{AltSettings, InterfaceDescriptor};
use crate::interfaces::{Interfaces, interfaces_among};
use crate::layout::{CONFIGURATION_LEN, CONFIGURATION_TYPE, DEVICE_LEN, read_word, string_index};
use std::alloc::{AllocError, Global};
use std::fmt;
use std::marker::Model;
use std::num::NonZeroU8;

// How many bytes the configuration at the front counts, where there is one.
fn configuration_len(buf: &[u8]) -> Option<usize>
    ensures value { result
        ≡ (if spec.is_configuration buf.now then Some (spec.total_length buf.now) else None) }
{
    if buf.len() < CONFIGURATION_LEN {
        return None;
    }
    let first = usize::from(buf[0]);
    let total = usize::from(read_word(buf, 2));
    if first < CONFIGURATION_LEN || buf[1] != CONFIGURATION_TYPE {
        return None;
    }
    if total < first || total > buf.len() {
        return None;
    }
    Some(total)
}

// The configuration at the front, and the bytes behind it.
fn split_configuration(bytes: &[u8]) -> Option<(&[u8], &[u8])>
    ensures items { MatchOption result (spec.concatenated bytes.now ≡ [])
        (λ p. spec.concatenated bytes.now ≡ p.0.now ∷ spec.concatenated p.1.now) }
    ensures form { MatchOption result ⊤ (λ p. IsConfiguration p.0.now) }
{
    let total = configuration_len(bytes)?;
    Some(bytes.split_at(total))
}

/// A configuration of a device: its descriptor, and those of its interfaces and endpoints.
#[derive(Drop)]
pub struct ConfigurationDescriptor<'a> {
    bytes: &'a [u8],
}

impl<'a> Model for ConfigurationDescriptor<'a> {
    ghost use Rattle.std.specs.Prelude.{List, ℕ};
    ghost use Rattle.usb_desc.specs.Forms.{IsConfiguration};

    ghost Value = { List ℕ };

    ghost view = { λ s. s.bytes.now };

    ghost invariant = { λ s. IsConfiguration s.bytes.now };
}

impl<'a> ConfigurationDescriptor<'a> {
    /// The configuration at the front of `buf`, where there is one: 9 bytes or more, of which the
    /// first counts at least 9 and the second is 2, and whose total length lies between the first
    /// byte and the length of `buf`. Bytes past the total length are left out.
    pub fn new(buf: &'a [u8]) -> Option<ConfigurationDescriptor<'a>>
        ensures value { result ≡ spec.configuration_of buf.now }
    {
        let total = configuration_len(buf)?;
        Some(ConfigurationDescriptor {
            bytes: &buf[..total],
        })
    }

    /// The bytes of the descriptor and of those that belong to it.
    pub fn as_bytes(&self) -> &'a [u8]
        ensures bytes { result.now ≡ self.now }
    {
        self.bytes
    }

    /// The descriptors behind the first one.
    pub fn descriptors(&self) -> DescriptorIter<'a>
        ensures bytes { result ≡ behind_first self.now }
        ensures loses_nothing { WalkLosesNothing result }
    {
        DescriptorIter::over(&self.bytes[self.bytes[0] as usize..])
    }

    /// `bNumInterfaces`, byte 4.
    pub fn num_interfaces(&self) -> u8
        ensures field { result ≡ fields.num_interfaces self.now }
    {
        self.bytes[4]
    }

    /// `bConfigurationValue`, byte 5.
    pub fn configuration_value(&self) -> u8
        ensures field { result ≡ fields.configuration_value self.now }
    {
        self.bytes[5]
    }

    /// `iConfiguration`, the index of the string that describes the configuration, byte 6; `None`
    /// for 0.
    pub fn string_index(&self) -> Option<NonZeroU8>
        ensures field { option_map non_zero_u8_get result
            ≡ fields.configuration_string_index self.now }
    {
        string_index(self.bytes[6])
    }

    /// `bmAttributes`, byte 7.
    pub fn attributes(&self) -> u8
        ensures field { result ≡ fields.configuration_attributes self.now }
    {
        self.bytes[7]
    }

    /// `bMaxPower`: the greatest current, in units of 2 mA, byte 8.
    pub fn max_power(&self) -> u8
        ensures field { result ≡ fields.max_power self.now }
    {
        self.bytes[8]
    }

    /// All settings of all interfaces, in the order of their descriptors.
    pub fn interface_alt_settings(&self) -> AltSettings<'a>
        ensures items { result ≡ spec.alt_settings self.now }
    {
        AltSettings::among(&self.bytes[self.bytes[0] as usize..])
    }

    /// The interfaces by rising number, each with its settings in the order of their descriptors.
    /// This is the only walk that takes memory.
    pub fn interfaces(&self, alloc: Global) -> Result<Interfaces<'a>, NoMemory>
        ensures items { IfOk result (λ made. made ≡ interfaces self.now) }
        ensures rising { IfOk result (λ made. IsStrictlyIncreasing (map number_of made)) }
    {
        Ok(interfaces_among(alloc, self.interface_alt_settings())?)
    }

    /// Whether there is an interface with this number.
    pub fn has_interface(&self, number: u8) -> bool
        ensures any { result ≡ list_any (has_number number) (spec.alt_settings self.now) }
    {
        self.interface_alt_settings()
            .any(|setting| setting.interface_number() == number)
    }

    /// The first setting with this interface number and this alternate setting number.
    pub fn find_alt_setting(&self, number: u8, alternate: u8) -> Option<InterfaceDescriptor<'a>>
        ensures first { result ≡ find (has_setting number alternate) (spec.alt_settings self.now) }
    {
        self.interface_alt_settings().find(|setting| {
            setting.interface_number() == number && setting.alternate_setting() == alternate
        })
    }
}

impl<'a> Clone for ConfigurationDescriptor<'a> {
    ghost is_clone = { λ descriptor copy. copy ≡ descriptor };

    ghost is_infallible = { λ _. ⊤ };

    fn clone(&self) -> Result<ConfigurationDescriptor<'a>, AllocError> {
        Ok(ConfigurationDescriptor { bytes: self.bytes })
    }
}

impl<'a> fmt::Debug for ConfigurationDescriptor<'a> {
    fn fmt<W: fmt::Write>(&self, f: &mut fmt::Formatter<W>) -> fmt::Result {
        f.debug_struct("ConfigurationDescriptor")
            .field("configuration_value", &self.configuration_value())
            .field("num_interfaces", &self.num_interfaces())
            .field("attributes", &self.attributes())
            .field("max_power", &self.max_power())
            .field("string_index", &self.string_index())
            .field("bytes", &self.bytes)
            .finish()
    }
}

/// Configurations that stand one behind the other: seen as the list of those that are left.
#[derive(Drop)]
pub struct Configurations<'a> {
    rest: &'a [u8],
}

impl<'a> Model for Configurations<'a> {
    ghost use Rattle.std.specs.Prelude.{List, ℕ};
    ghost use Rattle.usb_desc.specs.Configurations.{concatenated};

    ghost Value = { List (List ℕ) };

    ghost view = { λ s. concatenated s.rest.now };
}

impl<'a> Iterator for Configurations<'a> {
    type Item = ConfigurationDescriptor<'a>;

    ghost next_gives = { YieldsFirst (λ items. items) };

    ghost remaining = { item_count (λ items. items) };

    fn next(&mut self) -> Option<ConfigurationDescriptor<'a>> {
        let (bytes, rest) = split_configuration(self.rest)?;
        self.rest = rest;
        Some(ConfigurationDescriptor { bytes })
    }
}

/// The configurations at the front of `bytes`, one behind the other, up to the first place where
/// none stands.
pub fn concatenated(bytes: &[u8]) -> Configurations<'_>
    ensures items { result ≡ spec.concatenated bytes.now }
{
    Configurations { rest: bytes }
}

/// The first configuration with this value among all the descriptor bytes of a device, which
/// begin with the 18 bytes of its device descriptor.
pub fn find_configuration(bytes: &[u8], value: u8) -> Option<ConfigurationDescriptor<'_>>
    ensures first { result ≡ find (has_value value) (spec.configurations bytes.now) }
{
    if bytes.len() < DEVICE_LEN {
        return None;
    }
    let (_device, behind) = bytes.split_at(DEVICE_LEN);
    concatenated(behind).find(|configuration| configuration.configuration_value() == value)
}
