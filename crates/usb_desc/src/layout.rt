//! Types and least lengths of descriptors, and reading of their words: USB 2.0, tables 9-5 and
//! 9-8 to 9-13.

ghost use Rattle.std.specs.Prelude.{◌≡◌, ◌==◌, ◌+◌, ◌<◌, length, if◌then◌else◌};
ghost use Rattle.std.specs.Int.NonZero.{non_zero_u8_get};
ghost use Rattle.std.specs.Option.{option_map};
ghost use Rattle.usb_desc.specs.Bytes.{word_at};

use std::num::NonZeroU8;

/// `bDescriptorType` of a device descriptor.
pub(crate) const DEVICE_TYPE: u8 = 1;
/// Bytes of a device descriptor.
pub(crate) const DEVICE_LEN: usize = 18;
/// `bDescriptorType` of a configuration descriptor.
pub(crate) const CONFIGURATION_TYPE: u8 = 2;
/// Least bytes of a configuration descriptor.
pub(crate) const CONFIGURATION_LEN: usize = 9;
/// `bDescriptorType` of a string descriptor.
pub(crate) const STRING_TYPE: u8 = 3;
/// `bDescriptorType` of an interface descriptor.
pub(crate) const INTERFACE_TYPE: u8 = 4;
/// Least bytes of an interface descriptor.
pub(crate) const INTERFACE_LEN: u8 = 9;
/// `bDescriptorType` of an endpoint descriptor.
pub(crate) const ENDPOINT_TYPE: u8 = 5;
/// Least bytes of an endpoint descriptor.
pub(crate) const ENDPOINT_LEN: u8 = 7;

/// The two bytes at an offset as a little-endian number.
pub(crate) fn read_word(bytes: &[u8], offset: usize) -> u16
    requires inside { offset + 1 < length bytes.now }
    ensures value { result ≡ word_at bytes.now offset }
{
    u16::from_le_bytes([bytes[offset], bytes[offset + 1]])
}

/// The index of a string descriptor, where 0 says that there is none.
pub(crate) fn string_index(index: u8) -> Option<NonZeroU8>
    ensures value { option_map non_zero_u8_get result ≡ (if index == 0 then None else Some index) }
{
    NonZeroU8::new(index)
}
