//! Device descriptors: USB 2.0, section 9.6.1.

ghost use Rattle.std.specs.Prelude.{◌≡◌, ⊤};
ghost use Rattle.std.specs.Int.NonZero.{non_zero_u8_get};
ghost use Rattle.std.specs.Option.{option_map};
ghost use Rattle.usb_desc.specs.Configurations.{device_of};
ghost use Rattle.usb_desc.specs.Fields as fields;

use crate::layout::{DEVICE_LEN, DEVICE_TYPE, read_word, string_index};
use std::alloc::AllocError;
use std::fmt;
use std::marker::Model;
use std::num::NonZeroU8;

/// The descriptor of a device: 18 bytes.
#[derive(Drop)]
pub struct DeviceDescriptor {
    bytes: [u8; 18],
}

impl Model for DeviceDescriptor {
    ghost use Rattle.std.specs.Prelude.{List, ℕ};
    ghost use Rattle.usb_desc.specs.Forms.{IsDevice};

    ghost Value = { List ℕ };

    ghost view = { λ s. s.bytes };

    ghost invariant = { λ s. IsDevice s.bytes };
}

impl DeviceDescriptor {
    /// The descriptor at the front of `buf`, where there is one: 18 bytes or more, of which the
    /// first counts at least 18 and the second is 1. Bytes past the 18th are left out.
    pub fn new(buf: &[u8]) -> Option<DeviceDescriptor>
        ensures value { result ≡ device_of buf.now }
    {
        let bytes = *buf.first_chunk::<18>()?;
        if usize::from(bytes[0]) < DEVICE_LEN || bytes[1] != DEVICE_TYPE {
            return None;
        }
        Some(DeviceDescriptor { bytes })
    }

    /// The 18 bytes of the descriptor.
    pub fn as_bytes(&self) -> &[u8]
        ensures bytes { result.now ≡ self.now }
    {
        &self.bytes
    }

    /// `bcdUSB`: the version of USB, as a binary coded decimal, bytes 2 and 3.
    pub fn usb_version(&self) -> u16
        ensures field { result ≡ fields.usb_version self.now }
    {
        read_word(&self.bytes, 2)
    }

    /// `bDeviceClass`, byte 4.
    pub fn class(&self) -> u8
        ensures field { result ≡ fields.device_class self.now }
    {
        self.bytes[4]
    }

    /// `bDeviceSubClass`, byte 5.
    pub fn subclass(&self) -> u8
        ensures field { result ≡ fields.device_subclass self.now }
    {
        self.bytes[5]
    }

    /// `bDeviceProtocol`, byte 6.
    pub fn protocol(&self) -> u8
        ensures field { result ≡ fields.device_protocol self.now }
    {
        self.bytes[6]
    }

    /// `bMaxPacketSize0`: the greatest number of bytes in a packet of endpoint 0, byte 7.
    pub fn max_packet_size_0(&self) -> u8
        ensures field { result ≡ fields.max_packet_size_0 self.now }
    {
        self.bytes[7]
    }

    /// `idVendor`, bytes 8 and 9.
    pub fn vendor_id(&self) -> u16
        ensures field { result ≡ fields.vendor_id self.now }
    {
        read_word(&self.bytes, 8)
    }

    /// `idProduct`, bytes 10 and 11.
    pub fn product_id(&self) -> u16
        ensures field { result ≡ fields.product_id self.now }
    {
        read_word(&self.bytes, 10)
    }

    /// `bcdDevice`: the version of the device, as a binary coded decimal, bytes 12 and 13.
    pub fn device_version(&self) -> u16
        ensures field { result ≡ fields.device_version self.now }
    {
        read_word(&self.bytes, 12)
    }

    /// `iManufacturer`, the index of the string that names the manufacturer, byte 14; `None` for 0.
    pub fn manufacturer_string_index(&self) -> Option<NonZeroU8>
        ensures field { option_map non_zero_u8_get result
            ≡ fields.manufacturer_string_index self.now }
    {
        string_index(self.bytes[14])
    }

    /// `iProduct`, the index of the string that names the product, byte 15; `None` for 0.
    pub fn product_string_index(&self) -> Option<NonZeroU8>
        ensures field { option_map non_zero_u8_get result ≡ fields.product_string_index self.now }
    {
        string_index(self.bytes[15])
    }

    /// `iSerialNumber`, the index of the string with the serial number, byte 16; `None` for 0.
    pub fn serial_number_string_index(&self) -> Option<NonZeroU8>
        ensures field { option_map non_zero_u8_get result
            ≡ fields.serial_number_string_index self.now }
    {
        string_index(self.bytes[16])
    }

    /// `bNumConfigurations`, byte 17.
    pub fn num_configurations(&self) -> u8
        ensures field { result ≡ fields.num_configurations self.now }
    {
        self.bytes[17]
    }
}

impl Clone for DeviceDescriptor {
    ghost is_clone = { λ descriptor copy. copy ≡ descriptor };

    ghost is_infallible = { λ _. ⊤ };

    fn clone(&self) -> Result<DeviceDescriptor, AllocError> {
        let bytes = self.bytes;
        Ok(DeviceDescriptor { bytes })
    }
}

impl fmt::Debug for DeviceDescriptor {
    fn fmt<W: fmt::Write>(&self, f: &mut fmt::Formatter<W>) -> fmt::Result {
        f.debug_struct("DeviceDescriptor")
            .field("usb_version", &self.usb_version())
            .field("class", &self.class())
            .field("subclass", &self.subclass())
            .field("protocol", &self.protocol())
            .field("max_packet_size_0", &self.max_packet_size_0())
            .field("vendor_id", &self.vendor_id())
            .field("product_id", &self.product_id())
            .field("device_version", &self.device_version())
            .field(
                "manufacturer_string_index",
                &self.manufacturer_string_index(),
            )
            .field("product_string_index", &self.product_string_index())
            .field(
                "serial_number_string_index",
                &self.serial_number_string_index(),
            )
            .field("num_configurations", &self.num_configurations())
            .finish()
    }
}
