//! The line of a device descriptor.

ghost use Rattle.std.specs.Prelude.{◌≡◌, ◌++◌, unwrap_or, OnOk, string_bytes};
ghost use Rattle.std.specs.Int.NonZero.{non_zero_u8_get};
ghost use Rattle.std.specs.Option.{option_map};
ghost use Rattle.usb_desc.specs.Fields.{vendor_id, product_id, device_version};
ghost use Rattle.usb_session_text.specs.Devices.{class_words, product_words, string_words, device_line};
ghost use Rattle.usb_session_text.specs.Words.{part, four_digits};

use crate::words::{
    end_line, push_class_code, push_four_digits, push_number, push_number_part, push_space,
};
use std::num::NonZeroU8;
use usb_desc::{DeviceDescriptor, NoMemory};

#[tactic(auto, unfolding(crate::specs::Devices::class_words))]
fn push_class(out: &mut String, device: &DeviceDescriptor) -> Result<(), NoMemory>
    ensures text { OnOk result
        (string_bytes out.new ≡ string_bytes out.old ++ class_words device.now) }
{
    push_four_digits(out, device.usb_version())?;
    push_space(out)?;
    push_class_code(out, device.class(), device.subclass(), device.protocol())?;
    Ok(())
}

/// Appends the vendor, the product and the version of a device, each with a space before it.
fn push_ids(out: &mut String, device: &DeviceDescriptor) -> Result<(), NoMemory>
    ensures text { OnOk result (string_bytes out.new ≡ string_bytes out.old
        ++ part (four_digits (vendor_id device.now))
        ++ part (four_digits (product_id device.now))
        ++ part (four_digits (device_version device.now))) }
{
    push_space(out)?;
    push_four_digits(out, device.vendor_id())?;
    push_space(out)?;
    push_four_digits(out, device.product_id())?;
    push_space(out)?;
    push_four_digits(out, device.device_version())?;
    Ok(())
}

#[tactic(auto, unfolding(crate::specs::Devices::product_words))]
fn push_product(out: &mut String, device: &DeviceDescriptor) -> Result<(), NoMemory>
    ensures text { OnOk result
        (string_bytes out.new ≡ string_bytes out.old ++ product_words device.now) }
{
    push_number(out, u64::from(device.max_packet_size_0()))?;
    push_ids(out, device)
}

/// The index of a string, or 0 for no string.
fn index_of(index: Option<NonZeroU8>) -> u8
    ensures value { result ≡ unwrap_or (option_map non_zero_u8_get index) 0 }
{
    match index {
        Some(index) => index.get(),
        None => 0,
    }
}

#[tactic(auto, unfolding(crate::specs::Devices::string_words))]
fn push_strings(out: &mut String, device: &DeviceDescriptor) -> Result<(), NoMemory>
    ensures text { OnOk result
        (string_bytes out.new ≡ string_bytes out.old ++ string_words device.now) }
{
    let manufacturer = index_of(device.manufacturer_string_index());
    let product = index_of(device.product_string_index());
    let serial = index_of(device.serial_number_string_index());
    let count = device.num_configurations();
    push_number(out, u64::from(manufacturer))?;
    push_number_part(out, u64::from(product))?;
    push_number_part(out, u64::from(serial))?;
    push_number_part(out, u64::from(count))
}

/// Appends the answer that gives a device descriptor: `device USB CC SS PP M0 VID PID VER M P S C`. The versions, the vendor
/// and the product are four hexadecimal digits, the class, the subclass and the protocol two, and the other numbers decimal.
#[tactic(auto, unfolding(crate::specs::Devices::device_line))]
pub fn write_device(out: &mut String, device: &DeviceDescriptor) -> Result<(), NoMemory>
    ensures text { OnOk result
        (string_bytes out.new ≡ string_bytes out.old ++ device_line device.now) }
{
    out.push_str("device ")?;
    push_class(out, device)?;
    push_space(out)?;
    push_product(out, device)?;
    push_space(out)?;
    push_strings(out, device)?;
    end_line(out)
}
