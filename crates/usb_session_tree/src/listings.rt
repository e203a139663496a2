//! The line of a listing of devices.

ghost use Rattle.std.specs.Prelude.{◌≡◌, ◌++◌, OnOk, flat_map, string_bytes};
ghost use Rattle.usb_session_tree.specs.Listings.{address_part, devices_line};

use crate::parts::{push_byte, push_colon};
use usb_desc::NoMemory;
use usb_enum::DeviceInfo;
use usb_session_text::{end_line, push_number_part, push_space};

/// Appends the bus and the address of a device, with a space before them.
fn push_address(out: &mut String, device: &DeviceInfo) -> Result<(), NoMemory>
    ensures text { OnOk result
        (string_bytes out.new ≡ string_bytes out.old ++ address_part device.now) }
{
    push_space(out)?;
    push_byte(out, device.busnum())?;
    push_colon(out)?;
    push_byte(out, device.device_address())
}

/// Appends the buses and the addresses of devices.
fn push_addresses(out: &mut String, devices: &[DeviceInfo]) -> Result<(), NoMemory>
    ensures text { OnOk result
        (string_bytes out.new ≡ string_bytes out.old ++ flat_map address_part devices.now) }
{
    for device in devices {
        push_address(out, device)?;
    }
    Ok(())
}

/// Appends the answer that gives the devices of a listing: `list N`, and for each ` BUS:ADDR`.
#[tactic(auto, unfolding(crate::specs::Listings::devices_line))]
pub fn write_devices(out: &mut String, devices: &[DeviceInfo]) -> Result<(), NoMemory>
    ensures text { OnOk result
        (string_bytes out.new ≡ string_bytes out.old ++ devices_line devices.now) }
{
    let count = devices.len();
    out.push_str("list")?;
    push_number_part(out, count as u64)?;
    push_addresses(out, devices)?;
    end_line(out)
}
