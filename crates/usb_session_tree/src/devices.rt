//! The line of a device.

ghost use Rattle.std.specs.Prelude.{◌≡◌, ◌++◌, OnOk, flat_map, string_bytes};
ghost use Rattle.usb_session_tree.specs.Devices.{further_port, ports_word, place_words, id_words, string_words, own_words, class_word, interface_word, interface_part, device_words, info_line};

use crate::parts::{push_byte, push_colon, push_string};
use usb_desc::NoMemory;
use usb_enum::{DeviceInfo, InterfaceInfo};
use usb_session_text::{
    end_line, push_class_code, push_four_digits, push_space, push_two_digits, word_of_speed,
};

/// Appends a port behind another.
fn push_further_port(out: &mut String, port: u8) -> Result<(), NoMemory>
    ensures text { OnOk result (string_bytes out.new ≡ string_bytes out.old ++ further_port port) }
{
    out.push('.')?;
    push_byte(out, port)
}

/// Appends the ports behind the first.
fn push_further_ports(out: &mut String, ports: &[u8]) -> Result<(), NoMemory>
    ensures text { OnOk result
        (string_bytes out.new ≡ string_bytes out.old ++ flat_map further_port ports.now) }
{
    for port in ports {
        push_further_port(out, *port)?;
    }
    Ok(())
}

/// Appends the ports from the root hub to a device.
fn push_ports(out: &mut String, ports: &[u8]) -> Result<(), NoMemory>
    ensures text { OnOk result
        (string_bytes out.new ≡ string_bytes out.old ++ ports_word ports.now) }
{
    match ports {
        [first, further @ ..] => {
            push_byte(out, *first)?;
            push_further_ports(out, further)
        }
        [] => {
            out.push_str("-")?;
            Ok(())
        }
    }
}

/// Appends where a device is.
#[tactic(auto, unfolding(crate::specs::Devices::place_words))]
fn push_place(out: &mut String, device: &DeviceInfo) -> Result<(), NoMemory>
    ensures text { OnOk result
        (string_bytes out.new ≡ string_bytes out.old ++ place_words device.now) }
{
    push_byte(out, device.busnum())?;
    push_space(out)?;
    push_byte(out, device.device_address())?;
    push_space(out)?;
    push_ports(out, device.port_chain())
}

/// Appends which device it is.
#[tactic(auto, unfolding(crate::specs::Devices::id_words))]
fn push_ids(out: &mut String, device: &DeviceInfo) -> Result<(), NoMemory>
    ensures text { OnOk result
        (string_bytes out.new ≡ string_bytes out.old ++ id_words device.now) }
{
    push_four_digits(out, device.vendor_id())?;
    push_space(out)?;
    push_four_digits(out, device.product_id())?;
    push_space(out)?;
    push_four_digits(out, device.device_version())?;
    push_space(out)?;
    push_four_digits(out, device.usb_version())
}

/// Appends the speed and the strings of a device.
#[tactic(auto, unfolding(crate::specs::Devices::string_words))]
fn push_strings(out: &mut String, device: &DeviceInfo) -> Result<(), NoMemory>
    ensures text { OnOk result
        (string_bytes out.new ≡ string_bytes out.old ++ string_words device.now) }
{
    out.push_str(word_of_speed(device.speed()))?;
    push_space(out)?;
    push_string(out, device.manufacturer_string())?;
    push_space(out)?;
    push_string(out, device.product_string())?;
    push_space(out)?;
    push_string(out, device.serial_number())
}

/// Appends what a device tells of itself, without its interfaces.
#[tactic(auto, unfolding(crate::specs::Devices::own_words))]
fn push_own(out: &mut String, device: &DeviceInfo) -> Result<(), NoMemory>
    ensures text { OnOk result
        (string_bytes out.new ≡ string_bytes out.old ++ own_words device.now) }
{
    push_place(out, device)?;
    push_space(out)?;
    push_ids(out, device)?;
    push_space(out)?;
    push_class_code(out, device.class(), device.subclass(), device.protocol())?;
    push_space(out)?;
    push_strings(out, device)
}

/// Appends a class with its subclass and protocol: `CC:SS:PP`.
#[tactic(auto, unfolding(crate::specs::Devices::class_word))]
fn push_class(out: &mut String, class: u8, subclass: u8, protocol: u8) -> Result<(), NoMemory>
    ensures text { OnOk result
        (string_bytes out.new ≡ string_bytes out.old ++ class_word class subclass protocol) }
{
    push_two_digits(out, class)?;
    push_colon(out)?;
    push_two_digits(out, subclass)?;
    push_colon(out)?;
    push_two_digits(out, protocol)
}

/// Appends an interface: `NUM:CC:SS:PP:STRING`.
#[tactic(auto, unfolding(crate::specs::Devices::interface_word))]
fn push_interface(out: &mut String, interface: &InterfaceInfo) -> Result<(), NoMemory>
    ensures text { OnOk result
        (string_bytes out.new ≡ string_bytes out.old ++ interface_word interface.now) }
{
    push_byte(out, interface.interface_number())?;
    push_colon(out)?;
    push_class(
        out,
        interface.class(),
        interface.subclass(),
        interface.protocol(),
    )?;
    push_colon(out)?;
    push_string(out, interface.interface_string())
}

/// Appends interfaces, each with a space before it.
fn push_interfaces(out: &mut String, interfaces: &[InterfaceInfo]) -> Result<(), NoMemory>
    ensures text { OnOk result
        (string_bytes out.new ≡ string_bytes out.old ++ flat_map interface_part interfaces.now) }
{
    for interface in interfaces {
        push_space(out)?;
        push_interface(out, interface)?;
    }
    Ok(())
}

/// Appends a device and its interfaces: `BUS ADDR PORTS VID PID VER USB CC SS PP SPEED MAN PROD SERIAL`, and for each interface
/// ` NUM:CC:SS:PP:STRING`. The vendor, the product and the versions are four hexadecimal digits, the class codes two, and the
/// other numbers decimal.
#[tactic(auto, unfolding(crate::specs::Devices::device_words))]
pub fn push_device(out: &mut String, device: &DeviceInfo) -> Result<(), NoMemory>
    ensures text { OnOk result
        (string_bytes out.new ≡ string_bytes out.old ++ device_words device.now) }
{
    push_own(out, device)?;
    push_interfaces(out, device.interfaces())
}

/// Appends the answer that gives a probed device: `info`, and the device with its interfaces.
#[tactic(auto, unfolding(crate::specs::Devices::info_line))]
pub fn write_info(out: &mut String, device: &DeviceInfo) -> Result<(), NoMemory>
    ensures text { OnOk result
        (string_bytes out.new ≡ string_bytes out.old ++ info_line device.now) }
{
    out.push_str("info ")?;
    push_device(out, device)?;
    end_line(out)
}
