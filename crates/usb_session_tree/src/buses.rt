//! The line of a listing of buses.

ghost use Rattle.std.specs.Prelude.{◌≡◌, ◌++◌, OnOk, flat_map, string_bytes};
ghost use Rattle.usb_session_tree.specs.Buses.{controller_word, bus_word, bus_part, buses_line};

use crate::parts::{push_byte, push_colon, push_name, push_string};
use usb_desc::NoMemory;
use usb_enum::{BusInfo, UsbControllerType};
use usb_session_text::{end_line, push_number_part, push_space};

fn word_of_controller(controller: Option<UsbControllerType>) -> &'static str
    ensures word { result.now ≡ controller_word controller }
{
    match controller {
        None => "none",
        Some(UsbControllerType::XHCI) => "XHCI",
        Some(UsbControllerType::EHCI) => "EHCI",
        Some(UsbControllerType::OHCI) => "OHCI",
        Some(UsbControllerType::UHCI) => "UHCI",
        Some(UsbControllerType::VHCI) => "VHCI",
    }
}

/// Appends a bus: `BUS:TYPE:DRIVER:SYSTEM`.
#[tactic(auto, unfolding(crate::specs::Buses::bus_word))]
fn push_bus(out: &mut String, bus: &BusInfo) -> Result<(), NoMemory>
    ensures text { OnOk result (string_bytes out.new ≡ string_bytes out.old ++ bus_word bus.now) }
{
    push_byte(out, bus.busnum())?;
    push_colon(out)?;
    out.push_str(word_of_controller(bus.controller_type()))?;
    push_colon(out)?;
    push_name(out, bus.driver())?;
    push_colon(out)?;
    push_string(out, bus.system_name())
}

/// Appends buses, each with a space before it.
fn push_buses(out: &mut String, buses: &[BusInfo]) -> Result<(), NoMemory>
    ensures text { OnOk result
        (string_bytes out.new ≡ string_bytes out.old ++ flat_map bus_part buses.now) }
{
    for bus in buses {
        push_space(out)?;
        push_bus(out, bus)?;
    }
    Ok(())
}

/// Appends the answer that gives the buses of a listing: `buses N`, and for each ` BUS:TYPE:DRIVER:SYSTEM`.
#[tactic(auto, unfolding(crate::specs::Buses::buses_line))]
pub fn write_buses(out: &mut String, buses: &[BusInfo]) -> Result<(), NoMemory>
    ensures text { OnOk result
        (string_bytes out.new ≡ string_bytes out.old ++ buses_line buses.now) }
{
    let count = buses.len();
    out.push_str("buses")?;
    push_number_part(out, count as u64)?;
    push_buses(out, buses)?;
    end_line(out)
}
