//! Probing the folder of a device.

ghost use Rattle.std.specs.Prelude.{◌≡◌, ◌==◌, IfOk, codes};
ghost use Rattle.std.specs.List.{list_any, filter_map};
ghost use Rattle.usb_error.specs.Outcomes.{Tried};
ghost use Rattle.usb_enum_sysfs.specs.Attributes.{string};
ghost use Rattle.usb_enum_sysfs.specs.Ports.{ports};
ghost use Rattle.usb_enum_sysfs.specs.Speeds.{speed};
ghost use Rattle.usb_enum_sysfs.specs.Tree.{children_of};
ghost use Rattle.usb_enum.specs.Devices.{bus_id_of};
ghost use Rattle.usb_enum.specs.Probing.{probe, device_of, interface, interface_in, interfaces};

use crate::device::{DeviceInfo, bus_id};
use crate::interface::InterfaceInfo;
use crate::numbers::{Numbers, read_numbers};
use std::alloc::Global;
use usb_desc::{Fail, NoMemory};
use usb_enum_sysfs::{
    AttrTree, Speed, SysfsError, SysfsPath, Text, path_in, read_hex, read_ports, read_speed,
    read_string,
};

/// How a device is connected.
#[derive(Drop)]
struct Connection {
    bus_id: Text,
    port_chain: Vec<u8>,
    speed: Option<Speed>,
}

/// The strings that a device's attributes tell.
#[derive(Drop)]
struct Strings {
    manufacturer: Option<Text>,
    product: Option<Text>,
    serial: Option<Text>,
}

/// What the attributes of a folder tell of a device. The first of the numbers that fails is the
/// error; what else is missing or unreadable is absent.
pub fn probe_device(
    alloc: Global,
    tree: &AttrTree,
    path: SysfsPath,
) -> Result<DeviceInfo, Fail<SysfsError>>
    ensures tried { Tried result (probe tree.now path) }
{
    let numbers = read_numbers(alloc, tree, path.as_str())?;
    match probe_rest(alloc, tree, path, numbers) {
        Ok(device) => Ok(device),
        Err(_) => Err(Fail::Memory),
    }
}

fn probe_rest(
    alloc: Global,
    tree: &AttrTree,
    path: SysfsPath,
    numbers: Numbers,
) -> Result<DeviceInfo, NoMemory>
    ensures device { IfOk result (λ d. d ≡ device_of tree.now path numbers) }
{
    let folder = path.as_str();
    let connection = read_connection(alloc, tree, folder, numbers.busnum)?;
    let strings = read_strings(alloc, tree, folder)?;
    let interfaces = probe_interfaces(alloc, tree, folder)?;
    Ok(DeviceInfo {
        path,
        numbers,
        bus_id: connection.bus_id,
        port_chain: connection.port_chain,
        speed: connection.speed,
        manufacturer: strings.manufacturer,
        product: strings.product,
        serial: strings.serial,
        interfaces,
    })
}

fn read_connection(
    alloc: Global,
    tree: &AttrTree,
    folder: &str,
    busnum: u8,
) -> Result<Connection, NoMemory>
    ensures bus_id { IfOk result (λ c. c.bus_id ≡ bus_id_of busnum) }
    ensures ports { IfOk result (λ c. c.port_chain.items ≡ ports tree.now folder.now) }
    ensures speed { IfOk result (λ c. c.speed ≡ speed tree.now folder.now) }
{
    let bus_id = bus_id(alloc, busnum)?;
    let port_chain = read_ports(alloc, tree, folder)?;
    let speed = read_speed(alloc, tree, folder)?;
    Ok(Connection {
        bus_id,
        port_chain,
        speed,
    })
}

fn read_strings(alloc: Global, tree: &AttrTree, folder: &str) -> Result<Strings, NoMemory>
    ensures manufacturer { IfOk result
        (λ s. s.manufacturer ≡ string tree.now folder.now (codes "manufacturer")) }
    ensures product { IfOk result
        (λ s. s.product ≡ string tree.now folder.now (codes "product")) }
    ensures serial { IfOk result (λ s. s.serial ≡ string tree.now folder.now (codes "serial")) }
{
    let manufacturer = read_string(alloc, tree, folder, "manufacturer")?;
    let product = read_string(alloc, tree, folder, "product")?;
    let serial = read_string(alloc, tree, folder, "serial")?;
    Ok(Strings {
        manufacturer,
        product,
        serial,
    })
}

fn probe_interfaces(
    alloc: Global,
    tree: &AttrTree,
    folder: &str,
) -> Result<Vec<InterfaceInfo>, NoMemory>
    ensures interfaces { IfOk result (λ v. v.items ≡ interfaces tree.now folder.now) }
{
    let mut found = find_interfaces(alloc, tree, folder)?;
    let Ok(()) = found.sort_by_key(|interface| interface.number) else {
        return Err(NoMemory);
    };
    Ok(found)
}

/// The interfaces of a device, by the names of their folders.
fn find_interfaces(
    alloc: Global,
    tree: &AttrTree,
    folder: &str,
) -> Result<Vec<InterfaceInfo>, NoMemory>
    ensures found { IfOk result
        (λ v. v.items
        ≡ filter_map (interface_in tree.now folder.now) (children_of tree.now folder.now)) }
{
    let mut found = Vec::new(alloc);
    let Some(names) = tree.children(folder) else {
        return Ok(found);
    };
    for name in names.iter() {
        if let Some(interface) = interface_in(alloc, tree, folder, name.as_str())? {
            let Ok(()) = found.push(interface) else {
                return Err(NoMemory);
            };
        }
    }
    Ok(found)
}

/// The interface in a sub-folder, where it is one and its attributes read.
fn interface_in(
    alloc: Global,
    tree: &AttrTree,
    folder: &str,
    name: &str,
) -> Result<Option<InterfaceInfo>, NoMemory>
    ensures interface { IfOk result (λ i. i ≡ interface_in tree.now folder.now name.now) }
{
    if !has_colon(name) {
        return Ok(None);
    }
    let path = path_in(alloc, folder, name)?;
    match probe_interface(alloc, tree, path.as_str()) {
        Ok(interface) => Ok(Some(interface)),
        Err(Fail::Cause(_)) => Ok(None),
        Err(Fail::Memory) => Err(NoMemory),
    }
}

fn has_colon(name: &str) -> bool
    ensures colon { result ≡ list_any (λ b. b == 58) name.now }
{
    name.as_bytes().contains(&b':')
}

fn probe_interface(
    alloc: Global,
    tree: &AttrTree,
    folder: &str,
) -> Result<InterfaceInfo, Fail<SysfsError>>
    ensures tried { Tried result (interface tree.now folder.now) }
{
    let number = read_hex(alloc, tree, folder, "bInterfaceNumber")?;
    let class = read_hex(alloc, tree, folder, "bInterfaceClass")?;
    let subclass = read_hex(alloc, tree, folder, "bInterfaceSubClass")?;
    let protocol = read_hex(alloc, tree, folder, "bInterfaceProtocol")?;
    let Ok(name) = read_string(alloc, tree, folder, "interface") else {
        return Err(Fail::Memory);
    };
    Ok(InterfaceInfo {
        number,
        class,
        subclass,
        protocol,
        name,
    })
}
