//! What attributes read as, and a bus and a device that are asked for, with answers worked out by
//! hand. More of them are asked by scripts.

use crate::answers::check;
use std::alloc::{AllocError, Global};
use std::test::Fail;
use usb_desc::Fail::Cause;
use usb_desc::NoMemory;
use usb_enum::{
    AttrTree, DeviceInfo, DeviceSelector, HotplugEvent, InterfaceInfo, StringDescriptor,
    list_buses, request_device,
};
use usb_enum_sysfs::{Speed, read_decimal};
use usb_error::Error;

/// Texts, and what they are in hexadecimal and in decimal digits and as speeds; and what is told
/// of texts that are no value.
const VALUES: &str = "\
byte 2a = Some(42)
byte 2A = Some(42)
byte +2a = Some(42)
byte 0x2a = Some(42)
byte 0x+2a = Some(42)
byte 00ff = Some(255)
byte +0x2a = None
byte 0X2a = None
byte 0x = None
byte = None
byte -1 = None
byte  2a = None
byte 100 = None
word 0xffff = Some(65535)
word 10000 = None
decimal +7 = Some(7)
decimal 006 = Some(6)
decimal 256 = None
decimal 0x7 = None
speed low = Some(Low)
speed 1.5 = Some(Low)
speed full = Some(Full)
speed 12 = Some(Full)
speed high = Some(High)
speed 480 = Some(High)
speed super = Some(Super)
speed 5000 = Some(Super)
speed super+ = Some(SuperPlus)
speed 10000 = Some(SuperPlus)
speed 4800 = None
parse \0 a\u{ff} = parse 002061c3bf
parse = parse -";

#[test]
fn values_are_read_as_std_reads_them(rt: HostRuntime) -> Result<(), AllocError> {
    check(&rt, VALUES)
}

/// The attributes of a device, of its interface and of a root hub: folders, names and values.
const ATTRIBUTES: &str = "\
/d busnum=1
/d devnum=6
/d idVendor=aaaa
/d idProduct=bbbb
/d bcdDevice=0100
/d version=2.00
/d bDeviceClass=00
/d bDeviceSubClass=00
/d bDeviceProtocol=00
/d product=Box
/d/1-6:1.0 bInterfaceNumber=00
/d/1-6:1.0 bInterfaceClass=ff
/d/1-6:1.0 bInterfaceSubClass=00
/d/1-6:1.0 bInterfaceProtocol=00
/p/usb1 busnum=1
/p/usb1 devnum=1
/p/usb1 idVendor=1d6b
/p/usb1 idProduct=0002
/p/usb1 bcdDevice=0100
/p/usb1 version=2.00
/p/usb1 bDeviceClass=00
/p/usb1 bDeviceSubClass=00
/p/usb1 bDeviceProtocol=00";

/// Whether a speed is less than each that is faster.
fn is_ascending(speeds: &[Speed]) -> bool {
    speeds.windows(2).all(|pair| pair[0] < pair[1])
}

#[test]
fn a_slower_speed_is_less_than_a_faster_one(rt: HostRuntime) -> Result<(), Fail> {
    let speeds = [
        Speed::Low,
        Speed::Full,
        Speed::High,
        Speed::Super,
        Speed::SuperPlus,
    ];
    assert!(rt; is_ascending(&speeds));
    Ok(())
}

/// Sets an attribute, whose line is `FOLDER NAME=VALUE`.
fn set_attribute(tree: &mut AttrTree, line: &str) -> Result<(), NoMemory> {
    let (path, value) = line.split_once("=").unwrap_or((line, ""));
    let (folder, name) = path.split_once(" ").unwrap_or((path, ""));
    tree.attr(folder, name, value.as_bytes())
}

/// One device with one interface, and a bus.
fn set_device(tree: &mut AttrTree) -> Result<(), NoMemory> {
    for line in ATTRIBUTES.split('\n') {
        set_attribute(tree, line)?;
    }
    tree.entry("1-6", "/d")?;
    tree.entry("usb1", "/p/usb1")?;
    tree.child("/d", "1-6:1.0")
}

/// Whether no text was read.
fn is_absent(read: Result<Option<String>, usb_desc::Fail<Error>>) -> bool {
    matches!(read, Ok(None))
}

/// Whether this text was read.
fn is_read(read: Result<Option<String>, usb_desc::Fail<Error>>, wanted: &str) -> bool {
    match read {
        Ok(Some(text)) => text.as_str() == wanted,
        _ => false,
    }
}

/// Whether a copy of the interface is interface 0 with no name.
fn is_interface(found: &InterfaceInfo) -> bool {
    match found.clone() {
        Ok(copy) => copy.interface_number() == 0 && is_absent(copy.get_interface_string()),
        Err(NoMemory) => false,
    }
}

/// Whether it is the device, which has a product's name and no other string.
fn is_device(found: &DeviceInfo) -> bool {
    found.sysfs_path() == "/d"
        && found.bus_id() == "001"
        && is_absent(found.get_manufacturer_string())
        && is_absent(found.get_serial_number_string())
        && is_read(found.get_product_string(), "Box")
        && match found.interfaces().last() {
            Some(last) => is_interface(last),
            None => false,
        }
}

/// Whether a copy of the event tells the device.
fn is_connected(device: DeviceInfo) -> Result<bool, NoMemory> {
    let event = HotplugEvent::Connected(device);
    match event.clone()? {
        HotplugEvent::Connected(copy) => Ok(is_device(&copy)),
        HotplugEvent::Disconnected(_) => Ok(false),
    }
}

/// Whether one of the selectors finds the device, and it is told by its copies.
fn is_found(alloc: Global, tree: &AttrTree, wanted: &[DeviceSelector]) -> Result<bool, Fail> {
    match request_device(alloc, tree, wanted)? {
        Some(found) => {
            let copy = found.clone()?;
            Ok(is_device(&copy) && is_connected(found)?)
        }
        None => Ok(false),
    }
}

/// Whether the second of two selectors finds the device, and not the first.
fn is_requested(alloc: Global, tree: &AttrTree) -> Result<bool, Fail> {
    let wanted = [
        DeviceSelector::all().with_class(3),
        DeviceSelector::all().with_vid_pid(0xaaaa, 0xbbbb).clone()?,
    ];
    Ok(is_found(alloc, tree, &wanted)? && !is_found(alloc, tree, &wanted[..1])?)
}

/// Whether the bus is listed alone, with its folder, its name and its root hub.
fn is_listed(alloc: Global, tree: &AttrTree) -> Result<bool, Fail> {
    let buses = list_buses(alloc, tree)?;
    let is_listed = match buses.as_slice() {
        [bus] => {
            let bus = bus.clone()?;
            bus.sysfs_path() == "/p/usb1"
                && bus.bus_id() == "001"
                && bus.root_hub().vendor_id() == 0x1d6b
        }
        _ => false,
    };
    drop(buses);
    Ok(is_listed)
}

/// Whether the address in a folder is not read, which is shown so.
fn is_refused(alloc: Global, tree: &AttrTree, folder: &str, shown: &str) -> Result<bool, Fail> {
    match read_decimal(alloc, tree, folder, "devnum") {
        Err(Cause(error)) => {
            // what is shown is a copy, whose kind is one more
            let mut copy = error.clone()?;
            copy.kind = error.kind.clone()?;
            let text = copy.to_string(alloc)?;
            Ok(text.as_str() == shown)
        }
        _ => Ok(false),
    }
}

/// Whether a copy of the names of a folder's sub-folders is this one name.
fn has_child(tree: &AttrTree, folder: &str, name: &str) -> Result<bool, NoMemory> {
    let Some(names) = tree.children(folder) else {
        return Ok(false);
    };
    let copy = names.clone()?;
    let is_first = match copy.iter().next() {
        Some(first) => first.as_str() == name,
        None => false,
    };
    Ok(is_first && copy.iter().count() == 1)
}

/// Whether the bus is listed and the device found in the tree that holds them, and a path keeps the
/// slash at its end.
fn holds_device(alloc: Global, tree: &AttrTree) -> Result<bool, Fail> {
    Ok(
        is_listed(alloc, tree)?
            && is_requested(alloc, tree)?
            && has_child(tree, "/d", "1-6:1.0")?
            && is_refused(alloc, tree, "/d/", "/d//devnum io 2")?,
    )
}

/// Whether a copy of the tree holds the bus and the device that are set in the tree.
fn is_held(alloc: Global, tree: &mut AttrTree) -> Result<bool, Fail> {
    set_device(tree)?;
    let copy = tree.clone()?;
    let is_held = holds_device(alloc, &copy);
    drop(copy);
    is_held
}

/// The tree is owned here alone and dropped by a call, since each other function that owns one is
/// slow to prove.
#[test]
fn a_device_is_found_and_tells_its_strings(rt: HostRuntime) -> Result<(), Fail> {
    let mut tree = AttrTree::new(rt.alloc());
    let is_held = is_held(rt.alloc(), &mut tree);
    drop(tree);
    assert!(rt; is_held?);
    Ok(())
}

#[test]
fn a_string_descriptor_is_kept_or_there_is_none(rt: HostRuntime) -> Result<(), Fail> {
    assert!(rt; is_absent(StringDescriptor::NotPresent.fetch()));
    let kept = StringDescriptor::Cached(String::from_str(rt.alloc(), "Box")?).clone()?;
    assert!(rt; matches!(kept.cached(), Some("Box")) && is_read(kept.fetch(), "Box"));
    Ok(())
}
