//! Copies of values that own memory, which tell what their sources told.

use std::alloc::Global;
use std::test::Fail;
use usb_desc::Languages;
use usb_enum::{Attribute, DeviceSelector, SysfsPath, UdevPacket};
use usb_kernel::{Bytes, KernelStep};
use usb_script_lines::{
    ControlData, Criterion, Data, FileName, Item, Path, Reading, Selector, Target, read_line,
};

/// Whether a copy of languages has those that are left, as they have themselves.
fn copies_languages(alloc: Global) -> Result<bool, Fail> {
    let mut languages = Languages::new(vec![in alloc; 6, 3, 9, 4, 7, 4]?);
    let first = languages.next();
    let mut copy = languages.clone()?;
    let second = copy.next();
    Ok(first == Some(0x0409) && second == Some(0x0407) && languages.next() == second)
}

#[test]
fn a_copy_of_languages_has_those_that_are_left(rt: HostRuntime) -> Result<(), Fail> {
    assert!(rt; copies_languages(rt.alloc())?);
    Ok(())
}

fn copies_places(alloc: Global) -> Result<bool, Fail> {
    let path = Path::parse(alloc, b"/a/b")?.clone()?;
    let name = FileName::parse(alloc, b"c")?.clone()?;
    let target = Target::parse(alloc, b"../d")?.clone()?;
    Ok(path.as_str() == "/a/b" && name.as_str() == "c" && target.as_str() == "../d")
}

fn copies_bytes(alloc: Global) -> Result<bool, Fail> {
    let data = Data::parse(alloc, b"0aff")?.clone()?;
    let stage = ControlData::parse(alloc, b"0b")?.clone()?;
    Ok(data.as_slice() == [10, 255].as_slice() && stage.as_slice() == [11].as_slice())
}

fn copies_selector(alloc: Global) -> Result<bool, Fail> {
    let selector = Selector::parse(alloc, &[b"vidpid", b"aaaa", b"bbbb"])?.clone()?;
    match selector.as_slice() {
        [criterion] => Ok(matches!(criterion.clone()?, Criterion::Product(0xaaaa, 0xbbbb))),
        _ => Ok(false),
    }
}

/// Whether a copy of the line's steps is one step, by which endpoint 0x02 of device 3
/// acknowledges a packet.
fn copies_steps(alloc: Global) -> Result<bool, Fail> {
    let mut words = Vec::new(alloc);
    match read_line(alloc, &mut words, b"! ack k3 02")? {
        Reading::Read(Item::Steps(steps)) => {
            let copy = steps.clone()?;
            Ok(matches!(
                copy.as_slice(),
                [KernelStep::Ack {
                    device: 3,
                    endpoint: 2,
                }]
            ))
        }
        _ => Ok(false),
    }
}

#[test]
fn copies_of_what_a_line_holds_are_the_same(rt: HostRuntime) -> Result<(), Fail> {
    assert!(rt; copies_places(rt.alloc())? && copies_bytes(rt.alloc())?);
    assert!(rt; copies_selector(rt.alloc())? && copies_steps(rt.alloc())?);
    Ok(())
}

/// Whether copies of what an attribute holds, of the path of a folder and of a packet are the same.
fn copies_parts(alloc: Global) -> Result<bool, Fail> {
    let attribute = Attribute::Content(Bytes::from_slice(alloc, &[5])?).clone()?;
    let path = SysfsPath::new(String::from_str(alloc, "/d")?).clone()?;
    let packet = UdevPacket {
        groups: 2,
        bytes: Bytes::from_slice(alloc, &[6])?,
    };
    let packet = packet.clone()?;
    let is_content = match &attribute {
        Attribute::Content(bytes) => bytes.as_slice() == [5].as_slice(),
        Attribute::Denied(_) => false,
    };
    let is_packet = packet.groups == 2 && packet.bytes.as_slice() == [6].as_slice();
    Ok(is_content && path.as_str() == "/d" && is_packet)
}

/// Whether a copy of what is asked of a device asks the same.
fn copies_selectors(alloc: Global) -> Result<bool, Fail> {
    let serial = String::from_str(alloc, "S1")?;
    let asked = DeviceSelector::all()
        .with_vid_pid(0xaaaa, 0xbbbb)
        .with_class_subclass_protocol(1, 2, 3)
        .with_serial_number(serial);
    let copy = asked.clone()?;
    let is_product = copy.vendor_id() == Some(0xaaaa) && copy.product_id() == Some(0xbbbb);
    let is_class = copy.class() == Some(1) && copy.subclass() == Some(2);
    Ok(is_product && is_class && copy.protocol() == Some(3) && copy.serial_number() == Some("S1"))
}

#[test]
fn copies_of_parts_and_of_selectors_are_the_same(rt: HostRuntime) -> Result<(), Fail> {
    assert!(rt; copies_parts(rt.alloc())? && copies_selectors(rt.alloc())?);
    Ok(())
}
