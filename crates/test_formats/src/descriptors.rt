//! Descriptors of devices, strings, sets of endpoints and setup packets.

mod examples;
mod questions;

use crate::answers::check;
use std::alloc::{AllocError, Global};
use std::test::Fail;
use usb_desc::{
    Descriptor, DeviceDescriptor, Languages, concatenated, find_configuration, language_id,
};

#[test]
fn descriptors_read_as_nusb_reads_them(rt: HostRuntime) -> Result<(), AllocError> {
    check(&rt, questions::NUSB)
}

#[test]
fn descriptors_read_as_their_bytes_say(rt: HostRuntime) -> Result<(), AllocError> {
    check(&rt, examples::EXAMPLES)
}

fn walks(bytes: &[u8]) -> Option<bool> {
    let configuration = concatenated(bytes).next()?;
    let mut walk = configuration.descriptors();
    let again = walk.clone().ok()?;
    let first = walk.next()?;
    let second = walk.next()?;
    // a first byte of 1 ends the walk
    let is_over = walk.next().is_none() && walk.as_bytes() == [1, 5].as_slice();
    Some(is_over && again.count() == 2 && is_first(&first, &second))
}

/// Whether the first equals its copy and not the second.
fn is_first(first: &Descriptor, second: &Descriptor) -> bool {
    match first.clone() {
        Ok(copy) => copy.as_slice() == [3, 0xff, 0].as_slice() && copy == *first && copy != *second,
        Err(_) => false,
    }
}

#[test]
fn a_walk_yields_descriptors_and_keeps_the_rest(rt: HostRuntime) -> Result<(), Fail> {
    let bytes = hex::decode(rt.alloc(), "09021200000200803203ff00040409010105")?;
    assert!(rt; walks(&bytes) == Some(true) && language_id::US_ENGLISH == 0x0409);
    Ok(())
}

/// A device whose configuration 1 has an interface with an endpoint.
const SHOWN: &str =
    "1201000200000040aaaabbbb00010001020309021900010100a0320904000001030000000705810308000a";

/// Whether the debug texts of copies of the device, its configuration and its interface, and that
/// of its endpoint, show their fields.
fn show_fields(alloc: Global, bytes: &[u8]) -> Option<bool> {
    let device = DeviceDescriptor::new(bytes)?.clone().ok()?;
    let configuration = find_configuration(bytes, 1)?.clone().ok()?;
    let setting = configuration.find_alt_setting(0, 0)?.clone().ok()?;
    let endpoint = setting.find_endpoint(0x81)?;
    let text = format!(in alloc; "{device:?} {configuration:?} {setting:?} {endpoint:?}").ok()?;
    Some(is_debug_text(text.as_str()))
}

fn is_debug_text(text: &str) -> bool {
    text.contains("vendor_id: 43690")
        && text.contains("attributes: 160")
        && text.contains("class: 3")
        && text.contains("transfer_type: Interrupt")
}

#[test]
fn debug_texts_of_copies_show_the_fields(rt: HostRuntime) -> Result<(), Fail> {
    let bytes = hex::decode(rt.alloc(), SHOWN)?;
    assert!(rt; show_fields(rt.alloc(), &bytes) == Some(true));
    Ok(())
}

#[test]
fn no_bytes_hold_no_language(rt: HostRuntime) {
    assert!(rt; Languages::new(Vec::new(rt.alloc())).next().is_none());
}
