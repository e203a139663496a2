//! Listing devices and root hubs, and asking for one device.

ghost use Rattle.std.specs.Prelude.{◌≡◌, IfOk, Ok};
ghost use Rattle.std.specs.List.{filter_map, list_any, list_all, find};
ghost use Rattle.usb_error.specs.Outcomes.{Tried, result_map};
ghost use Rattle.usb_enum.specs.Listing.{devices, root_hubs, listed, device_at, is_named, is_device_byte, requested};
ghost use Rattle.usb_enum.specs.Selectors.{matches_any};

use crate::device::DeviceInfo;
use crate::probe::probe_device;
use crate::selector::DeviceSelector;
use std::alloc::Global;
use usb_desc::{Fail, NoMemory};
use usb_enum_sysfs::{AttrTree, SysfsPath, Text};
use usb_error::Error;

/// What is listed.
#[derive(Clone, Copy, PartialEq, Eq, Debug)]
pub enum Kind {
    /// Devices on ports.
    Devices,
    /// The hubs that buses begin with.
    RootHubs,
}

impl Kind {
    /// Whether an entry of the listing with this name is of this kind.
    fn is_named(self, name: &str) -> bool
        ensures named { result ≡ is_named self name.now }
    {
        match self {
            Kind::Devices => is_device_name(name.as_bytes()),
            Kind::RootHubs => name.as_bytes().starts_with(b"usb"),
        }
    }
}

/// Digits, dashes and dots alone, as `1-6.4`.
fn is_device_name(name: &[u8]) -> bool
    ensures value { result ≡ list_all is_device_byte name.now }
{
    name.iter().all(|b| is_device_byte(*b))
}

fn is_device_byte(b: u8) -> bool
    ensures value { result ≡ is_device_byte b }
{
    b'0' <= b && b <= b'9' || b == b'-' || b == b'.'
}

/// The devices on ports, in the order of the listing. One whose probing fails is left out.
pub fn list_devices(alloc: Global, tree: &AttrTree) -> Result<Vec<DeviceInfo>, Fail<Error>>
    ensures tried { Tried (result_map (λ v. v.items) result) (devices tree.now) }
{
    list(alloc, tree, Kind::Devices)
}

/// The root hubs, in the order of the listing. One whose probing fails is left out.
pub fn list_root_hubs(alloc: Global, tree: &AttrTree) -> Result<Vec<DeviceInfo>, Fail<Error>>
    ensures tried { Tried (result_map (λ v. v.items) result) (root_hubs tree.now) }
{
    list(alloc, tree, Kind::RootHubs)
}

/// What is of this kind in the listing, or why there is no listing.
fn list(alloc: Global, tree: &AttrTree, kind: Kind) -> Result<Vec<DeviceInfo>, Fail<Error>>
    ensures tried { Tried (result_map (λ v. v.items) result)
        (listed kind tree.now tree.now.refusal) }
{
    if let Some(errno) = tree.refusal() {
        return Err(Fail::Cause(Error::listing(errno)));
    }
    match find_devices(alloc, tree, kind) {
        Ok(devices) => Ok(devices),
        Err(_) => Err(Fail::Memory),
    }
}

/// The devices of this kind that the entries of the listing lead to.
fn find_devices(alloc: Global, tree: &AttrTree, kind: Kind) -> Result<Vec<DeviceInfo>, NoMemory>
    ensures devices { IfOk result
        (λ v. v.items ≡ filter_map (device_at kind tree.now) tree.now.entries) }
{
    let mut found = Vec::new(alloc);
    for (name, path) in tree.entries() {
        if let Some(device) = device_at(alloc, tree, kind, name.as_str(), path)? {
            let Ok(()) = found.push(device) else {
                return Err(NoMemory);
            };
        }
    }
    Ok(found)
}

/// The device to which an entry leads, where it is of this kind and probing it succeeds.
fn device_at(
    alloc: Global,
    tree: &AttrTree,
    kind: Kind,
    name: &str,
    path: &Text,
) -> Result<Option<DeviceInfo>, NoMemory>
    ensures device { IfOk result (λ d. d ≡ device_at kind tree.now (name.now, path.now)) }
{
    if !kind.is_named(name) {
        return Ok(None);
    }
    let path = SysfsPath::from_text(path.clone()?);
    match probe_device(alloc, tree, path) {
        Ok(device) => Ok(Some(device)),
        Err(Fail::Cause(_)) => Ok(None),
        Err(Fail::Memory) => Err(NoMemory),
    }
}

/// The first of the devices that one of the selectors matches.
pub fn request_device(
    alloc: Global,
    tree: &AttrTree,
    selectors: &[DeviceSelector],
) -> Result<Option<DeviceInfo>, Fail<Error>>
    ensures tried { Tried result (requested tree.now selectors.now) }
{
    match list_devices(alloc, tree) {
        Ok(devices) => Ok(first_match(devices, selectors)),
        Err(error) => Err(error),
    }
}

fn first_match(devices: Vec<DeviceInfo>, selectors: &[DeviceSelector]) -> Option<DeviceInfo>
    ensures device { result ≡ find (matches_any selectors.now) devices.items }
{
    devices
        .into_iter()
        .find(|device| matches_any(selectors, device))
}

fn matches_any(selectors: &[DeviceSelector], device: &DeviceInfo) -> bool
    ensures value { result ≡ matches_any selectors.now device.now }
{
    selectors.iter().any(|selector| device.matches(selector))
}
