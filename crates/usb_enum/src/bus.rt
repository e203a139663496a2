//! Buses, by their root hubs.

ghost use Rattle.std.specs.Prelude.{◌≡◌, IfOk, codes};
ghost use Rattle.std.specs.List.{filter_map};
ghost use Rattle.std.specs.Option.{option_map, option_copied, option_and_then};
ghost use Rattle.std.specs.Path.{path_parent};
ghost use Rattle.usb_error.specs.Outcomes.{Tried, result_map};
ghost use Rattle.usb_enum.specs.Buses.{buses, bus_of, driver_of, bus_under};
ghost use Rattle.usb_enum.specs.Controllers.{controller_of};

use crate::controller::UsbControllerType;
use crate::device::DeviceInfo;
use crate::enumeration::list_root_hubs;
use crate::interface::copy_of;
use std::alloc::Global;
use std::marker::Model;
use std::path::Path;
use usb_desc::{Fail, NoMemory};
use usb_enum_sysfs::{AttrTree, Text, path_in};
use usb_error::Error;

/// A bus: its root hub and its controller.
#[derive(Debug, Drop)]
pub struct BusInfo {
    hub: DeviceInfo,
    driver: Option<Text>,
    controller: Option<UsbControllerType>,
}

impl Model for BusInfo {
    ghost use Rattle.usb_enum.specs.Buses.{BusFacts};

    ghost Value = { BusFacts };

    ghost view = { λ b. record { hub = b.hub; driver = b.driver; controller = b.controller } };
}

impl BusInfo {
    /// The same bus once more.
    pub fn clone(&self) -> Result<BusInfo, NoMemory>
        ensures same { IfOk result (λ copy. copy ≡ self.now) }
    {
        let hub = self.hub.clone()?;
        let driver = copy_of(&self.driver)?;
        Ok(BusInfo {
            hub,
            driver,
            controller: self.controller,
        })
    }

    /// The path of the root hub's folder, which is the bus's own.
    pub fn sysfs_path(&self) -> &str
        ensures path { result.now ≡ self.now.hub.path }
    {
        self.hub.sysfs_path()
    }

    /// The number of the bus.
    pub fn busnum(&self) -> u8
        ensures number { result ≡ self.now.hub.numbers.busnum }
    {
        self.hub.busnum()
    }

    /// The same in three decimal digits.
    pub fn bus_id(&self) -> &str
        ensures id { result.now ≡ self.now.hub.bus_id }
    {
        self.hub.bus_id()
    }

    /// The root hub.
    pub fn root_hub(&self) -> &DeviceInfo
        ensures hub { result.now ≡ self.now.hub }
    {
        &self.hub
    }

    /// The kind of the controller, where the name of its driver tells it.
    pub fn controller_type(&self) -> Option<UsbControllerType>
        ensures controller { result ≡ self.now.controller }
    {
        self.controller
    }

    /// The name of the controller's driver.
    pub fn driver(&self) -> Option<&str>
        ensures driver { option_map (λ t. t.now) result ≡ self.now.driver }
    {
        self.driver.as_ref().map(|text| text.as_str())
    }

    /// The product string of the root hub.
    pub fn system_name(&self) -> Option<&str>
        ensures name { option_map (λ t. t.now) result ≡ self.now.hub.product }
    {
        self.hub.product_string()
    }
}

/// The buses, in the order of the listing of their root hubs.
pub fn list_buses(alloc: Global, tree: &AttrTree) -> Result<Vec<BusInfo>, Fail<Error>>
    ensures tried { Tried (result_map (λ v. v.items) result) (buses tree.now) }
{
    match list_root_hubs(alloc, tree) {
        Ok(hubs) => {
            match find_buses(alloc, tree, hubs) {
                Ok(buses) => Ok(buses),
                Err(_) => Err(Fail::Memory),
            }
        }
        Err(error) => Err(error),
    }
}

/// The buses of these root hubs.
fn find_buses(
    alloc: Global,
    tree: &AttrTree,
    hubs: Vec<DeviceInfo>,
) -> Result<Vec<BusInfo>, NoMemory>
    ensures buses { IfOk result (λ v. v.items ≡ filter_map (bus_of tree.now) hubs.items) }
{
    let mut found = Vec::new(alloc);
    for hub in hubs {
        if let Some(bus) = bus_of(alloc, tree, hub)? {
            let Ok(()) = found.push(bus) else {
                return Err(NoMemory);
            };
        }
    }
    Ok(found)
}

/// The bus of a root hub, whose controller is the parent of the hub's folder.
fn bus_of(alloc: Global, tree: &AttrTree, hub: DeviceInfo) -> Result<Option<BusInfo>, NoMemory>
    ensures bus { IfOk result (λ b. b ≡ bus_of tree.now hub) }
{
    match driver_above(alloc, tree, hub.sysfs_path())? {
        Some(driver) => Ok(Some(bus_by(hub, driver))),
        None => Ok(None),
    }
}

/// The bus of a root hub whose controller has this driver.
fn bus_by(hub: DeviceInfo, driver: Option<Text>) -> BusInfo
    ensures bus { result
        ≡ record { hub = hub; driver = driver; controller = option_and_then controller_of driver } }
{
    let controller = match &driver {
        Some(name) => UsbControllerType::from_str(name.as_str()),
        None => None,
    };
    BusInfo {
        hub,
        driver,
        controller,
    }
}

/// The driver of the folder above this one. The outer option says whether there is such a folder.
fn driver_above(
    alloc: Global,
    tree: &AttrTree,
    folder: &str,
) -> Result<Option<Option<Text>>, NoMemory>
    ensures driver { IfOk result
        (λ d. d ≡ option_map (driver_of tree.now) (path_parent folder.now)) }
{
    match Path::new(folder).parent() {
        Some(parent) => Ok(Some(driver_of(alloc, tree, parent.as_str())?)),
        None => Ok(None),
    }
}

/// The name of a folder's driver: the file name of the target of its link.
fn driver_of(alloc: Global, tree: &AttrTree, folder: &str) -> Result<Option<Text>, NoMemory>
    ensures driver { IfOk result (λ d. d ≡ driver_of tree.now folder.now) }
{
    let path = path_in(alloc, folder, "driver")?;
    let Some(target) = tree.target(path.as_str()) else {
        return Ok(None);
    };
    match Path::new(target.as_str()).file_name() {
        Some(name) => Ok(Some(Text::from_str(alloc, name)?)),
        None => Ok(None),
    }
}
