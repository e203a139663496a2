//! Enumeration of USB devices and buses over a tree of attributes, and devices that come and go, by
//! packets of udev.
#![tactic(auto)]

mod bus;
mod controller;
mod device;
mod enumeration;
mod hotplug;
mod interface;
mod numbers;
mod opening;
mod probe;
mod selector;
mod string_descriptor;
mod udev;

pub use bus::{BusInfo, list_buses};
pub use controller::UsbControllerType;
pub use device::{DeviceId, DeviceInfo};
pub use enumeration::{Kind, list_devices, list_root_hubs, request_device};
pub use hotplug::{HotplugEvent, HotplugWatch, UdevPacket, watch_devices};
pub use interface::InterfaceInfo;
pub use numbers::Numbers;
pub use probe::probe_device;
pub use selector::DeviceSelector;
pub use string_descriptor::StringDescriptor;
pub use usb_enum_sysfs::{
    AttrTree, Attribute, FromHexStr, Speed, SysfsError, SysfsErrorKind, SysfsPath, Text,
};
