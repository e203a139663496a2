//! Handles of devices that are open at a host, of their claimed interfaces, and of control
//! transfers on their way; and the laws of hosts.
//!
//! What their calls speak of is found here too, so that a driver needs this crate alone: the host,
//! endpoints and the bus that they stand on, descriptors, buffers and completions, errors and what
//! is made of a future; and for its tests the kernel, with its simulated devices, steps and events.
#![tactic(auto)]

mod control;
mod descriptors;
mod device;
mod future;
mod laws;

pub use device::{Device, Interface};
pub use future::{OnHost, TransferFuture};
pub use laws::{
    claims_are_owned, devices_are_held, lines_go_on, nothing_is_kept_once_all_is_closed,
    tickets_end_once, what_is_reaped_is_dropped,
};
pub use usb_desc::{
    AltSettings, ConfigurationDescriptor, Configurations, ControlIn, ControlOut, ControlType,
    Descriptor, DescriptorIter, DeviceDescriptor, Direction, EndpointDescriptor, Endpoints, Fail,
    GroupSettings, InterfaceDescriptor, InterfaceDescriptors, Interfaces, Languages, NoMemory,
    Recipient, StringError, TransferType,
};
pub use usb_device_endpoint::{Bus, Endpoint, NextComplete, Route, Turn};
pub use usb_device_host::{AltSettingsOf, Host};
pub use usb_device_ledger::{OpenDevice, TicketEnd};
pub use usb_enum_sysfs::Speed;
pub use usb_error::{
    ActiveConfigurationError, Error, ErrorKind, GetDescriptorError, IoFault, IoKind, Message,
};
pub use usb_kernel::{
    Body, Bytes, Descriptors, Done, Event, Kernel, KernelCall, KernelStep, SimDevice, Submission,
    Submitted, TicketInfo, errno,
};
pub use usb_xfer::{
    Any, Buffer, Bulk, BulkOrInterrupt, Completion, EndpointDirection, EndpointType, In, Interrupt,
    KnownDirection, KnownType, Map, MapErr, MapFuture, MapOk, MapResult, MaybeFuture, Out, Ready,
    TransferError,
};
