//! Simulated devices: what is kept of each, the rules by which calls on them are refused, the steps
//! and calls of a kernel as values, and armed refusals.
#![tactic(auto)]

mod bytes;
mod calls;
mod descriptors;
mod devices;
mod interfaces;
mod refusals;
mod step;

pub use bytes::Bytes;
pub use calls::{DeviceCall, answer};
pub use descriptors::Descriptors;
pub use devices::{
    DeviceState, SimDevice, fresh_devices, number_at, plugged, release_interface, unplug_device,
};
pub use interfaces::InterfaceSet;
pub use refusals::Refusals;
pub use step::{Armed, KernelCall, KernelStep};
