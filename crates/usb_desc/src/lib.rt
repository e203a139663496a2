//! Descriptors of USB devices, as USB 2.0 chapter 9 has them.
#![tactic(auto)]

mod bitset;
mod chain;
mod configuration;
mod control;
mod device;
mod endpoint;
pub mod errno;
mod error;
mod interface;
mod interfaces;
mod layout;
mod string;
mod types;

pub use bitset::EndpointBitSet;
pub use chain::{Descriptor, DescriptorIter};
pub use configuration::{
    ConfigurationDescriptor, Configurations, concatenated, find_configuration,
};
pub use control::{ControlIn, ControlOut, ControlType, Recipient};
pub use device::DeviceDescriptor;
pub use endpoint::{EndpointDescriptor, Endpoints};
pub use error::{Fail, NoMemory};
pub use interface::{AltSettings, InterfaceDescriptor};
pub use interfaces::{GroupSettings, InterfaceDescriptors, Interfaces};
pub use string::{
    Languages, StringError, decode_string_descriptor, language_id, validate_string_descriptor,
};
pub use types::{Direction, TransferType};
