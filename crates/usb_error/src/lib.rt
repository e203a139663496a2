//! Why an operation other than a transfer failed: kinds, messages and codes; and which fault of
//! input or output each error is.
#![tactic(auto)]

mod active;
mod descriptor_error;
mod error;
mod io_fault;
mod io_kind;
mod kind;
mod message;

pub use active::ActiveConfigurationError;
pub use descriptor_error::GetDescriptorError;
pub use error::Error;
pub use io_fault::IoFault;
pub use io_kind::IoKind;
pub use kind::ErrorKind;
pub use message::Message;
