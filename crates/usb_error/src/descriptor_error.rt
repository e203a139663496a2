//! The error of a descriptor that was asked of a device.

use std::fmt;
use usb_xfer::TransferError;

/// Why a descriptor was not read.
#[derive(Clone, Copy, Debug)]
pub enum GetDescriptorError {
    /// The control transfer failed.
    Transfer(TransferError),
    /// What the device answered is no such descriptor.
    InvalidDescriptor,
}

impl fmt::Display for GetDescriptorError {
    ghost use Rattle.std.specs.Prelude.{Some};
    ghost use Rattle.usb_error.specs.DescriptorErrors.{descriptor_error_text};

    ghost output = { λ e. Some (descriptor_error_text e) };

    fn fmt<W: fmt::Write>(&self, f: &mut fmt::Formatter<W>) -> fmt::Result {
        match self {
            GetDescriptorError::Transfer(error) => write!(f, "{error}"),
            GetDescriptorError::InvalidDescriptor => f.write_str("invalid descriptor"),
        }
    }
}

impl std::error::Error for GetDescriptorError {}
