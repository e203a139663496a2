//! The kinds of faults of input and output.

ghost use Rattle.std.specs.Prelude.{◌≡◌};
ghost use Rattle.usb_error.specs.IoKinds.{transfer_kind, call_kind, descriptor_kind};

use crate::descriptor_error::GetDescriptorError;
use crate::kind::ErrorKind;
use usb_xfer::TransferError;

/// What a fault of input or output is about, by the names of `std::io::ErrorKind`.
#[derive(Clone, Copy, PartialEq, Eq, Debug)]
pub enum IoKind {
    /// The transfer was cancelled.
    Interrupted,
    /// The endpoint is halted.
    ConnectionReset,
    /// The device is gone, as a transfer found.
    ConnectionAborted,
    /// The device is gone, as another call found.
    NotConnected,
    /// An argument is invalid or not supported.
    InvalidInput,
    /// What the device answered is invalid.
    InvalidData,
    /// The system does not allow it to this user.
    PermissionDenied,
    /// There is no such configuration, interface, setting or endpoint.
    NotFound,
    /// The system does not support it.
    Unsupported,
    /// The time of a read or a write was up.
    TimedOut,
    /// Reading ended without a short packet.
    UnexpectedEof,
    /// Anything else.
    Other,
}

impl IoKind {
    pub(crate) fn of_transfer(error: TransferError) -> IoKind
        ensures kind { result ≡ transfer_kind error }
    {
        match error {
            TransferError::Cancelled => IoKind::Interrupted,
            TransferError::Stall => IoKind::ConnectionReset,
            TransferError::Disconnected => IoKind::ConnectionAborted,
            TransferError::InvalidArgument => IoKind::InvalidInput,
            TransferError::Fault | TransferError::Unknown(_) => IoKind::Other,
        }
    }

    pub(crate) fn of_kind(kind: ErrorKind) -> IoKind
        ensures kind { result ≡ call_kind kind }
    {
        match kind {
            ErrorKind::Disconnected => IoKind::NotConnected,
            ErrorKind::PermissionDenied => IoKind::PermissionDenied,
            ErrorKind::NotFound => IoKind::NotFound,
            ErrorKind::Unsupported => IoKind::Unsupported,
            ErrorKind::Busy | ErrorKind::Other => IoKind::Other,
        }
    }

    pub(crate) fn of_descriptor(error: GetDescriptorError) -> IoKind
        ensures kind { result ≡ descriptor_kind error }
    {
        match error {
            GetDescriptorError::Transfer(error) => IoKind::of_transfer(error),
            GetDescriptorError::InvalidDescriptor => IoKind::InvalidData,
        }
    }
}
