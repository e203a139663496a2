//! An error of an operation other than a transfer.

ghost use Rattle.std.specs.Prelude.{◌≡◌};

use crate::kind::ErrorKind;
use crate::message::Message;
use std::fmt;
use std::marker::Model;
use usb_desc::errno::{ACCES, BUSY, INVAL, NODATA, NODEV, NOENT, PERM};

/// Why an operation failed. Its text is the message, and then ` (errno N)` where the system gave a
/// code.
#[derive(Clone, Debug, Drop)]
pub struct Error {
    kind: ErrorKind,
    message: Message,
    code: Option<u32>,
}

impl Model for Error {
    ghost use Rattle.usb_error.specs.ErrorState.{ErrorState};

    ghost Value = { ErrorState };

    ghost view = { λ e. record { kind = e.kind; message = e.message; code = e.code } };
}

impl Error {
    ghost use Rattle.usb_error.specs.ErrorState.{coded as coded_error, plain as plain_error};
    ghost use Rattle.usb_error.specs.Errors.{open_error, read_descriptors_error, set_configuration_error, reset_error, claim_error, detach_error, attach_error, alt_setting_error, clear_halt_error, configuration_error, invalid_device_descriptor_error, settings_in_use_error, interface_in_use_error, no_endpoint_error, wrong_direction_error, wrong_type_error, no_packet_size_error, endpoint_in_use_error, listing_error};

    /// The general category of the error.
    pub fn kind(&self) -> ErrorKind
        ensures kind { result ≡ self.now.kind }
    {
        self.kind
    }

    /// The errno of the system, where the error comes from one.
    pub fn os_error(&self) -> Option<u32>
        ensures code { result ≡ self.now.code }
    {
        self.code
    }

    /// The message, without the code.
    pub fn message(&self) -> Message
        ensures message { result ≡ self.now.message }
    {
        self.message
    }

    fn coded(kind: ErrorKind, message: Message, errno: u16) -> Error
        ensures error { result ≡ coded_error kind message errno }
    {
        Error {
            kind,
            message,
            code: Some(errno as u32),
        }
    }

    pub(crate) fn plain(kind: ErrorKind, message: Message) -> Error
        ensures error { result ≡ plain_error kind message }
    {
        Error {
            kind,
            message,
            code: None,
        }
    }

    /// The error of a device that was not opened.
    pub fn open(errno: u16) -> Error
        ensures error { result ≡ open_error errno }
    {
        match errno {
            NOENT => Error::coded(ErrorKind::Disconnected, Message::DeviceNotFound, errno),
            PERM | ACCES => {
                Error::coded(
                    ErrorKind::PermissionDenied,
                    Message::PermissionDenied,
                    errno,
                )
            }
            _ => Error::coded(ErrorKind::Other, Message::FailedToOpenDevice, errno),
        }
    }

    /// The error of descriptors that were not read.
    pub fn read_descriptors(errno: u16) -> Error
        ensures error { result ≡ read_descriptors_error errno }
    {
        Error::coded(ErrorKind::Other, Message::FailedToReadDescriptors, errno)
    }

    /// The error of a configuration that was not set.
    pub fn set_configuration(errno: u16) -> Error
        ensures error { result ≡ set_configuration_error errno }
    {
        match errno {
            NODEV => Error::coded(ErrorKind::Disconnected, Message::DeviceDisconnected, errno),
            INVAL => Error::coded(ErrorKind::NotFound, Message::ConfigurationNotFound, errno),
            BUSY => Error::coded(ErrorKind::Busy, Message::DeviceIsBusy, errno),
            _ => Error::coded(ErrorKind::Other, Message::FailedToSetConfiguration, errno),
        }
    }

    /// The error of a device that was not reset.
    pub fn reset(errno: u16) -> Error
        ensures error { result ≡ reset_error errno }
    {
        match errno {
            NODEV => Error::coded(ErrorKind::Disconnected, Message::DeviceDisconnected, errno),
            BUSY => Error::coded(ErrorKind::Busy, Message::DeviceIsBusy, errno),
            _ => Error::coded(ErrorKind::Other, Message::FailedToResetDevice, errno),
        }
    }

    /// The error of an interface that was not claimed.
    pub fn claim(errno: u16) -> Error
        ensures error { result ≡ claim_error errno }
    {
        match errno {
            NODEV => Error::coded(ErrorKind::Disconnected, Message::DeviceDisconnected, errno),
            INVAL | NOENT => Error::coded(ErrorKind::NotFound, Message::InterfaceNotFound, errno),
            BUSY => Error::coded(ErrorKind::Busy, Message::InterfaceIsBusy, errno),
            _ => Error::coded(ErrorKind::Other, Message::FailedToClaimInterface, errno),
        }
    }

    /// The error of a kernel driver that was not detached.
    pub fn detach(errno: u16) -> Error
        ensures error { result ≡ detach_error errno }
    {
        match errno {
            NODEV => Error::coded(ErrorKind::Disconnected, Message::DeviceDisconnected, errno),
            INVAL => Error::coded(ErrorKind::NotFound, Message::InterfaceNotFound, errno),
            NODATA => Error::coded(ErrorKind::Other, Message::NoKernelDriverAttached, errno),
            _ => Error::coded(ErrorKind::Other, Message::FailedToDetachKernelDriver, errno),
        }
    }

    /// The error of a kernel driver that was not attached.
    pub fn attach(errno: u16) -> Error
        ensures error { result ≡ attach_error errno }
    {
        match errno {
            NODEV => Error::coded(ErrorKind::Disconnected, Message::DeviceDisconnected, errno),
            INVAL => Error::coded(ErrorKind::NotFound, Message::InterfaceNotFound, errno),
            BUSY => Error::coded(ErrorKind::Busy, Message::KernelDriverAlreadyAttached, errno),
            _ => Error::coded(ErrorKind::Other, Message::FailedToAttachKernelDriver, errno),
        }
    }

    /// The error of an alternate setting that was not set.
    pub fn set_alt_setting(errno: u16) -> Error
        ensures error { result ≡ alt_setting_error errno }
    {
        match errno {
            NODEV => Error::coded(ErrorKind::Disconnected, Message::DeviceDisconnected, errno),
            INVAL => Error::coded(
                ErrorKind::NotFound,
                Message::AlternateSettingNotFound,
                errno,
            ),
            _ => Error::coded(
                ErrorKind::Other,
                Message::FailedToSetAlternateSetting,
                errno,
            ),
        }
    }

    /// The error of an endpoint whose halt was not cleared.
    pub fn clear_halt(errno: u16) -> Error
        ensures error { result ≡ clear_halt_error errno }
    {
        match errno {
            NODEV => Error::coded(ErrorKind::Disconnected, Message::DeviceDisconnected, errno),
            _ => Error::coded(ErrorKind::Other, Message::FailedToClearHalt, errno),
        }
    }

    /// The error of an active configuration that was not read while a device was opened. It carries
    /// no code, whatever the errno was.
    pub fn configuration() -> Error
        ensures error { result ≡ configuration_error }
    {
        Error::plain(ErrorKind::Other, Message::FailedToReadConfigurationValue)
    }

    /// The device's own descriptor is invalid: USB 2.0, section 9.6.1.
    pub fn invalid_device_descriptor() -> Error
        ensures error { result ≡ invalid_device_descriptor_error }
    {
        Error::plain(ErrorKind::Other, Message::InvalidDeviceDescriptor)
    }

    /// The error of devices that were not listed.
    pub fn listing(errno: u16) -> Error
        ensures error { result ≡ listing_error errno }
    {
        match errno {
            NOENT => Error::coded(ErrorKind::Other, Message::ListingNotFound, errno),
            PERM | ACCES => Error::coded(
                ErrorKind::PermissionDenied,
                Message::ListingDenied,
                errno,
            ),
            _ => Error::coded(ErrorKind::Other, Message::FailedToOpenListing, errno),
        }
    }

    /// An endpoint of the interface lives, so its alternate setting stays.
    pub fn settings_in_use() -> Error
        ensures error { result ≡ settings_in_use_error }
    {
        Error::plain(ErrorKind::Busy, Message::EndpointsAreInUse)
    }

    /// Another owner of the interface is left, so it is not released.
    pub fn interface_in_use() -> Error
        ensures error { result ≡ interface_in_use_error }
    {
        Error::plain(ErrorKind::Busy, Message::InterfaceStillInUse)
    }

    /// The interface has no endpoint of the address.
    pub fn no_endpoint() -> Error
        ensures error { result ≡ no_endpoint_error }
    {
        Error::plain(ErrorKind::NotFound, Message::NoSuchEndpoint)
    }

    /// The endpoint was asked for with the other direction.
    pub fn wrong_direction() -> Error
        ensures error { result ≡ wrong_direction_error }
    {
        Error::plain(ErrorKind::Other, Message::IncorrectEndpointDirection)
    }

    /// The endpoint was asked for with another transfer type.
    pub fn wrong_type() -> Error
        ensures error { result ≡ wrong_type_error }
    {
        Error::plain(ErrorKind::Other, Message::IncorrectEndpointType)
    }

    /// The endpoint's packets hold no byte.
    pub fn no_packet_size() -> Error
        ensures error { result ≡ no_packet_size_error }
    {
        Error::plain(ErrorKind::Other, Message::EndpointHasNoPacketSize)
    }

    /// The endpoint is open, or a transfer of a closed one is not back yet.
    pub fn endpoint_in_use() -> Error
        ensures error { result ≡ endpoint_in_use_error }
    {
        Error::plain(ErrorKind::Busy, Message::EndpointAlreadyInUse)
    }
}

impl fmt::Display for Error {
    ghost use Rattle.std.specs.Prelude.{Some};
    ghost use Rattle.usb_error.specs.Texts.{error_text};

    ghost output = { λ e. Some (error_text e) };

    fn fmt<W: fmt::Write>(&self, f: &mut fmt::Formatter<W>) -> fmt::Result {
        let message = self.message.as_str();
        match self.code {
            None => f.write_str(message),
            Some(code) => write!(f, "{message} (errno {code})"),
        }
    }
}

impl std::error::Error for Error {}
