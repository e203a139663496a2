//! The error of an active configuration that has no descriptor.

use crate::error::Error;
use crate::kind::ErrorKind;
use crate::message::Message;
use std::fmt;

/// No configuration that was read has the active value.
#[derive(Clone, Copy, PartialEq, Eq, Debug)]
pub struct ActiveConfigurationError {
    /// The active value: 0 means that the device is not configured (USB 2.0, section 9.1.1.5).
    pub configuration_value: u8,
}

impl fmt::Display for ActiveConfigurationError {
    ghost use Rattle.std.specs.Prelude.{Some};
    ghost use Rattle.usb_error.specs.Active.{active_text};

    ghost output = { λ e. Some (active_text e) };

    fn fmt<W: fmt::Write>(&self, f: &mut fmt::Formatter<W>) -> fmt::Result {
        match self.configuration_value {
            0 => f.write_str("device is not configured"),
            value => write!(f, "no descriptor found for active configuration {value}"),
        }
    }
}

impl std::error::Error for ActiveConfigurationError {}

impl From<ActiveConfigurationError> for Error {
    ghost use Rattle.std.specs.Prelude.{◌≡◌};
    ghost use Rattle.usb_error.specs.Active.{active_error};

    ghost from_gives = { λ e error. error ≡ active_error e };

    fn from(error: ActiveConfigurationError) -> Error {
        let message = match error.configuration_value {
            0 => Message::DeviceIsNotConfigured,
            _ => Message::NoActiveDescriptor,
        };
        Error::plain(ErrorKind::Other, message)
    }
}
