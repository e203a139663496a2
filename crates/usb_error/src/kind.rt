//! The kinds of errors.

ghost use Rattle.std.specs.Prelude.{◌≡◌};
ghost use Rattle.usb_error.specs.Kinds.{kind_word};

use std::fmt;

/// What an error is about, for callers that act on it.
#[derive(Clone, Copy, PartialEq, Eq, Debug)]
pub enum ErrorKind {
    /// The device is gone.
    Disconnected,
    /// A device, interface or endpoint is in use by another.
    Busy,
    /// The system does not allow it to this user.
    PermissionDenied,
    /// There is no such configuration, interface, setting or endpoint.
    NotFound,
    /// The system does not support it.
    Unsupported,
    /// Anything else.
    Other,
}

impl ErrorKind {
    /// The kind's own name.
    pub fn as_str(&self) -> &'static str
        ensures word { result.now ≡ kind_word self.now }
    {
        match self {
            ErrorKind::Disconnected => "Disconnected",
            ErrorKind::Busy => "Busy",
            ErrorKind::PermissionDenied => "PermissionDenied",
            ErrorKind::NotFound => "NotFound",
            ErrorKind::Unsupported => "Unsupported",
            ErrorKind::Other => "Other",
        }
    }
}

impl fmt::Display for ErrorKind {
    ghost use Rattle.std.specs.Prelude.{Some};
    ghost use Rattle.usb_error.specs.Kinds.{kind_word};

    ghost output = { λ kind. Some (kind_word kind) };

    fn fmt<W: fmt::Write>(&self, f: &mut fmt::Formatter<W>) -> fmt::Result {
        f.write_str(self.as_str())
    }
}
