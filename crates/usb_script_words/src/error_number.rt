//! The numbers of errors.

ghost use Rattle.std.specs.Prelude.{◌≡◌};
ghost use Rattle.usb_kernel_devices.specs.Errnos.{IsErrno};
ghost use Rattle.usb_script_words.specs.Outcome.{Gives};
ghost use Rattle.usb_script_words.specs.Words.{errno_of};

use crate::line_error::LineError;
use crate::words::errno;
use std::marker::Model;

/// The number of an error, from 1 to 4095. A contract sees the number.
#[derive(Clone, Copy, Debug, PartialEq, Eq)]
pub struct Errno {
    code: u16,
}

impl Model for Errno {
    ghost use Rattle.std.specs.Prelude.{ℕ};
    ghost use Rattle.usb_kernel_devices.specs.Errnos.{IsErrno};

    ghost Value = { ℕ };

    ghost view = { λ errno. errno.code };

    ghost invariant = { λ errno. IsErrno errno.code };

    ghost inverse = { λ code. record { code = code } };
}

impl Errno {
    /// Its number.
    pub fn code(self) -> u16
        ensures value { result ≡ self }
        ensures errno { IsErrno result }
    {
        self.code
    }

    /// The number that a word spells.
    pub fn parse(word: &[u8]) -> Result<Errno, LineError>
        ensures value { Gives (λ errno. errno) result (errno_of word.now) }
    {
        let code = errno(word)?;
        Ok(Errno { code })
    }
}
