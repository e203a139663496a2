//! For how long a call waits.

ghost use Rattle.std.specs.Prelude.{◌≡◌, IsTrue};
ghost use Rattle.usb_script_words.specs.Timeouts.{is_timeout};
ghost use Rattle.usb_script_words.specs.Words.{at_most, number_of, time_of};
ghost use Rattle.usb_script_words.specs.Outcome.{Gives};

use crate::line_error::LineError;
use crate::words::{MAX_TIME, decimal, reads};
use std::marker::Model;

/// For how long a call waits at most, in nanoseconds: at most 10^18, or [`u64::MAX`]. A contract
/// sees the number.
#[derive(Clone, Copy, Debug, PartialEq, Eq)]
pub struct Timeout {
    nanoseconds: u64,
}

impl Model for Timeout {
    ghost use Rattle.std.specs.Prelude.{ℕ, IsTrue};
    ghost use Rattle.usb_script_words.specs.Timeouts.{is_timeout};

    ghost Value = { ℕ };

    ghost view = { λ timeout. timeout.nanoseconds };

    ghost invariant = { λ timeout. IsTrue (is_timeout timeout.nanoseconds) };

    ghost inverse = { λ nanoseconds. record { nanoseconds = nanoseconds } };
}

impl Timeout {
    /// A timeout of so many nanoseconds, where that is at most 10^18.
    pub fn new(nanoseconds: u64) -> Option<Timeout>
        ensures value { result ≡ at_most 1000000000000000000 nanoseconds }
    {
        if nanoseconds > MAX_TIME {
            return None;
        }
        Some(Timeout { nanoseconds })
    }

    /// The longest timeout: [`u64::MAX`] nanoseconds.
    pub fn max() -> Timeout
        ensures value { result ≡ 18446744073709551615 }
    {
        Timeout {
            nanoseconds: u64::MAX,
        }
    }

    /// How many nanoseconds.
    pub fn nanoseconds(self) -> u64
        ensures value { result ≡ self }
        ensures range { IsTrue (is_timeout result) }
    {
        self.nanoseconds
    }

    /// The timeout that the digits spell.
    #[tactic(auto, unfolding(crate::specs::Words::number_of))]
    fn from_digits(digits: &[u8]) -> Option<Timeout>
        ensures value { result ≡ number_of 1000000000000000000 digits.now }
    {
        Timeout::new(decimal(digits)?)
    }

    /// The timeout that a word spells, where `max` is the longest one.
    #[tactic(auto, unfolding(crate::specs::Words::time_of))]
    pub fn parse(word: &[u8]) -> Result<Timeout, LineError>
        ensures value { Gives (λ timeout. timeout) result (time_of word.now) }
    {
        if reads(word, b"max") {
            return Ok(Timeout::max());
        }
        Timeout::from_digits(word).ok_or(LineError::Malformed)
    }
}
