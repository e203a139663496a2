//! How many bytes a transfer wants, or are read.

ghost use Rattle.std.specs.Prelude.{◌≡◌, ◌≤◌};
ghost use Rattle.usb_script_words.specs.Words.{at_most, number_of};
ghost use Rattle.usb_script_words.specs.Outcome.{Gives};

use crate::line_error::LineError;
use crate::words::decimal;
use std::marker::Model;

/// How many bytes a transfer wants, or are taken as read: at most 65536. A contract sees the
/// number.
#[derive(Clone, Copy, Debug, PartialEq, Eq)]
pub struct Length {
    bytes: u32,
}

impl Model for Length {
    ghost use Rattle.std.specs.Prelude.{ℕ, ◌≤◌};

    ghost Value = { ℕ };

    ghost view = { λ length. length.bytes };

    ghost invariant = { λ length. length.bytes ≤ 65536 };

    ghost inverse = { λ bytes. record { bytes = bytes } };
}

impl Length {
    /// A length of so many bytes, where that is at most 65536.
    pub fn new(bytes: u64) -> Option<Length>
        ensures value { result ≡ at_most 65536 bytes }
    {
        if bytes > 65536 {
            return None;
        }
        Some(Length {
            bytes: bytes as u32,
        })
    }

    /// How many bytes.
    pub fn bytes(self) -> u32
        ensures value { result ≡ self }
        ensures small { result ≤ 65536 }
    {
        self.bytes
    }

    /// The length that the digits spell.
    #[tactic(auto, unfolding(crate::specs::Words::number_of))]
    fn from_digits(digits: &[u8]) -> Option<Length>
        ensures value { result ≡ number_of 65536 digits.now }
    {
        Length::new(decimal(digits)?)
    }

    /// The length that a word spells.
    pub fn parse(word: &[u8]) -> Result<Length, LineError>
        ensures value { Gives (λ length. length) result (number_of 65536 word.now) }
    {
        Length::from_digits(word).ok_or(LineError::Malformed)
    }
}
