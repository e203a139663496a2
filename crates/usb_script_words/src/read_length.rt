//! How many bytes a read wants at most.

ghost use Rattle.std.specs.Prelude.{◌≡◌, ◌≤◌};
ghost use Rattle.usb_script_words.specs.Words.{between, number_between, read_length_of};
ghost use Rattle.usb_script_words.specs.Outcome.{Gives};

use crate::line_error::LineError;
use crate::words::decimal;
use std::marker::Model;

/// How many bytes a read wants at most, from 1 to 65536. A contract sees the number.
#[derive(Clone, Copy, Debug, PartialEq, Eq)]
pub struct ReadLength {
    bytes: u32,
}

impl Model for ReadLength {
    ghost use Rattle.std.specs.Prelude.{ℕ, ◌≤◌};

    ghost Value = { ℕ };

    ghost view = { λ length. length.bytes };

    ghost invariant = { λ length. (1 ≤ length.bytes) × (length.bytes ≤ 65536) };

    ghost inverse = { λ bytes. record { bytes = bytes } };
}

impl ReadLength {
    /// A length of so many bytes, where that is from 1 to 65536.
    pub fn new(bytes: u64) -> Option<ReadLength>
        ensures value { result ≡ between 1 65536 bytes }
    {
        if !(1..=65536).contains(&bytes) {
            return None;
        }
        Some(ReadLength {
            bytes: bytes as u32,
        })
    }

    /// How many bytes.
    pub fn bytes(self) -> u32
        ensures value { result ≡ self }
        ensures some { 1 ≤ result }
        ensures small { result ≤ 65536 }
    {
        self.bytes
    }

    /// The length that the digits spell.
    #[tactic(auto, unfolding(crate::specs::Words::number_between))]
    fn from_digits(digits: &[u8]) -> Option<ReadLength>
        ensures value { result ≡ number_between 1 65536 digits.now }
    {
        ReadLength::new(decimal(digits)?)
    }

    /// The length that a word spells.
    #[tactic(auto, unfolding(crate::specs::Words::read_length_of))]
    pub fn parse(word: &[u8]) -> Result<ReadLength, LineError>
        ensures value { Gives (λ length. length) result (read_length_of word.now) }
    {
        ReadLength::from_digits(word).ok_or(LineError::Malformed)
    }
}
