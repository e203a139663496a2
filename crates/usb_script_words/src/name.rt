//! The numbers of names.

ghost use Rattle.std.specs.Prelude.{◌≡◌, ◌<◌};
ghost use Rattle.usb_script_words.specs.Words.{at_most, index_of, name_of};
ghost use Rattle.usb_script_words.specs.Outcome.{Gives};

use crate::line_error::LineError;
use crate::words::{decimal, has_leading_zero};
use std::marker::Model;

/// The number of a name, as 5 is that of `e5`: at most 63. A contract sees the number.
#[derive(Clone, Copy, Debug, PartialEq, Eq)]
pub struct Name {
    number: u8,
}

impl Model for Name {
    ghost use Rattle.std.specs.Prelude.{ℕ, ◌<◌};

    ghost Value = { ℕ };

    ghost view = { λ name. name.number };

    ghost invariant = { λ name. name.number < 64 };

    ghost inverse = { λ number. record { number = number } };
}

impl Name {
    /// The name with this number, where it is at most 63.
    pub fn new(number: u64) -> Option<Name>
        ensures value { result ≡ at_most 63 number }
    {
        if number > 63 {
            return None;
        }
        Some(Name {
            number: number as u8,
        })
    }

    /// Its number.
    pub fn number(self) -> u8
        ensures value { result ≡ self }
        ensures below { result < 64 }
    {
        self.number
    }

    /// The name with the number that the digits spell, with no leading zero.
    #[tactic(auto, unfolding(crate::specs::Words::index_of, crate::specs::Words::number_of))]
    fn from_digits(digits: &[u8]) -> Option<Name>
        ensures value { result ≡ index_of digits.now }
    {
        if has_leading_zero(digits) {
            return None;
        }
        Name::new(decimal(digits)?)
    }

    /// The name that a word spells with this letter, if it does.
    #[tactic(auto, unfolding(crate::specs::Words::name_of))]
    pub fn spelled(letter: u8, word: &[u8]) -> Option<Name>
        ensures value { result ≡ name_of letter word.now }
    {
        match word {
            [first, digits @ ..] if *first == letter => Name::from_digits(digits),
            _ => None,
        }
    }

    /// The name that a word has to spell with this letter.
    pub fn parse(letter: u8, word: &[u8]) -> Result<Name, LineError>
        ensures value { Gives (λ name. name) result (name_of letter word.now) }
    {
        Name::spelled(letter, word).ok_or(LineError::Malformed)
    }
}
