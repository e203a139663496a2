//! The indexes of strings.

ghost use Rattle.std.specs.Prelude.{◌≡◌};
ghost use Rattle.std.specs.Int.NonZero.{non_zero_u8_get};
ghost use Rattle.usb_script_words.specs.Controls.{string_index_of};
ghost use Rattle.usb_script_words.specs.Outcome.{Gives};

use crate::line_error::LineError;
use crate::words::number_between;
use std::marker::Model;
use std::num::NonZeroU8;

/// The index of a string descriptor, which is not 0. A contract sees the number.
#[derive(Clone, Drop)]
pub struct StringIndex {
    index: NonZeroU8,
}

impl Model for StringIndex {
    ghost use Rattle.std.specs.Prelude.{ℕ};
    ghost use Rattle.std.specs.Int.NonZero.{non_zero_u8_get};

    ghost Value = { ℕ };

    ghost view = { λ string. non_zero_u8_get string.index };
}

impl StringIndex {
    /// The index.
    pub fn get(&self) -> NonZeroU8
        ensures value { non_zero_u8_get result ≡ self.now }
    {
        self.index
    }

    /// The index that a word spells.
    #[tactic(auto, unfolding(crate::specs::Controls::string_index_of))]
    pub fn parse(word: &[u8]) -> Result<StringIndex, LineError>
        ensures value { Gives (λ index. index) result (string_index_of word.now) }
    {
        let Some(value) = number_between(1, 255, word) else {
            return Err(LineError::Malformed);
        };
        match NonZeroU8::new(value as u8) {
            Some(index) => Ok(StringIndex { index }),
            None => Err(LineError::Malformed),
        }
    }
}
