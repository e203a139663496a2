//! Text that is kept.

ghost use Rattle.std.specs.Prelude.{◌≡◌, IfOk, string_bytes};

use std::alloc::Global;
use std::marker::Model;
use usb_desc::NoMemory;

/// Text that a path, a name or a string keeps: seen as its bytes in UTF-8.
#[derive(Clone, Debug, Drop)]
pub struct Text {
    value: String,
}

impl Model for Text {
    ghost use Rattle.std.specs.Prelude.{ℕ, List, string_bytes};

    ghost Value = { List ℕ };

    ghost view = { λ t. string_bytes t.value };
}

impl Text {
    /// Takes the text over.
    pub fn from_string(value: String) -> Text
        ensures text { result ≡ string_bytes value }
    {
        Text { value }
    }

    /// Keeps a copy of the text.
    pub fn from_str(alloc: Global, text: &str) -> Result<Text, NoMemory>
        ensures text { IfOk result (λ t. t ≡ text.now) }
    {
        match String::from_str(alloc, text) {
            Ok(value) => Ok(Text { value }),
            Err(_) => Err(NoMemory),
        }
    }

    /// A copy of the text.
    pub fn clone(&self) -> Result<Text, NoMemory>
        ensures copy { IfOk result (λ t. t ≡ self.now) }
    {
        Ok(Clone::clone(self)?)
    }

    /// The text.
    pub fn as_str(&self) -> &str
        ensures text { result.now ≡ self.now }
    {
        self.value.as_str()
    }

    /// Gives the text back.
    pub fn into_string(self) -> String
        ensures text { string_bytes result ≡ self }
    {
        self.value
    }
}
