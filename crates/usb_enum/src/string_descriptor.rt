//! String descriptors that the tree keeps.

ghost use Rattle.std.specs.Prelude.{◌≡◌, IfOk, IfErr, IfNone, IsOk, string_bytes};
ghost use Rattle.std.specs.Option.{option_map};
ghost use Rattle.usb_desc.specs.declared.error.Fail.TheVariants.{Memory};

use usb_desc::{Fail, NoMemory};
use usb_error::Error;

/// The text of a string descriptor: USB 2.0, section 9.6.7. It is kept, or there is none.
#[derive(Clone, Debug, Drop)]
pub enum StringDescriptor {
    /// The device has no such string.
    NotPresent,
    /// This is its text.
    Cached(String),
}

impl StringDescriptor {
    ghost use Rattle.usb_enum.specs.StringDescriptors.{text_of};

    /// The same once more.
    pub fn clone(&self) -> Result<StringDescriptor, NoMemory>
        ensures same { IfOk result (λ copy. text_of copy ≡ text_of self.now) }
    {
        Ok(Clone::clone(self)?)
    }

    /// The text, where there is one.
    pub fn cached(&self) -> Option<&str>
        ensures text { option_map (λ t. t.now) result ≡ text_of self.now }
    {
        match self {
            StringDescriptor::NotPresent => None,
            StringDescriptor::Cached(text) => Some(text.as_str()),
        }
    }

    /// A copy of the text, where there is one. Nothing but memory can be wanting.
    pub fn fetch(&self) -> Result<Option<String>, Fail<Error>>
        ensures text { IfOk result (λ t. option_map (λ s. string_bytes s) t ≡ text_of self.now) }
        ensures memory { IfErr result (λ error. error ≡ Memory) }
        ensures absent { IfNone (text_of self.now) (IsOk result) }
    {
        match self {
            StringDescriptor::NotPresent => Ok(None),
            StringDescriptor::Cached(text) => {
                match text.clone() {
                    Ok(copy) => Ok(Some(copy)),
                    Err(_) => Err(Fail::Memory),
                }
            }
        }
    }
}
