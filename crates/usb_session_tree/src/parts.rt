//! Parts of lines, each appended to a text.

ghost use Rattle.std.specs.Prelude.{◌≡◌, ◌++◌, OnOk, decimal, string_bytes, [], ◌∷◌};
ghost use Rattle.std.specs.Option.{option_map};
ghost use Rattle.usb_session_tree.specs.Parts.{string_word, name_word};

use usb_desc::NoMemory;
use usb_session_text::{push_bytes, push_number};

/// Appends a colon.
pub fn push_colon(out: &mut String) -> Result<(), NoMemory>
    ensures text { OnOk result (string_bytes out.new ≡ string_bytes out.old ++ 58 ∷ []) }
{
    out.push(':')?;
    Ok(())
}

/// Appends a byte in decimal digits.
pub fn push_byte(out: &mut String, byte: u8) -> Result<(), NoMemory>
    ensures text { OnOk result (string_bytes out.new ≡ string_bytes out.old ++ decimal byte) }
{
    push_number(out, u64::from(byte))
}

/// Appends a string as the digits of its UTF-8, or that there is none.
pub fn push_string(out: &mut String, text: Option<&str>) -> Result<(), NoMemory>
    ensures text { OnOk result (string_bytes out.new ≡ string_bytes out.old
        ++ string_word (option_map (λ t. t.now) text.entry)) }
{
    match text {
        Some(text) => push_bytes(out, text.as_bytes()),
        None => {
            out.push_str("none")?;
            Ok(())
        }
    }
}

/// Appends a name as it stands, or that there is none.
pub fn push_name(out: &mut String, name: Option<&str>) -> Result<(), NoMemory>
    ensures text { OnOk result (string_bytes out.new ≡ string_bytes out.old
        ++ name_word (option_map (λ t. t.now) name.entry)) }
{
    match name {
        Some(name) => out.push_str(name)?,
        None => out.push_str("none")?,
    }
    Ok(())
}
