//! Lines of scripts, each appended to a text.

ghost use Rattle.std.specs.Prelude.{◌≡◌, ◌++◌, ◌<◌, OnOk, slice_index};
ghost use Rattle.hex.specs.Hex.{encode_lower, lower_digits};
ghost use Rattle.usb_script.specs.Generated.{line, times, write_of};

use usb_desc::NoMemory;

/// Appends a line of these words.
pub fn push_line(script: &mut Vec<u8>, words: &str) -> Result<(), NoMemory>
    ensures text { OnOk result (script.new.items ≡ script.old.items ++ line words.now) }
{
    script.extend_from_slice(words.as_bytes())?;
    script.extend_from_slice(b"\n")?;
    Ok(())
}

/// Appends so many lines of these words.
pub fn push_lines(script: &mut Vec<u8>, words: &str, count: usize) -> Result<(), NoMemory>
    ensures text { OnOk result
        (script.new.items ≡ script.old.items ++ times count (line words.now)) }
{
    for _made in 0..count {
        push_line(script, words)?;
    }
    Ok(())
}

/// The hexadecimal digits in lower case.
const DIGITS: &[u8; 16] = b"0123456789abcdef";

/// The hexadecimal digit of a number below 16.
fn digit(number: u8) -> u8
    requires below { number < 16 }
    ensures digit { result ≡ slice_index lower_digits number }
{
    DIGITS[number as usize]
}

/// Appends bytes as hexadecimal digits in lower case, two for each.
#[tactic(auto, unfolding(hex::specs::Hex::encode_with))]
fn push_hex(script: &mut Vec<u8>, bytes: &[u8]) -> Result<(), NoMemory>
    ensures text { OnOk result (script.new.items ≡ script.old.items ++ encode_lower bytes.now) }
{
    for byte in bytes {
        script.extend_from_slice(&[digit(*byte / 16), digit(*byte % 16)])?;
    }
    Ok(())
}

/// Appends the line that gives the writer these bytes, if there are any.
#[tactic(auto, unfolding(crate::specs::Generated::write_of))]
pub fn push_write(script: &mut Vec<u8>, bytes: &[u8]) -> Result<(), NoMemory>
    ensures text { OnOk result (script.new.items ≡ script.old.items ++ write_of bytes.now) }
{
    if bytes.is_empty() {
        return Ok(());
    }
    script.extend_from_slice(b"write w0 ")?;
    push_hex(script, bytes)?;
    script.extend_from_slice(b"\n")?;
    Ok(())
}
