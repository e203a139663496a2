//! Words of printed lines, each appended to a text.

ghost use Rattle.std.specs.Prelude.{◌≡◌, ◌++◌, ◌<◌, OnOk, decimal, length, slice_index, string_bytes, [], ◌∷◌};
ghost use Rattle.hex.specs.Hex.{encode_lower, lower_digits};
ghost use Rattle.usb_session_text.specs.Words.{hex_word, two_digits, four_digits, class_code, part};

use itoa::Buffer;
use std::str;
use usb_desc::NoMemory;

/// Appends a space.
pub fn push_space(out: &mut String) -> Result<(), NoMemory>
    ensures text { OnOk result (string_bytes out.new ≡ string_bytes out.old ++ 32 ∷ []) }
{
    out.push(' ')?;
    Ok(())
}

/// Ends a line.
pub fn end_line(out: &mut String) -> Result<(), NoMemory>
    ensures text { OnOk result (string_bytes out.new ≡ string_bytes out.old ++ 10 ∷ []) }
{
    out.push('\n')?;
    Ok(())
}

/// Appends a number in decimal digits.
pub fn push_number(out: &mut String, number: u64) -> Result<(), NoMemory>
    ensures text { OnOk result (string_bytes out.new ≡ string_bytes out.old ++ decimal number) }
{
    out.push_str(Buffer::new().format(number))?;
    Ok(())
}

/// Appends a number in decimal digits, with a space before it.
pub fn push_number_part(out: &mut String, number: u64) -> Result<(), NoMemory>
    ensures text { OnOk result
        (string_bytes out.new ≡ string_bytes out.old ++ part (decimal number)) }
{
    push_space(out)?;
    push_number(out, number)
}

/// The hexadecimal digits in lower case.
const DIGITS: &[u8; 16] = b"0123456789abcdef";

/// The hexadecimal digit of a number below 16.
fn digit(number: u8) -> char
    requires below { number < 16 }
    ensures digit { result ≡ slice_index lower_digits number }
    ensures ascii { result < 128 }
{
    char::from(DIGITS[number as usize])
}

/// Appends a byte as two hexadecimal digits in lower case.
#[tactic(auto, unfolding(hex::specs::Hex::encode_with))]
pub fn push_two_digits(out: &mut String, byte: u8) -> Result<(), NoMemory>
    ensures text { OnOk result (string_bytes out.new ≡ string_bytes out.old ++ two_digits byte) }
{
    out.push(digit(byte / 16))?;
    out.push(digit(byte % 16))?;
    Ok(())
}

/// How many bytes are written at once.
const PART: usize = 32;

/// Appends so many bytes at once as hexadecimal digits in lower case, two for each.
fn push_hex_part(out: &mut String, bytes: &[u8]) -> Result<(), NoMemory>
    requires whole { length bytes.now ≡ PART }
    ensures text { OnOk result
        (string_bytes out.new ≡ string_bytes out.old ++ encode_lower bytes.now) }
{
    let mut digits = [0; 2 * PART];
    hex::encode_to_slice(bytes, &mut digits).unwrap();
    out.push_str(str::from_utf8(&digits).unwrap())?;
    Ok(())
}

/// Appends bytes as hexadecimal digits in lower case, two for each, one byte after the other.
#[tactic(auto, unfolding(hex::specs::Hex::encode_with))]
fn push_hex_bytes(out: &mut String, bytes: &[u8]) -> Result<(), NoMemory>
    ensures text { OnOk result
        (string_bytes out.new ≡ string_bytes out.old ++ encode_lower bytes.now) }
{
    for byte in bytes {
        push_two_digits(out, *byte)?;
    }
    Ok(())
}

/// Appends bytes as hexadecimal digits in lower case, two for each.
fn push_hex(out: &mut String, bytes: &[u8]) -> Result<(), NoMemory>
    ensures text { OnOk result
        (string_bytes out.new ≡ string_bytes out.old ++ encode_lower bytes.now) }
{
    let mut left = bytes;
    while left.len() >= PART {
        let (part, behind) = left.split_at(PART);
        push_hex_part(out, part)?;
        left = behind;
    }
    push_hex_bytes(out, left)
}

/// Appends bytes as hexadecimal digits in lower case, or a dash for none.
#[tactic(auto, unfolding(crate::specs::Words::hex_word))]
pub fn push_bytes(out: &mut String, bytes: &[u8]) -> Result<(), NoMemory>
    ensures text { OnOk result (string_bytes out.new ≡ string_bytes out.old ++ hex_word bytes.now) }
{
    if bytes.is_empty() {
        out.push_str("-")?;
    } else {
        push_hex(out, bytes)?;
    }
    Ok(())
}

/// Appends a number of 16 bits as four hexadecimal digits in lower case.
#[tactic(auto, unfolding(hex::specs::Hex::encode_with))]
pub fn push_four_digits(out: &mut String, number: u16) -> Result<(), NoMemory>
    ensures text { OnOk result (string_bytes out.new ≡ string_bytes out.old ++ four_digits number) }
{
    push_two_digits(out, (number / 256) as u8)?;
    push_two_digits(out, (number % 256) as u8)
}

/// Appends a class, a subclass and a protocol, each as two hexadecimal digits in lower case.
#[tactic(auto, unfolding(crate::specs::Words::class_code))]
pub fn push_class_code(
    out: &mut String,
    class: u8,
    subclass: u8,
    protocol: u8,
) -> Result<(), NoMemory>
    ensures text { OnOk result
        (string_bytes out.new ≡ string_bytes out.old ++ class_code class subclass protocol) }
{
    push_two_digits(out, class)?;
    push_space(out)?;
    push_two_digits(out, subclass)?;
    push_space(out)?;
    push_two_digits(out, protocol)?;
    Ok(())
}
