//! Words of lines.

ghost use Rattle.std.specs.Prelude.{◌≡◌, ◌+◌, ◌*◌, ◌≤◌, ◌^◌, ◌<◌, ◌++◌, [], ◌∷◌, decimal, length};
ghost use Rattle.hex.specs.Hex.{encode_lower};
ghost use Rattle.usb_session_text.specs.Words.{hex_word, two_digits, part};
ghost use Rattle.usb_trace_lines.specs.Written.{begun_with};

use crate::lines::Lines;
use itoa::Buffer;

/// Appends a word with a space before it.
pub(crate) fn put_word<K: Lines>(out: &mut K, word: &[u8])
    requires room { length (K.state out.old).begun + length word.now + 1 ≤ 140000 }
    ensures more { K.state out.new ≡ begun_with (K.state out.old) (part word.now) }
{
    out.put(b" ");
    out.put(word);
}

/// Appends a number in decimal digits, with a space before it.
pub(crate) fn put_number<K: Lines>(out: &mut K, number: u64)
    requires room { length (K.state out.old).begun + 21 ≤ 140000 }
    ensures more { K.state out.new ≡ begun_with (K.state out.old) (part (decimal number)) }
    ensures short { length (K.state out.new).begun ≤ length (K.state out.old).begun + 21 }
{
    let mut digits = Buffer::new();
    put_word(out, digits.format(number).as_bytes());
}

/// How many bytes are appended at once.
const PART: usize = 32;

/// Appends bytes as hexadecimal digits in lower case, two for each.
fn put_digits<K: Lines>(out: &mut K, bytes: &[u8])
    requires few { length bytes.now ≤ PART }
    requires room { length (K.state out.old).begun + 2 * length bytes.now ≤ 140000 }
    ensures more { K.state out.new ≡ begun_with (K.state out.old) (encode_lower bytes.now) }
    ensures long { length (K.state out.new).begun
        ≡ length (K.state out.old).begun + 2 * length bytes.now }
{
    let mut digits = [0; 2 * PART];
    let digits = &mut digits[..2 * bytes.len()];
    hex::encode_to_slice(bytes, digits).unwrap();
    out.put(digits);
}

/// Appends an endpoint address as two hexadecimal digits, with a space before it.
#[tactic(auto, unfolding(hex::specs::Hex::encode_with))]
pub(crate) fn put_endpoint<K: Lines>(out: &mut K, endpoint: u8)
    requires room { length (K.state out.old).begun + 3 ≤ 140000 }
    ensures more { K.state out.new ≡ begun_with (K.state out.old) (part (two_digits endpoint)) }
    ensures short { length (K.state out.new).begun ≡ length (K.state out.old).begun + 3 }
{
    out.put(b" ");
    put_digits(out, &[endpoint]);
}

/// Appends bytes as hexadecimal digits in lower case, two for each.
fn put_hex<K: Lines>(out: &mut K, bytes: &[u8])
    requires room { length (K.state out.old).begun + 2 * length bytes.now ≤ 140000 }
    ensures more { K.state out.new ≡ begun_with (K.state out.old) (encode_lower bytes.now) }
    ensures long { length (K.state out.new).begun
        ≡ length (K.state out.old).begun + 2 * length bytes.now }
{
    let mut left = bytes;
    while left.len() > PART {
        let (part, behind) = left.split_at(PART);
        put_digits(out, part);
        left = behind;
    }
    put_digits(out, left);
}

/// Appends bytes as hexadecimal digits in lower case, or a dash for none, with a space before it.
#[tactic(auto, unfolding(usb_session_text::specs::Words::hex_word))]
pub(crate) fn put_bytes<K: Lines>(out: &mut K, bytes: &[u8])
    requires room { length (K.state out.old).begun + 2 * length bytes.now + 2 ≤ 140000 }
    ensures more { K.state out.new ≡ begun_with (K.state out.old) (part (hex_word bytes.now)) }
    ensures short { length (K.state out.new).begun
        ≤ length (K.state out.old).begun + 2 * length bytes.now + 2 }
{
    if bytes.is_empty() {
        put_word(out, b"-");
        return;
    }
    out.put(b" ");
    put_hex(out, bytes);
}
