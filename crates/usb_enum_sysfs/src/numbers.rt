//! Numbers in the texts of attributes.

ghost use Rattle.std.specs.Prelude.{◌≡◌, ◌<◌, ◌*◌, ◌%◌, bit_or};
ghost use Rattle.usb_enum_sysfs.specs.Numbers.{number, decimal_byte, without_prefix, version_word, with_part};

/// A decimal number of 8 bits.
pub fn decimal_byte(text: &str) -> Option<u8>
    ensures value { result ≡ decimal_byte text.now }
{
    text.parse::<u8>().ok()
}

/// A number that is read from hexadecimal digits.
pub trait FromHexStr: Sized {
    ghost use Rattle.std.specs.Prelude.{List, ℕ, Option};

    /// What a text gives.
    ghost hex_of: { List ℕ → Option Self };

    /// Reads a hexadecimal number, maybe with a plus or the prefix `0x`. Nothing is trimmed.
    fn from_hex_str(text: &str) -> Option<Self>
        ensures value { result ≡ hex_of text.now };
}

impl FromHexStr for u8 {
    ghost use Rattle.usb_enum_sysfs.specs.Numbers.{hex_byte};

    ghost hex_of = { hex_byte };

    fn from_hex_str(text: &str) -> Option<u8> {
        u8::from_str_radix(without_prefix(text), 16).ok()
    }
}

impl FromHexStr for u16 {
    ghost use Rattle.usb_enum_sysfs.specs.Numbers.{hex_word};

    ghost hex_of = { hex_word };

    fn from_hex_str(text: &str) -> Option<u16> {
        u16::from_str_radix(without_prefix(text), 16).ok()
    }
}

/// The text without the prefix of hexadecimal numbers.
fn without_prefix(text: &str) -> &str
    ensures text { result.now ≡ without_prefix text.now }
{
    text.strip_prefix("0x").unwrap_or(text)
}

/// The version of USB of a device, which its attribute shows as hexadecimal parts with dots
/// between them.
pub fn version_word(text: &str) -> Option<u16>
    ensures value { result ≡ version_word text.now }
{
    let mut version = 0;
    for part in text.split('.') {
        version = with_part(version, u16::from_str_radix(part, 16).ok()?);
    }
    Some(version)
}

/// One more part of a version: the low 16 bits of the last number's 256-fold, and the part's bits.
fn with_part(version: u16, part: u16) -> u16
    ensures value { result ≡ with_part version part }
{
    version.wrapping_mul(256) | part
}
