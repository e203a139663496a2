//! Answers to questions on what attributes read as.

use std::alloc::AllocError;
use usb_desc::NoMemory;
use usb_enum_sysfs::{FromHexStr, Speed, SysfsErrorKind, Text, decimal_byte};

/// The value of a text: a byte or a word in hexadecimal digits, a byte in decimal ones or a speed.
pub fn write_value(out: &mut String, word: &str, text: &str) -> Result<(), AllocError> {
    let number = match word {
        "byte" => u8::from_hex_str(text).map(u16::from),
        "word" => u16::from_hex_str(text),
        "decimal" => decimal_byte(text).map(u16::from),
        _ => return write!(out, "{:?}", Speed::from_str(text)),
    };
    write!(out, "{number:?}")
}

/// What is told of a text that is no value.
pub fn write_parse(out: &mut String, text: &str) -> Result<(), AllocError> {
    match Text::from_str(*out.allocator(), text) {
        Ok(text) => {
            let kind = SysfsErrorKind::Parse(text);
            write!(out, "{kind}")
        }
        Err(NoMemory) => Err(AllocError),
    }
}
