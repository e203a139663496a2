//! Reading attributes of a folder.

ghost use Rattle.std.specs.Prelude.{◌≡◌, Err, IfOk};
ghost use Rattle.usb_error.specs.Outcomes.{Tried};
ghost use Rattle.usb_enum_sysfs.specs.Attributes.{attribute, string};
ghost use Rattle.usb_enum_sysfs.specs.Numbers.{decimal_byte, version_word};
ghost use Rattle.usb_enum_sysfs.specs.declared.sysfs.SysfsErrorKind.TheVariants.{Io, Parse};

use crate::numbers::{FromHexStr, decimal_byte, version_word};
use crate::sysfs::{SysfsError, SysfsErrorKind};
use crate::text::Text;
use crate::tree::{AttrTree, path_in};
use std::alloc::Global;
use usb_desc::{Fail, NoMemory};

/// The attribute with this path was not read.
fn not_read<T>(path: Text, errno: u16) -> Result<T, Fail<SysfsError>>
    ensures cause { Tried result (Err (record { path = path; kind = Io errno })) }
{
    Err(Fail::Cause(SysfsError {
        path,
        kind: SysfsErrorKind::Io(errno),
    }))
}

/// The text of the attribute with this path is no such value.
fn not_parsed<T>(alloc: Global, path: Text, text: &str) -> Result<T, Fail<SysfsError>>
    ensures cause { Tried result (Err (record { path = path; kind = Parse text.now })) }
{
    let Ok(text) = Text::from_str(alloc, text) else {
        return Err(Fail::Memory);
    };
    Err(Fail::Cause(SysfsError {
        path,
        kind: SysfsErrorKind::Parse(text),
    }))
}

/// A decimal number of 8 bits.
pub fn read_decimal(
    alloc: Global,
    tree: &AttrTree,
    folder: &str,
    name: &str,
) -> Result<u8, Fail<SysfsError>>
    ensures tried { Tried result (attribute decimal_byte tree.now folder.now name.now) }
{
    let Ok(path) = path_in(alloc, folder, name) else {
        return Err(Fail::Memory);
    };
    match tree.read(path.as_str()) {
        Err(errno) => not_read(path, errno),
        Ok(text) => {
            match decimal_byte(text.trim()) {
                Some(value) => Ok(value),
                None => not_parsed(alloc, path, text),
            }
        }
    }
}

/// A hexadecimal number.
pub fn read_hex<T: FromHexStr>(
    alloc: Global,
    tree: &AttrTree,
    folder: &str,
    name: &str,
) -> Result<T, Fail<SysfsError>>
    ensures tried { Tried result (attribute (λ text. T.hex_of text) tree.now folder.now name.now) }
{
    let Ok(path) = path_in(alloc, folder, name) else {
        return Err(Fail::Memory);
    };
    match tree.read(path.as_str()) {
        Err(errno) => not_read(path, errno),
        Ok(text) => {
            match T::from_hex_str(text.trim()) {
                Some(value) => Ok(value),
                None => not_parsed(alloc, path, text),
            }
        }
    }
}

/// The version of USB of a device: hexadecimal parts, cut at each dot.
pub fn read_version(
    alloc: Global,
    tree: &AttrTree,
    folder: &str,
    name: &str,
) -> Result<u16, Fail<SysfsError>>
    ensures tried { Tried result (attribute version_word tree.now folder.now name.now) }
{
    let Ok(path) = path_in(alloc, folder, name) else {
        return Err(Fail::Memory);
    };
    match tree.read(path.as_str()) {
        Err(errno) => not_read(path, errno),
        Ok(text) => {
            match version_word(text.trim()) {
                Some(value) => Ok(value),
                None => not_parsed(alloc, path, text),
            }
        }
    }
}

/// A text, where it reads.
pub fn read_string(
    alloc: Global,
    tree: &AttrTree,
    folder: &str,
    name: &str,
) -> Result<Option<Text>, NoMemory>
    ensures text { IfOk result (λ t. t ≡ string tree.now folder.now name.now) }
{
    let Ok(path) = path_in(alloc, folder, name) else {
        return Err(NoMemory);
    };
    match tree.read(path.as_str()) {
        Err(_) => Ok(None),
        Ok(text) => {
            match Text::from_str(alloc, text.trim()) {
                Ok(text) => Ok(Some(text)),
                Err(_) => Err(NoMemory),
            }
        }
    }
}
