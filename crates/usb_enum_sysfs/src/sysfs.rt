//! Folders of the tree of attributes, and why an attribute gave no value.

ghost use Rattle.std.specs.Prelude.{◌≡◌, ◌<◌, slice_index, IfOk};
ghost use Rattle.hex.specs.Hex.{lower_digits};

use crate::text::Text;
use std::fmt;
use std::marker::Model;
use usb_desc::NoMemory;

/// The path of a folder in the tree of attributes.
#[derive(Clone, Debug, Drop)]
pub struct SysfsPath {
    path: Text,
}

impl Model for SysfsPath {
    ghost use Rattle.std.specs.Prelude.{ℕ, List};

    ghost Value = { List ℕ };

    ghost view = { λ p. p.path };
}

impl SysfsPath {
    ghost use Rattle.std.specs.Prelude.{string_bytes};

    /// The folder with this path.
    pub fn new(path: String) -> SysfsPath
        ensures path { result ≡ string_bytes path }
    {
        SysfsPath {
            path: Text::from_string(path),
        }
    }

    /// The same, of a text that was kept.
    pub fn from_text(path: Text) -> SysfsPath
        ensures path { result ≡ path }
    {
        SysfsPath { path }
    }

    /// The path.
    pub fn as_str(&self) -> &str
        ensures path { result.now ≡ self.now }
    {
        self.path.as_str()
    }

    /// The same path once more.
    pub fn clone(&self) -> Result<SysfsPath, NoMemory>
        ensures same { IfOk result (λ copy. copy ≡ self.now) }
    {
        Ok(Clone::clone(self)?)
    }
}

/// Why an attribute gave no value.
#[derive(Clone, Debug, Drop)]
pub enum SysfsErrorKind {
    /// It was not read, with this errno: 84 where it is no UTF-8.
    Io(u16),
    /// It holds this text, which is no such value.
    Parse(Text),
}

impl SysfsErrorKind {
    /// The same once more.
    pub fn clone(&self) -> Result<SysfsErrorKind, NoMemory>
        ensures same { IfOk result (λ copy. copy ≡ self.now) }
    {
        Ok(Clone::clone(self)?)
    }
}

/// The attribute that gave no value, by its path, and why.
#[derive(Clone, Debug, Drop)]
pub struct SysfsError {
    /// The path of the attribute.
    pub path: Text,
    /// Why it gave no value.
    pub kind: SysfsErrorKind,
}

impl SysfsError {
    /// The same error once more.
    pub fn clone(&self) -> Result<SysfsError, NoMemory>
        ensures same { IfOk result (λ copy. copy ≡ self.now) }
    {
        Ok(Clone::clone(self)?)
    }
}

/// Bytes that print as hexadecimal digits in lower case, none as a dash.
#[derive(Clone, Copy)]
struct Hex<'t>(&'t [u8]);

impl fmt::Display for Hex<'_> {
    ghost use Rattle.std.specs.Prelude.{Some};
    ghost use Rattle.usb_enum_sysfs.specs.SysfsTexts.{hex_text};

    ghost output = { λ h. Some (hex_text h.0.now) };

    fn fmt<W: fmt::Write>(&self, f: &mut fmt::Formatter<W>) -> fmt::Result {
        if self.0.is_empty() {
            return f.write_str("-");
        }
        for byte in self.0 {
            let high = digit(byte / 16);
            let low = digit(byte % 16);
            write!(f, "{high}{low}")?;
        }
        Ok(())
    }
}

/// A hexadecimal digit.
fn digit(value: u8) -> char
    requires { value < 16 }
    ensures digit { result ≡ slice_index lower_digits value }
{
    const DIGITS: [u8; 16] = *b"0123456789abcdef";
    char::from(DIGITS[value as usize])
}

impl fmt::Display for SysfsErrorKind {
    ghost use Rattle.std.specs.Prelude.{Some};
    ghost use Rattle.usb_enum_sysfs.specs.SysfsTexts.{kind_text};

    ghost output = { λ kind. Some (kind_text kind) };

    fn fmt<W: fmt::Write>(&self, f: &mut fmt::Formatter<W>) -> fmt::Result {
        match self {
            SysfsErrorKind::Io(errno) => write!(f, "io {errno}"),
            SysfsErrorKind::Parse(text) => {
                let hex = Hex(text.as_str().as_bytes());
                write!(f, "parse {hex}")
            }
        }
    }
}

impl fmt::Display for SysfsError {
    ghost use Rattle.std.specs.Prelude.{Some};
    ghost use Rattle.usb_enum_sysfs.specs.SysfsTexts.{error_text};

    ghost output = { λ error. Some (error_text error) };

    fn fmt<W: fmt::Write>(&self, f: &mut fmt::Formatter<W>) -> fmt::Result {
        let path = self.path.as_str();
        let kind = &self.kind;
        write!(f, "{path} {kind}")
    }
}

impl std::error::Error for SysfsError {}
