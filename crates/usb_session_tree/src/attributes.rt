//! The lines of a probed folder.

ghost use Rattle.std.specs.Prelude.{◌≡◌, ◌++◌, OnOk, string_bytes};
ghost use Rattle.usb_enum_sysfs.specs.SysfsTexts.{hex_text, kind_text};
ghost use Rattle.usb_session_tree.specs.Attributes.{sysfs_line, match_line};

use usb_desc::NoMemory;
use usb_enum::{SysfsError, SysfsErrorKind};
use usb_session_text::{end_line, push_bytes, push_number, push_space};

/// Appends what an attribute holds, as digits.
fn push_held(out: &mut String, bytes: &[u8]) -> Result<(), NoMemory>
    ensures text { OnOk result
        (string_bytes out.new ≡ string_bytes out.old ++ hex_text bytes.now) }
{
    push_bytes(out, bytes)
}

/// Appends why an attribute gave no value: `io ERRNO`, or `parse HEX` of the text as it was read.
fn push_kind(out: &mut String, kind: &SysfsErrorKind) -> Result<(), NoMemory>
    ensures text { OnOk result (string_bytes out.new ≡ string_bytes out.old ++ kind_text kind.now) }
{
    match kind {
        SysfsErrorKind::Io(errno) => {
            out.push_str("io ")?;
            push_number(out, u64::from(*errno))
        }
        SysfsErrorKind::Parse(text) => {
            out.push_str("parse ")?;
            push_held(out, text.as_str().as_bytes())
        }
    }
}

/// Appends the answer of a probing that failed: the attribute that gave no value, and why.
#[tactic(auto, unfolding(crate::specs::Attributes::sysfs_line))]
pub fn write_sysfs_error(out: &mut String, error: &SysfsError) -> Result<(), NoMemory>
    ensures text { OnOk result
        (string_bytes out.new ≡ string_bytes out.old ++ sysfs_line error.now) }
{
    out.push_str("sysfs ")?;
    out.push_str(error.path.as_str())?;
    push_space(out)?;
    push_kind(out, &error.kind)?;
    end_line(out)
}

/// Appends the answer that tells whether a device is one that is asked for.
#[tactic(auto, unfolding(crate::specs::Attributes::match_line))]
pub fn write_match(out: &mut String, is_match: bool) -> Result<(), NoMemory>
    ensures text { OnOk result
        (string_bytes out.new ≡ string_bytes out.old ++ match_line is_match) }
{
    out.push_str("match ")?;
    out.push_str(if is_match { "true" } else { "false" })?;
    end_line(out)
}
