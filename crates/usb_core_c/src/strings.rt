//! The text of a string descriptor, written into a slice (USB 2.0, section 9.6.7).

ghost use Rattle.std.specs.Prelude.{◌≡◌, ◌≢◌, ◌<◌, ◌↔◌, ◌⊎◌, length, take, false};
ghost use Rattle.usb_desc.specs.Strings.{is_string};
ghost use Rattle.usb_core_c.specs.Texts.{IsText, IsLongerText, IsTextStatus};

use std::alloc::Global;
use usb_desc::{StringError, decode_string_descriptor};

/// What a call for a text came to.
#[repr(C)]
#[derive(Drop)]
pub struct TextTold {
    /// 0: written; 3: the bytes are no string descriptor; 6: `out` has no room for the text; 7:
    /// memory was lacking.
    pub status: u8,
    /// Where the status is 0 or 6: how many bytes the text has.
    pub len: usize,
}

/// Writes a text to the front of `out` where there is room for it, and tells of it.
fn hand_over_text(text: &[u8], out: &mut [u8]) -> TextTold
    ensures len { result.len ≡ length text.now }
    ensures whole { result.status ≡ 0 → take (length text.now) out.new ≡ text.now }
    ensures longer { result.status ≡ 6 → length out.old < length text.now }
    ensures status { (result.status ≡ 0) ⊎ (result.status ≡ 6) }
    ensures kept { result.status ≢ 0 → out.new ≡ out.old }
    ensures frame { length out.new ≡ length out.old }
{
    let len = text.len();
    let status = if len > out.len() {
        6
    } else {
        out[..len].copy_from_slice(text);
        0
    };
    TextTold { status, len }
}

/// Writes the text of a string descriptor, in UTF-8, to the front of `out`. Where there is no room
/// for all of it nothing is written, and `told` has the length that it needs.
#[unsafe(no_mangle)]
pub extern "C" fn usb_core_string(alloc: Global, bytes: &[u8], out: &mut [u8], told: &mut TextTold)
    ensures text { told.new.status ≡ 0 → IsText bytes.now (take told.new.len out.new) }
    ensures invalid { told.new.status ≡ 3 ↔ (is_string bytes.now ≡ false) }
    ensures longer { told.new.status ≡ 6 → IsLongerText bytes.now (length out.old) told.new.len }
    ensures status { IsTextStatus told.new.status }
    ensures kept { told.new.status ≢ 0 → out.new ≡ out.old }
    ensures frame { length out.new ≡ length out.old }
{
    *told = match decode_string_descriptor(alloc, bytes) {
        Ok(text) => hand_over_text(text.as_bytes(), out),
        Err(StringError::Invalid) => TextTold { status: 3, len: 0 },
        Err(StringError::Memory) => TextTold { status: 7, len: 0 },
    };
}
