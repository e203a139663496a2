//! The line of what a writer accepted.

ghost use Rattle.std.specs.Prelude.{◌≡◌, ◌++◌, OnOk, string_bytes};
ghost use Rattle.usb_session_streams.specs.Writes.{wrote_line};

use usb_desc::NoMemory;
use usb_session_text::{end_line, push_number_part};

/// Appends how many bytes a write accepted: `wrote N`.
#[tactic(auto, unfolding(crate::specs::Writes::wrote_line))]
pub fn write_wrote(out: &mut String, count: usize) -> Result<(), NoMemory>
    ensures text { OnOk result
        (string_bytes out.new ≡ string_bytes out.old ++ wrote_line count) }
{
    out.push_str("wrote")?;
    push_number_part(out, count as u64)?;
    end_line(out)
}
