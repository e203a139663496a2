//! The lines of what readers give.

ghost use Rattle.std.specs.Prelude.{◌≡◌, ◌++◌, OnOk, string_bytes, length, decimal};
ghost use Rattle.usb_session_text.specs.Words.{hex_word, part};
ghost use Rattle.usb_session_streams.specs.Reads.{read_line, buffer_line, is_end_line, consumed_end_line};

use usb_desc::NoMemory;
use usb_io::ExpectedShortPacket;
use usb_session_text::{end_line, push_bytes, push_number_part, push_space, write_ok};

/// Appends how many bytes there are, and their digits, each with a space before it.
fn push_counted(out: &mut String, bytes: &[u8]) -> Result<(), NoMemory>
    ensures text { OnOk result (string_bytes out.new ≡ string_bytes out.old
        ++ part (decimal (length bytes.now)) ++ part (hex_word bytes.now)) }
{
    let count = bytes.len();
    push_number_part(out, count as u64)?;
    push_space(out)?;
    push_bytes(out, bytes)
}

/// Appends the bytes that a read took: `read N HEX`.
#[tactic(auto, unfolding(crate::specs::Reads::read_line))]
pub fn write_read(out: &mut String, bytes: &[u8]) -> Result<(), NoMemory>
    ensures text { OnOk result
        (string_bytes out.new ≡ string_bytes out.old ++ read_line bytes.now) }
{
    out.push_str("read")?;
    push_counted(out, bytes)?;
    end_line(out)
}

/// Appends the bytes that stand in a reader: `buf N HEX`.
#[tactic(auto, unfolding(crate::specs::Reads::buffer_line))]
pub fn write_buffer(out: &mut String, bytes: &[u8]) -> Result<(), NoMemory>
    ensures text { OnOk result
        (string_bytes out.new ≡ string_bytes out.old ++ buffer_line bytes.now) }
{
    out.push_str("buf")?;
    push_counted(out, bytes)?;
    end_line(out)
}

/// Appends whether the end of a message is next: `end true` or `end false`.
pub fn write_is_end(out: &mut String, is_end: bool) -> Result<(), NoMemory>
    ensures text { OnOk result
        (string_bytes out.new ≡ string_bytes out.old ++ is_end_line is_end) }
{
    out.push_str(if is_end { "end true\n" } else { "end false\n" })?;
    Ok(())
}

/// Appends the answer of a call that takes the end of a message off: done, or that none was next.
pub fn write_consumed_end(
    out: &mut String,
    answer: &Result<(), ExpectedShortPacket>,
) -> Result<(), NoMemory>
    ensures text { OnOk result
        (string_bytes out.new ≡ string_bytes out.old ++ consumed_end_line answer.now) }
{
    match answer {
        Ok(()) => write_ok(out),
        Err(ExpectedShortPacket) => {
            out.push_str("expected short packet\n")?;
            Ok(())
        }
    }
}
