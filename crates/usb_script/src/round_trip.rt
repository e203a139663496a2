//! A message on its way there and back.

ghost use Rattle.std.specs.Prelude.{◌≡◌, ◌++◌, ◌≤◌, OnOk, length, take, drop};
ghost use Rattle.usb_script.specs.Generated.{round_trip, packet_count, read_count, write_of};

use crate::lines::{push_line, push_lines, push_write};
use usb_desc::NoMemory;

/// How many bytes a transfer of the writer has at most.
const WRITE_SIZE: usize = 128;

/// How many bytes a transfer of the reader has at most.
const READ_SIZE: usize = 192;

/// How many bytes a packet has at most.
const PACKET_SIZE: usize = 64;

/// How many packets a message of so many bytes has, the shorter one at its end included.
fn packet_count(size: usize) -> usize
    ensures value { result ≡ packet_count size }
{
    size / PACKET_SIZE + 1
}

/// How many reads it takes until one finds the end of a message of so many bytes, at most 200.
fn read_count(size: usize) -> usize
    ensures value { result ≡ read_count size }
{
    if size > READ_SIZE {
        3
    } else if size > 0 {
        2
    } else {
        1
    }
}

/// Appends the lines that give the writer these bytes, what one transfer holds in each.
fn push_writes(script: &mut Vec<u8>, bytes: &[u8]) -> Result<(), NoMemory>
    ensures text { OnOk result (script.new.items
        ≡ script.old.items ++ (write_of (take 128 bytes.now) ++ write_of (drop 128 bytes.now))) }
{
    let (first, more) = bytes.split_at(WRITE_SIZE.min(bytes.len()));
    push_write(script, first)?;
    push_write(script, more)
}

/// Appends the lines of a message of these bytes: the writer gets it, the device echoes its
/// packets, and the reader reads it to its end.
#[tactic(auto, unfolding(crate::specs::Generated::round_trip))]
pub fn push_round_trip(script: &mut Vec<u8>, bytes: &[u8]) -> Result<(), NoMemory>
    ensures text { OnOk result (script.new.items ≡ script.old.items ++ round_trip bytes.now) }
{
    push_writes(script, bytes)?;
    push_line(script, "wend w0")?;
    push_lines(script, "! echo k0 02 81", packet_count(bytes.len()))?;
    push_line(script, "flush w0")?;
    push_lines(script, "sread r0 200", read_count(bytes.len()))?;
    push_line(script, "endmsg r0")
}
