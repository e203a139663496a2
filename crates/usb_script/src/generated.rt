//! The script of any number of messages.

ghost use Rattle.std.specs.Prelude.{◌≡◌, ◌≤◌, ◌++◌, OnOk, IfOk};
ghost use Rattle.usb_script.specs.Generated.{opening, generated};
ghost use Rattle.usb_script.specs.Scripts.{IsScript};

use crate::message::message;
use crate::round_trip::push_round_trip;
use std::alloc::Global;
use usb_desc::NoMemory;

/// The first lines: the device, and what is open of it.
const OPENING: &str = "\
device k0 1 6 3 1 1201000200000040aaaabbbb0001000000010902200001010080320904000002ff0000000705810240000007050202400000
open d0 1 6
claim d0 0 i0
endpoint e0 i0 02 bulk-out
endpoint e1 i0 81 bulk-in
writer w0 e0 128
num w0 8
reader r0 e1 192
num r0 4
";

/// Appends the first lines.
#[tactic(auto, unfolding(crate::specs::Generated::opening))]
fn push_opening(script: &mut Vec<u8>) -> Result<(), NoMemory>
    ensures text { OnOk result (script.new.items ≡ script.old.items ++ opening) }
{
    script.extend_from_slice(OPENING.as_bytes())?;
    Ok(())
}

/// The script of so many messages, which a writer sends, a device echoes and a reader reads to
/// their ends. With 1 to 2000 messages it is short enough to be parsed.
pub fn generate(alloc: Global, messages: u32) -> Result<Vec<u8>, NoMemory>
    ensures text { IfOk result (λ bytes. bytes.items ≡ generated messages) }
    ensures valid { 1 ≤ messages → messages ≤ 2000 → IfOk result (λ bytes. IsScript bytes.items) }
{
    let mut script = Vec::new(alloc);
    push_opening(&mut script)?;
    for number in 0..messages {
        let bytes = message(alloc, number)?;
        push_round_trip(&mut script, bytes.as_slice())?;
    }
    Ok(script)
}
