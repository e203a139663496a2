//! The messages: their sizes, and their bytes.

ghost use Rattle.std.specs.Prelude.{◌≡◌, ◌<◌, IfOk};
ghost use Rattle.usb_script.specs.Generated.{size_of, message};

use std::alloc::Global;
use usb_desc::NoMemory;

/// How many bytes the message with this number has.
fn size_of_message(number: u32) -> u8
    ensures value { result ≡ size_of number }
    ensures below { result < 200 }
{
    (37 * u64::from(number) % 200) as u8
}

/// The bytes of the message with this number, which is counted from 0.
#[tactic(auto, unfolding(crate::specs::Generated::message))]
pub fn message(alloc: Global, number: u32) -> Result<Vec<u8>, NoMemory>
    ensures value { IfOk result (λ bytes. bytes.items ≡ message number) }
{
    let first = (number % 256) as u8;
    let bytes = (0..size_of_message(number)).map(|i| first.wrapping_add(i));
    Ok(bytes.collect(alloc)?)
}
