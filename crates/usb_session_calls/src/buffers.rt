//! The buffers that a script's transfers hand in.

ghost use Rattle.std.specs.Prelude.{◌≡◌, IfOk};
ghost use Rattle.usb_session_calls.specs.Buffers.{in_buffer, out_buffer};

use std::alloc::Global;
use usb_desc::NoMemory;
use usb_script_lines::{Data, Length};
use usb_xfer::Buffer;

/// An empty buffer that asks for so many bytes.
pub fn in_buffer(alloc: Global, length: Length) -> Result<Buffer, NoMemory>
    ensures value { IfOk result (λ b. b ≡ in_buffer length) }
{
    Buffer::new(alloc, length.bytes() as usize)
}

/// A buffer with these bytes.
pub fn out_buffer(bytes: Data) -> Buffer
    ensures value { result ≡ out_buffer bytes }
{
    Buffer::from_vec(bytes.into_bytes().into_vec())
}
