//! Memory for packets that are sent later.

ghost use Rattle.std.specs.Prelude.{◌≡◌, ◌<◌, ◌≤◌, ◌^◌, length, IfOk};

use std::alloc::Global;
use std::marker::Model;
use usb_desc::NoMemory;
use usb_kernel_devices::Bytes;
use usb_xfer::Buffer;

/// The memory of a packet of so many bytes at most: seen as this number.
#[derive(Drop)]
pub(crate) struct Blank {
    buffer: Buffer,
}

impl Model for Blank {
    ghost use Rattle.std.specs.Prelude.{ℕ, ◌≡◌, []};

    ghost Value = { ℕ };

    ghost view = { λ b. b.buffer.room };

    ghost invariant = { λ b. b.buffer.bytes ≡ [] };
}

impl Blank {
    /// Memory for a packet of at most `size` bytes.
    pub(crate) fn new(alloc: Global, size: usize) -> Result<Blank, NoMemory>
        requires small { size < 2 ^ 31 }
        ensures size { IfOk result (λ blank. blank ≡ size) }
    {
        Ok(Blank {
            buffer: Buffer::new(alloc, size)?,
        })
    }

    /// How many bytes fit.
    pub(crate) fn size(&self) -> usize
        ensures size { result ≡ self.now }
    {
        self.buffer.capacity()
    }

    /// The packet of these bytes.
    pub(crate) fn fill(self, bytes: &[u8]) -> Bytes
        requires fits { length bytes.now ≤ self }
        ensures packet { result ≡ bytes.now }
    {
        let mut buffer = self.buffer;
        buffer.extend_from_slice(bytes);
        Bytes::from_vec(buffer.into_vec())
    }
}
