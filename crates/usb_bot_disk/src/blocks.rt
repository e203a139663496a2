//! The blocks of a simulated disk.

ghost use Rattle.std.specs.Prelude.{◌≡◌, ◌≤◌, ◌*◌, ◌+◌, ◌/◌, length, replicate, IfOk};
ghost use Rattle.usb_bot_disk.specs.Blocks.{overwritten};

use std::alloc::Global;
use std::marker::Model;
use usb_desc::NoMemory;

/// The bytes of a block.
pub(crate) const BLOCK: usize = 512;

/// The blocks of a disk, of 512 bytes each, one behind the other.
#[derive(Drop)]
pub(crate) struct Blocks {
    bytes: Vec<u8>,
}

impl Model for Blocks {
    ghost use Rattle.std.specs.Prelude.{ℕ, List};

    ghost Value = { List ℕ };

    ghost view = { λ b. b.bytes.items };
}

impl Blocks {
    /// So many blocks, which hold zeros.
    ///
    /// # Errors
    ///
    /// Want of memory.
    pub(crate) fn new(alloc: Global, blocks: u32) -> Result<Blocks, NoMemory>
        requires few { blocks ≤ 4096 }
        ensures zeros { IfOk result (λ made. made ≡ replicate (512 * blocks) 0) }
    {
        match Vec::from_elem(alloc, 0u8, BLOCK * blocks as usize) {
            Ok(bytes) => Ok(Blocks { bytes }),
            Err(_) => Err(NoMemory),
        }
    }

    /// The bytes of all blocks, in order.
    pub(crate) fn as_slice(&self) -> &[u8]
        ensures bytes { result.now ≡ self.now }
    {
        self.bytes.as_slice()
    }

    /// How many blocks there are.
    pub(crate) fn blocks(&self) -> usize
        ensures blocks { result ≡ length self.now / 512 }
    {
        self.bytes.len() / BLOCK
    }

    /// Writes bytes from a place on.
    pub(crate) fn write(&mut self, at: usize, bytes: &[u8])
        requires within { at + length bytes.now ≤ length self.old }
        ensures written { self.new ≡ overwritten self.old at bytes.now }
    {
        self.bytes[at..at + bytes.len()].copy_from_slice(bytes);
    }
}
