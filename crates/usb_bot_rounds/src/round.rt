//! A round: which blocks it writes, and what.

ghost use Rattle.std.specs.Prelude.{◌≡◌, ◌<◌, ◌≤◌, ◌*◌, IfOk, length};
ghost use Rattle.usb_bot_rounds.specs.Rounds.{round_block, round_count, round_bytes};

use std::alloc::Global;
use usb_desc::NoMemory;

/// A round with its number, counted from 0.
#[derive(Clone, Copy, Debug, Drop)]
pub(crate) struct Round {
    pub(crate) number: u32,
}

impl Round {
    /// The first of its blocks.
    pub(crate) fn block(self) -> u32
        ensures block { result ≡ round_block self.number }
    {
        (37 * u64::from(self.number) % 256) as u32
    }

    /// How many blocks it has.
    pub(crate) fn count(self) -> u16
        ensures count { result ≡ round_count self.number }
    {
        (self.number % 4 + 1) as u16
    }

    /// The bytes that it writes.
    #[tactic(auto, unfolding(crate::specs::Rounds::round_bytes))]
    pub(crate) fn bytes(self, alloc: Global) -> Result<Vec<u8>, NoMemory>
        ensures bytes { IfOk result (λ bytes. bytes.items ≡ round_bytes self.number) }
        ensures length { IfOk result (λ bytes.
            length bytes.items ≡ 512 * round_count self.number) }
    {
        let number = self.number;
        let bytes = (0..512 * u32::from(self.count())).map(|i| ((number % 256 + i) % 256) as u8);
        Ok(bytes.collect(alloc)?)
    }
}
