//! A driver of one partition of a disk, by Bulk-Only Transport: to be copied. It asks for no block
//! outside its partition.
//!
//! The tests (`tests.rt`) run it on a disk that is simulated, by the crate `usb_bot_disk`.
#![tactic(auto)]

ghost use Rattle.std.specs.Prelude.{◌≡◌, ◌+◌, ◌<◌, ◌≤◌, ◌^◌, ◌↔◌, IsErrOf, IfOk, IfErr, IfSome, IsSome, length};
ghost use Rattle.usb_device_endpoint.specs.Closes.{after_close};
ghost use Rattle.usb_bot.specs.Clients.{StandBoth, KeepsFurther};
ghost use Rattle.example_disk.specs.Partitions.{IsRead, IsWritten, ReadFailsBy, WriteFailsBy};

#[cfg(test)]
mod tests;

use std::marker::Model;
use usb_bot::{BotClient, BotError};
use usb_device_endpoint::Bus;

/// Why a block was not read or written.
#[derive(Clone, Copy, Debug, PartialEq, Eq, Drop)]
pub enum Fault {
    /// The partition has no such block. Nothing was sent.
    Outside,
    /// The disk or its transport failed so.
    Disk(BotError),
}

impl From<BotError> for Fault {
    ghost use Rattle.std.specs.Prelude.{◌≡◌};
    ghost use Rattle.example_disk.specs.declared.Fault.TheVariants.{Disk};

    ghost from_gives = { λ e fault. fault ≡ Disk e };

    fn from(error: BotError) -> Fault {
        Fault::Disk(error)
    }
}

/// A partition: so many blocks of a disk, from one on. Its own count from 0. `close` spends it.
pub struct Partition {
    client: BotClient,
    first: u32,
    blocks: u32,
}

impl Model for Partition {
    ghost use Rattle.std.specs.Prelude.{◌+◌, ◌≤◌, ◌^◌};
    ghost use Rattle.example_disk.specs.States.{PartitionState};

    ghost Value = { PartitionState };

    ghost view = { λ p. record { client = p.client; first = p.first; blocks = p.blocks } };

    ghost invariant = { λ p. p.first + p.blocks ≤ 2 ^ 32 };
}

impl Partition {
    /// The blocks of a disk from `first` on, `blocks` of them.
    pub fn new(client: BotClient, first: u32, blocks: u32) -> Partition
        requires fits { first + blocks ≤ 2 ^ 32 }
        ensures partition { result ≡ record { client = client; first = first; blocks = blocks } }
    {
        Partition {
            client,
            first,
            blocks,
        }
    }

    /// How many blocks it has.
    pub fn blocks(&self) -> u32
        ensures blocks { result ≡ self.now.blocks }
    {
        self.blocks
    }

    /// Which block of the disk the block of this number is, where there is one.
    fn on_disk(&self, block: u32) -> Option<u32>
        ensures place { IfSome result (λ place. place ≡ self.now.first + block) }
        ensures inside { IsSome result ↔ (block < self.now.blocks) }
    {
        if block < self.blocks {
            Some(self.first + block)
        } else {
            None
        }
    }

    /// Reads the block of this number.
    ///
    /// # Errors
    ///
    /// `Outside` where the partition has no such block. What `BotClient::read` answers.
    pub fn read<B: Bus>(&mut self, bus: &mut B, block: u32) -> Result<Vec<u8>, Fault>
        requires stand { StandBoth (B.calls.state bus.old) self.old.client }
        ensures outside { IsErrOf result Fault.Outside ↔ (self.old.blocks ≤ block) }
        ensures nothing { self.old.blocks ≤ block → (bus.new ≡ bus.old) × (self.new ≡ self.old) }
        ensures read { IfOk result (λ v.
            IsRead B.calls block v.items bus.old self.old bus.new self.new) }
        ensures failed { IfErr result (ReadFailsBy B.calls block bus.old self.old bus.new self.new) }
        ensures whole { IfOk result (λ v. 512 ≤ length v.items) }
        ensures stand { StandBoth (B.calls.state bus.new) self.new.client }
        ensures others { KeepsFurther (B.calls.state bus.old) (B.calls.state bus.new)
            self.old.client }
        ensures handles { B.handles_stand bus.old bus.new }
        ensures rest { self.new ≡ record self.old { client = self.new.client } }
    {
        let Some(place) = self.on_disk(block) else {
            return Err(Fault::Outside);
        };
        Ok(self.client.read(bus, place, 1)?)
    }

    /// Writes the block of this number.
    ///
    /// # Errors
    ///
    /// Those of `read`.
    pub fn write<B: Bus>(&mut self, bus: &mut B, block: u32, bytes: &[u8; 512]) -> Result<(), Fault>
        requires stand { StandBoth (B.calls.state bus.old) self.old.client }
        ensures outside { IsErrOf result Fault.Outside ↔ (self.old.blocks ≤ block) }
        ensures nothing { self.old.blocks ≤ block → (bus.new ≡ bus.old) × (self.new ≡ self.old) }
        ensures written { IfOk result (λ done.
            IsWritten B.calls block bytes.now bus.old self.old bus.new self.new) }
        ensures failed { IfErr result
            (WriteFailsBy B.calls block bytes.now bus.old self.old bus.new self.new) }
        ensures stand { StandBoth (B.calls.state bus.new) self.new.client }
        ensures others { KeepsFurther (B.calls.state bus.old) (B.calls.state bus.new)
            self.old.client }
        ensures handles { B.handles_stand bus.old bus.new }
        ensures rest { self.new ≡ record self.old { client = self.new.client } }
    {
        let Some(place) = self.on_disk(block) else {
            return Err(Fault::Outside);
        };
        self.client.write(bus, place, bytes)?;
        Ok(())
    }

    /// Closes the endpoints of the client.
    pub fn close<B: Bus>(self, bus: &mut B)
        requires stand { StandBoth (B.calls.state bus.old) self.client }
        ensures bus { bus.new
            ≡ after_close B.calls (after_close B.calls bus.old self.client.out) self.client.inp }
    {
        let Partition {
            client,
            first: _,
            blocks: _,
        } = self;
        client.close(bus);
    }
}
