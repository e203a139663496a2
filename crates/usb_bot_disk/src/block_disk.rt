//! A simulated disk by itself.

ghost use Rattle.std.specs.Prelude.{◌≡◌, ◌+◌, ◌*◌, ◌/◌, ◌≤◌, ◌<◌, ◌^◌, ◌++◌, [], true, length, is_some, replicate, IfOk};
ghost use Rattle.usb_bot_disk.specs.declared.stage.Stage.TheVariants as stage;
ghost use Rattle.usb_bot.specs.Wrappers.{data_length, command_in};
ghost use Rattle.usb_bot_disk.specs.Machine.{listens, passes_end, status_for, begun, data_came, data_over, taken_data, taken, machine_or, next_packet, sent, sent_at};
ghost use Rattle.usb_bot_disk.specs.MachineFacts.{IsSound, HasCome};

use crate::blank::Blank;
use crate::blocks::{BLOCK, Blocks};
use crate::stage::Stage;
use std::alloc::Global;
use std::marker::Model;
use usb_bot::{Command, Operation, Status};
use usb_desc::NoMemory;
use usb_kernel_devices::Bytes;
use usb_xfer::Buffer;

/// The bytes of the wrapper of a command.
const WRAPPER: usize = 31;

/// The bytes of the wrapper of a status.
const STATUS: usize = 13;

/// A simulated disk: blocks of 512 bytes each, one behind the other, and where it stands in a
/// command. The data of a write are gathered, and stored only once no more of them are to come. The
/// memory for that is there from the first, since no write is longer than the disk.
#[derive(Drop)]
pub struct BlockDisk {
    blocks: Blocks,
    got: Buffer,
    stage: Stage,
}

impl Model for BlockDisk {
    ghost use Rattle.usb_bot_disk.specs.Machine.{Machine};
    ghost use Rattle.usb_bot_disk.specs.MachineFacts.{IsSound, HasCome, HasRoom};

    ghost Value = { Machine };

    ghost view = { λ k. record { disk = k.blocks; got = k.got.bytes; stage = k.stage } };

    ghost invariant = { λ k.
        IsSound k.blocks k.stage
        × HasCome k.blocks k.got.bytes k.stage
        × HasRoom k.blocks k.got.room };
}

impl BlockDisk {
    /// A disk of so many blocks, which hold zeros.
    ///
    /// # Errors
    ///
    /// Want of memory.
    pub fn new(alloc: Global, blocks: u32) -> Result<BlockDisk, NoMemory>
        requires some { 1 ≤ blocks }
        requires few { blocks ≤ 4096 }
        ensures zeros { IfOk result (λ d. d.disk ≡ replicate (512 * blocks) 0) }
    {
        let got = Buffer::new(alloc, BLOCK * blocks as usize)?;
        let blocks = Blocks::new(alloc, blocks)?;
        Ok(BlockDisk {
            blocks,
            got,
            stage: Stage::Listening,
        })
    }

    /// The bytes of all blocks, in order.
    pub fn as_slice(&self) -> &[u8]
        ensures bytes { result.now ≡ self.now.disk }
    {
        self.blocks.as_slice()
    }

    /// How many blocks it has.
    pub fn blocks(&self) -> usize
        ensures blocks { result ≡ length self.now.disk / 512 }
    {
        self.blocks.blocks()
    }

    /// The disk, which waits for a wrapper.
    pub(crate) fn restarted(mut self) -> BlockDisk
        ensures machine { result ≡ record { disk = self.disk; got = []; stage = stage.Listening } }
    {
        self.got.clear();
        self.stage = Stage::Listening;
        self
    }

    /// Whether it waits for a packet.
    pub(crate) fn listens(&self) -> bool
        ensures listens { result ≡ listens self.now.stage }
        ensures sound { IsSound self.now.disk self.now.stage }
        ensures came { HasCome self.now.disk self.now.got self.now.stage }
    {
        matches!(self.stage, Stage::Listening | Stage::Taking { .. })
    }

    /// Whether a command asks for blocks that are not there.
    fn passes_end(&self, command: Command) -> bool
        ensures passes { result ≡ passes_end self.now.disk command }
    {
        self.blocks.as_slice().len() < BLOCK * (command.block as usize + command.count as usize)
    }

    /// The status of a command, where so many bytes of its data did not move.
    fn status(&self, command: Command, left: usize) -> Status
        requires few { left ≤ data_length command }
        ensures status { result ≡ status_for self.now.disk command left }
    {
        let passes_end = self.passes_end(command);
        Status {
            tag: command.tag,
            residue: if passes_end {
                BLOCK as u32 * command.count as u32
            } else {
                left as u32
            },
            outcome: if passes_end { 1 } else { 0 },
        }
    }

    /// How a command begins.
    fn begin(&self, command: Command) -> Stage
        ensures stage { result ≡ begun self.now.disk command }
        ensures sound { IsSound self.now.disk result }
        ensures came { HasCome self.now.disk [] result }
    {
        if command.count == 0 {
            return Stage::Answering {
                status: self.status(command, 0),
                gone: 0,
            };
        }
        let left = BLOCK * command.count as usize;
        match command.operation {
            Operation::Write => Stage::Taking { command, left },
            Operation::Read => {
                if self.passes_end(command) {
                    Stage::Refusing { command }
                } else {
                    Stage::Sending { command, left }
                }
            }
        }
    }

    /// Whether the bytes that have come are a wrapper with a packet behind them.
    fn is_wrapper(&self, packet: &[u8]) -> bool
        requires few { length self.now.got + length packet.now ≤ 31 }
        ensures wrapper { result ≡ is_some (command_in (self.now.got ++ packet.now)) }
    {
        let had = self.got.len();
        let len = had + packet.len();
        let mut joined = [0; WRAPPER];
        joined[..had].copy_from_slice(self.got.as_slice());
        joined[had..len].copy_from_slice(packet);
        Command::from_bytes(&joined[..len]).is_some()
    }

    /// Whether the bytes of a wrapper are a wrapper with a packet behind them, or can become one.
    fn can_hear(&self, packet: &[u8], maximum: usize) -> bool
        requires listens { self.now.stage ≡ stage.Listening }
        ensures heard { result ≡ is_some (taken self.now packet.now maximum) }
    {
        let len = self.got.len() + packet.len();
        if len > WRAPPER {
            return false;
        }
        if len < WRAPPER && packet.len() >= maximum {
            return true;
        }
        self.is_wrapper(packet)
    }

    /// Whether it goes on with a packet. It does not where what has come is over and no wrapper.
    pub(crate) fn accepts(&self, packet: &[u8], maximum: usize) -> bool
        ensures accepts { result ≡ is_some (taken self.now packet.now maximum) }
    {
        match self.stage {
            Stage::Listening => self.can_hear(packet, maximum),
            _ => true,
        }
    }

    /// A packet comes while it listens. What is over and no wrapper is forgotten.
    fn hear(&mut self, packet: &[u8], maximum: usize)
        requires listens { self.old.stage ≡ stage.Listening }
        ensures machine { self.new ≡ machine_or self.old (taken self.old packet.now maximum) }
        ensures sound { IsSound self.new.disk self.new.stage }
    {
        let len = self.got.len() + packet.len();
        if len > WRAPPER {
            self.got.clear();
            return;
        }
        self.got.extend_from_slice(packet);
        if len < WRAPPER && packet.len() >= maximum {
            return;
        }
        let command = Command::from_bytes(self.got.as_slice());
        self.got.clear();
        if let Some(command) = command {
            self.stage = self.begin(command);
        }
    }

    /// Data of a WRITE(10) come, of which so many bytes had not come. They are gathered, and dropped
    /// where the blocks are not there.
    fn gather(&mut self, command: Command, left: usize, bytes: &[u8])
        requires takes { self.old.stage ≡ stage.Taking command left }
        requires few { length bytes.now ≤ left }
        ensures came { self.new ≡ data_came self.old command left bytes.now }
    {
        if !self.passes_end(command) {
            self.got.extend_from_slice(bytes);
        }
        self.stage = Stage::Taking {
            command,
            left: left - bytes.len(),
        };
    }

    /// The data of a WRITE(10) are over, where so many bytes did not come. What came is stored, where
    /// the blocks are there.
    fn finish_data(&mut self, command: Command, left: usize)
        requires takes { self.old.stage ≡ stage.Taking command left }
        requires few { left ≤ data_length command }
        ensures machine { self.new ≡ data_over self.old command left }
        ensures sound { IsSound self.new.disk self.new.stage }
    {
        let status = self.status(command, left);
        if !self.passes_end(command) {
            self.blocks
                .write(BLOCK * command.block as usize, self.got.as_slice());
        }
        self.got.clear();
        self.stage = Stage::Answering { status, gone: 0 };
    }

    /// A packet of data comes. A short one, or the last of the bytes that were asked for, ends them.
    fn take_data(&mut self, command: Command, left: usize, packet: &[u8], maximum: usize)
        requires takes { self.old.stage ≡ stage.Taking command left }
        requires few { left ≤ data_length command }
        ensures machine { self.new ≡ taken_data self.old command left packet.now maximum }
        ensures sound { IsSound self.new.disk self.new.stage }
    {
        let data = &packet[..left.min(packet.len())];
        self.gather(command, left, data);
        if left <= packet.len() || packet.len() < maximum {
            self.finish_data(command, left - data.len());
        }
    }

    /// A packet comes. What is over and no wrapper is forgotten.
    #[tactic(auto, using(crate::proofs::MachineLemmas::kept_listening))]
    pub(crate) fn take(&mut self, packet: &[u8], maximum: usize)
        ensures machine { self.new ≡ machine_or self.old (taken self.old packet.now maximum) }
        ensures sound { IsSound self.new.disk self.new.stage }
        // while data are still to come, the blocks are what they were
        ensures kept { listens self.new.stage ≡ true → self.new.disk ≡ self.old.disk }
    {
        match self.stage {
            Stage::Listening => self.hear(packet, maximum),
            Stage::Taking { command, left } => self.take_data(command, left, packet, maximum),
            _ => {}
        }
    }

    /// How many bytes the next packet has, at an endpoint with this maximum packet size in bytes.
    pub(crate) fn next_len(&self, maximum: usize) -> usize
        ensures len { result ≡ length (next_packet self.now maximum) }
    {
        match self.stage {
            Stage::Sending { left, .. } => maximum.min(left),
            Stage::Answering { gone, .. } => maximum.min(STATUS - gone),
            _ => 0,
        }
    }

    /// The next packet, in the memory of an empty one.
    pub(crate) fn next_packet(&self, maximum: usize, blank: Blank) -> Bytes
        requires fits { length (next_packet self.now maximum) ≤ blank }
        ensures packet { result ≡ next_packet self.now maximum }
    {
        let count = self.next_len(maximum);
        match self.stage {
            Stage::Sending { command, left } => {
                let end = BLOCK * (command.block as usize + command.count as usize);
                let start = end - left;
                blank.fill(&self.blocks.as_slice()[start..start + count])
            }
            Stage::Answering { status, gone } => {
                let wrapper = status.to_bytes();
                blank.fill(&wrapper[gone..gone + count])
            }
            _ => blank.fill(&[]),
        }
    }

    /// The stage once a packet of so many bytes has gone.
    fn stage_after(&self, count: usize) -> Stage
        ensures stage { result ≡ sent_at self.now.disk self.now.stage count }
        ensures sound { IsSound self.now.disk result }
        ensures came { HasCome self.now.disk self.now.got result }
    {
        match self.stage {
            Stage::Sending { command, left } => {
                if left <= count {
                    Stage::Answering {
                        status: self.status(command, 0),
                        gone: 0,
                    }
                } else {
                    Stage::Sending {
                        command,
                        left: left - count,
                    }
                }
            }
            Stage::Refusing { command } => Stage::Answering {
                status: self.status(command, BLOCK * command.count as usize),
                gone: 0,
            },
            Stage::Answering { status, gone } => {
                if count >= STATUS - gone {
                    Stage::Listening
                } else {
                    Stage::Answering {
                        status,
                        gone: gone + count,
                    }
                }
            }
            Stage::Listening => Stage::Listening,
            Stage::Taking { command, left } => Stage::Taking { command, left },
        }
    }

    /// A packet of so many bytes of what it has to send has gone.
    pub(crate) fn go_on(&mut self, count: usize)
        ensures machine { self.new ≡ sent self.old count }
    {
        self.stage = self.stage_after(count);
    }
}
