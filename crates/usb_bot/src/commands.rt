//! The commands of a client.

ghost use Rattle.std.specs.Prelude.{◌≡◌, ◌+◌, ◌*◌, ◌/◌, ◌%◌, ◌<◌, ◌≤◌, ◌^◌, Ok, Err, length, None, IfOk, IfErr, OnOk};
ghost use Rattle.usb_device_endpoint.specs.Handles.{Stands};
ghost use Rattle.usb_bot.specs.Clients.{StandBoth, KeepsFurther};
ghost use Rattle.usb_bot.specs.Errors.{breaks};
ghost use Rattle.usb_bot.specs.Commands.{commanding, outcome, asks, sends, staged, data_endpoint, data_staged, status_staged, status_length as status_length_of, judged, counted, next_command, commanded, blocks_read, blocks_written};
ghost use Rattle.usb_bot.specs.Shortages.{StageFails, WrapperFails, LaterFails, CommandFails, ReadFails, WriteFails};

use crate::client::BotClient;
use crate::error::BotError;
use crate::stages::{asking, sending, stage, status_length};
use crate::wrapper::{Command, Operation};
use usb_device_endpoint::Bus;
use usb_xfer::{Buffer, Completion};

/// The error that breaks a client which answers so: each but that its command failed.
fn broken_by(answer: &Result<Buffer, BotError>) -> Option<BotError>
    ensures error { result ≡ breaks answer.now }
{
    match answer {
        Ok(_) | Err(BotError::Failed { residue: _ }) => None,
        Err(error) => Some(*error),
    }
}

/// What a command came to, of the completions of its data and of its status.
fn judge(command: Command, done: Completion, told: Completion) -> Result<Buffer, BotError>
    requires within { done.actual_len ≤ length done.buffer.bytes }
    ensures passed { IfOk result (λ b. judged command done told ≡ Ok b.bytes) }
    ensures failed { IfErr result (λ e. judged command done told ≡ Err e) }
    ensures whole { IfOk result (λ b. 512 * command.count ≤ length b.bytes) }
{
    let _ = done.buffer.len();
    let moved = done.actual_len as u32;
    if let Some(error) = command.status_error(moved, told.buffer.as_slice()) {
        return Err(error);
    }
    Ok(done.buffer)
}

impl BotClient {
    /// The data of a command go over.
    fn move_data<B: Bus>(
        &mut self,
        bus: &mut B,
        operation: Operation,
        buf: Buffer,
    ) -> Result<Completion, BotError>
        requires stand { StandBoth (B.calls.state bus.old) self.old }
        ensures went { IfOk result
            (λ d. staged B.calls (data_endpoint operation self.old) buf bus.old
            ≡ outcome (Ok d) bus.new) }
        ensures failed { IfErr result
            (StageFails B.calls (data_endpoint operation self.old) buf bus.old bus.new) }
        ensures within { IfOk result (λ d. d.actual_len ≤ length d.buffer.bytes) }
        ensures stand { StandBoth (B.calls.state bus.new) self.new }
        ensures others { KeepsFurther (B.calls.state bus.old) (B.calls.state bus.new) self.old }
        ensures handles { B.handles_stand bus.old bus.new }
        ensures rest { self.new ≡ self.old }
    {
        match operation {
            Operation::Read => stage(&mut self.inp, bus, buf),
            Operation::Write => stage(&mut self.out, bus, buf),
        }
    }

    /// What comes behind the wrapper of a command: its data, and then its status. An `Ok` has the
    /// buffer of the data.
    fn finish<B: Bus>(
        &mut self,
        bus: &mut B,
        command: Command,
        buf: Buffer,
        status: Buffer,
    ) -> Result<Buffer, BotError>
        requires status { status ≡ asks (status_length_of self.old.inp.maximum) }
        requires stand { StandBoth (B.calls.state bus.old) self.old }
        ensures passed { IfOk result (λ b. data_staged B.calls self.old command buf
            (status_staged B.calls self.old command) bus.old ≡ outcome (Ok b.bytes) bus.new) }
        ensures failed { IfErr result
            (LaterFails B.calls self.old command buf bus.old bus.new) }
        ensures whole { IfOk result (λ b. 512 * command.count ≤ length b.bytes) }
        ensures stand { StandBoth (B.calls.state bus.new) self.new }
        ensures others { KeepsFurther (B.calls.state bus.old) (B.calls.state bus.new) self.old }
        ensures handles { B.handles_stand bus.old bus.new }
        ensures rest { self.new ≡ self.old }
    {
        let done = self.move_data(bus, command.operation, buf)?;
        let told = stage(&mut self.inp, bus, status)?;
        judge(command, done, told)
    }

    /// Counts a command, by which this has broken the client, if anything did.
    fn count(&mut self, error: Option<BotError>)
        ensures counted { self.new ≡ counted error self.old }
    {
        self.next_tag = self.next_tag.wrapping_add(1);
        self.ended = error;
    }

    /// Sends the wrapper of a command.
    fn send_wrapper<B: Bus>(&mut self, bus: &mut B, wrapper: Buffer) -> Result<Completion, BotError>
        requires stand { StandBoth (B.calls.state bus.old) self.old }
        ensures went { IfOk result
            (λ w. staged B.calls self.old.out wrapper bus.old ≡ outcome (Ok w) bus.new) }
        ensures same { OnOk result (self.new ≡ self.old) }
        ensures failed { IfErr result (WrapperFails B.calls wrapper
            (commanding bus.old self.old) (commanding bus.new self.new)) }
        ensures stand { StandBoth (B.calls.state bus.new) self.new }
        ensures others { KeepsFurther (B.calls.state bus.old) (B.calls.state bus.new) self.old }
        ensures handles { B.handles_stand bus.old bus.new }
        ensures rest { self.new
            ≡ record self.old { next_tag = self.new.next_tag; ended = self.new.ended } }
    {
        match stage(&mut self.out, bus, wrapper) {
            Ok(sent) => Ok(sent),
            Err(BotError::Memory) => Err(BotError::Memory),
            Err(error) => {
                self.count(Some(error));
                Err(error)
            }
        }
    }

    /// A command that asks for so many blocks from one on, under the tag that is next.
    fn next_command(&self, operation: Operation, block: u32, count: u16) -> Command
        ensures command { result ≡ next_command operation block count self.now }
    {
        Command {
            tag: self.next_tag,
            operation,
            block,
            count,
        }
    }

    /// A command: its three stages. An `Ok` has the buffer of the data.
    fn command<B: Bus>(
        &mut self,
        bus: &mut B,
        command: Command,
        buf: Buffer,
    ) -> Result<Buffer, BotError>
        requires goes { self.old.ended ≡ None }
        requires stand { StandBoth (B.calls.state bus.old) self.old }
        ensures passed { IfOk result
            (λ b. commanded B.calls command buf (commanding bus.old self.old)
            ≡ outcome (Ok b.bytes) (commanding bus.new self.new)) }
        ensures failed { IfErr result (CommandFails B.calls command buf
            (commanding bus.old self.old) (commanding bus.new self.new)) }
        ensures whole { IfOk result (λ b. 512 * command.count ≤ length b.bytes) }
        ensures stand { StandBoth (B.calls.state bus.new) self.new }
        ensures others { KeepsFurther (B.calls.state bus.old) (B.calls.state bus.new) self.old }
        ensures handles { B.handles_stand bus.old bus.new }
        ensures rest { self.new
            ≡ record self.old { next_tag = self.new.next_tag; ended = self.new.ended } }
    {
        let wrapper = sending(&self.out, &command.to_bytes())?;
        let status = asking(&self.inp, status_length(self.inp.max_packet_size()))?;
        let _ = self.send_wrapper(bus, wrapper)?;
        let answer = self.finish(bus, command, buf, status);
        self.count(broken_by(&answer));
        answer
    }

    /// Reads `count` blocks, 1 to 64, from block `lba` on: READ(10). The answer has their bytes.
    ///
    /// # Errors
    ///
    /// The error that broke the client, which has sent nothing then. The error of the transfer that
    /// failed first. What the status says: `BadStatus`, `Failed`, `Phase` or `Length`, looked at in
    /// this order. Want of memory, and nothing has changed where it comes before the wrapper. After
    /// `Failed` and that the client goes on. Each other error breaks it.
    pub fn read<B: Bus>(&mut self, bus: &mut B, lba: u32, count: u16) -> Result<Vec<u8>, BotError>
        requires some { 0 < count }
        requires few { count ≤ 64 }
        requires stand { StandBoth (B.calls.state bus.old) self.old }
        ensures passed { IfOk result
            (λ v. blocks_read B.calls lba count (commanding bus.old self.old)
            ≡ outcome (Ok v.items) (commanding bus.new self.new)) }
        ensures failed { IfErr result (ReadFails B.calls lba count
            (commanding bus.old self.old) (commanding bus.new self.new)) }
        ensures whole { IfOk result (λ v. 512 * count ≤ length v.items) }
        ensures stand { StandBoth (B.calls.state bus.new) self.new }
        ensures others { KeepsFurther (B.calls.state bus.old) (B.calls.state bus.new) self.old }
        ensures handles { B.handles_stand bus.old bus.new }
        ensures rest { self.new
            ≡ record self.old { next_tag = self.new.next_tag; ended = self.new.ended } }
    {
        if let Some(error) = self.ended {
            return Err(error);
        }
        let buf = asking(&self.inp, 512 * count as usize)?;
        let command = self.next_command(Operation::Read, lba, count);
        Ok(self.command(bus, command, buf)?.into_vec())
    }

    /// Writes blocks, 1 to 64 of 512 bytes, from block `lba` on: WRITE(10).
    ///
    /// # Errors
    ///
    /// Those of `read`.
    pub fn write<B: Bus>(&mut self, bus: &mut B, lba: u32, bytes: &[u8]) -> Result<(), BotError>
        requires some { 0 < length bytes.now }
        requires whole { length bytes.now % 512 ≡ 0 }
        requires few { length bytes.now ≤ 32768 }
        requires stand { StandBoth (B.calls.state bus.old) self.old }
        ensures passed { IfOk result
            (λ done. blocks_written B.calls lba bytes.now (commanding bus.old self.old)
            ≡ outcome (Ok done) (commanding bus.new self.new)) }
        ensures failed { IfErr result (WriteFails B.calls lba bytes.now
            (commanding bus.old self.old) (commanding bus.new self.new)) }
        ensures stand { StandBoth (B.calls.state bus.new) self.new }
        ensures others { KeepsFurther (B.calls.state bus.old) (B.calls.state bus.new) self.old }
        ensures handles { B.handles_stand bus.old bus.new }
        ensures rest { self.new
            ≡ record self.old { next_tag = self.new.next_tag; ended = self.new.ended } }
    {
        if let Some(error) = self.ended {
            return Err(error);
        }
        let buf = sending(&self.out, bytes)?;
        let command = self.next_command(Operation::Write, lba, (bytes.len() / 512) as u16);
        let _ = self.command(bus, command, buf)?;
        Ok(())
    }
}
