//! The submissions of a writer.

ghost use Rattle.std.specs.Prelude.{◌≡◌, ◌+◌, ◌<◌, ◌≤◌, ◌∷◌, [], false, length, unwrap_or, None, IfErr, OnOk, OnErr};
ghost use Rattle.usb_device_endpoint.specs.Handles.{Stands};
ghost use Rattle.usb_kernel.specs.WholePackets.{is_whole};
ghost use Rattle.usb_io.specs.Along.{WritesAlong};
ghost use Rattle.usb_io.specs.Writers.{writing, empty_buffer, send, sent, sent_end, end_need, EndShort, KeepsWriter};
ghost use Rattle.usb_io.specs.WriteAnswers.{begun_end, submit_came, SubmitShort, submit_end_came, SubmitEndShort};
ghost use Rattle.usb_io.specs.Carried.{CarriesOn, sent_bytes, ended_bytes, submitted_calls, begun_calls, TellsOn, TellsShort};
ghost use Rattle.usb_io.specs.Writes.{Finish};

use crate::writer::EndpointWrite;
use usb_desc::NoMemory;
use usb_device_endpoint::Bus;
use usb_xfer::{Buffer, BulkOrInterrupt};

impl<T: BulkOrInterrupt> EndpointWrite<T> {
    /// Submits a buffer, where none stands.
    ///
    /// # Errors
    ///
    /// The buffer, where memory is wanted. Nothing has changed.
    pub(crate) fn send<B: Bus>(&mut self, bus: &mut B, buffer: Buffer) -> Result<(), Buffer>
        requires none { self.old.buffer ≡ None }
        requires few { length self.old.endpoint.pending < 64 }
        requires stands { Stands (B.calls.state bus.old) self.old.endpoint }
        ensures ok { OnOk result
            (writing bus.new self.new ≡ send B.calls buffer (writing bus.old self.old)) }
        ensures carries { OnOk result
            (CarriesOn (B.calls.state bus.old) (B.calls.state bus.new) self.old.endpoint
            self.new.endpoint (buffer.bytes ∷ [])) }
        ensures err { OnErr result (writing bus.new self.new ≡ writing bus.old self.old) }
        ensures back { IfErr result (λ back. back ≡ buffer) }
        ensures settings { KeepsWriter self.old self.new }
        ensures goes { WritesAlong (B.calls.state bus.old) (B.calls.state bus.new) self.old.endpoint
            self.new.endpoint }
        ensures handles { B.handles_stand bus.old bus.new }
    {
        self.endpoint.submit(bus, buffer)
    }

    /// Submits the buffer that stands, where it is not empty. Without memory nothing has changed.
    fn send_buffer<B: Bus>(&mut self, bus: &mut B) -> Result<(), NoMemory>
        requires stands { Stands (B.calls.state bus.old) self.old.endpoint }
        ensures ok { OnOk result
            (writing bus.new self.new ≡ sent B.calls self.old.buffer (writing bus.old self.old)) }
        ensures carries { OnOk result
            (CarriesOn (B.calls.state bus.old) (B.calls.state bus.new) self.old.endpoint
            self.new.endpoint (sent_bytes self.old.buffer)) }
        ensures err { OnErr result (writing bus.new self.new ≡ writing bus.old self.old) }
        ensures some { OnErr result (0 < length (unwrap_or self.old.buffer [])) }
        ensures settings { KeepsWriter self.old self.new }
        ensures goes { WritesAlong (B.calls.state bus.old) (B.calls.state bus.new) self.old.endpoint
            self.new.endpoint }
        ensures handles { B.handles_stand bus.old bus.new }
    {
        match self.buffer.take() {
            None => Ok(()),
            Some(buffer) if buffer.is_empty() => {
                self.buffer = Some(buffer);
                Ok(())
            }
            Some(buffer) => match self.send(bus, buffer) {
                Ok(()) => Ok(()),
                Err(back) => {
                    self.buffer = Some(back);
                    Err(NoMemory)
                }
            },
        }
    }

    /// Submits an empty transfer. Without memory nothing has changed.
    fn send_empty<B: Bus>(&mut self, bus: &mut B) -> Result<(), NoMemory>
        requires none { self.old.buffer ≡ None }
        requires few { length self.old.endpoint.pending < 64 }
        requires stands { Stands (B.calls.state bus.old) self.old.endpoint }
        ensures ok { OnOk result
            (writing bus.new self.new ≡ send B.calls empty_buffer (writing bus.old self.old)) }
        ensures carries { OnOk result
            (CarriesOn (B.calls.state bus.old) (B.calls.state bus.new) self.old.endpoint
            self.new.endpoint ([] ∷ [])) }
        ensures err { OnErr result (writing bus.new self.new ≡ writing bus.old self.old) }
        ensures settings { KeepsWriter self.old self.new }
        ensures goes { WritesAlong (B.calls.state bus.old) (B.calls.state bus.new) self.old.endpoint
            self.new.endpoint }
        ensures handles { B.handles_stand bus.old bus.new }
    {
        let buffer = self.endpoint.allocate(0)?;
        match self.send(bus, buffer) {
            Ok(()) => Ok(()),
            Err(_) => Err(NoMemory),
        }
    }

    /// Whether this many bytes are whole packets, at least one.
    fn ends_whole(&self, len: usize) -> bool
        ensures whole { result ≡ is_whole self.now.endpoint.maximum len }
    {
        len > 0 && len % self.endpoint.max_packet_size() == 0
    }

    /// How many transfers an end takes: two after whole packets, else one.
    pub fn end_need(&self) -> usize
        ensures need { result ≡ end_need self.now.endpoint.maximum self.now.buffer }
        ensures few { result ≤ 2 }
    {
        match &self.buffer {
            Some(buffer) if self.ends_whole(buffer.len()) => 2,
            _ => 1,
        }
    }

    /// Submits what ends a message. Without memory nothing is submitted, or the buffer alone.
    fn send_end<B: Bus>(&mut self, bus: &mut B) -> Result<(), NoMemory>
        requires few { length self.old.endpoint.pending
            + end_need self.old.endpoint.maximum self.old.buffer ≤ 64 }
        requires stands { Stands (B.calls.state bus.old) self.old.endpoint }
        ensures ok { OnOk result
            (writing bus.new self.new
            ≡ sent_end B.calls self.old.buffer (writing bus.old self.old)) }
        ensures carries { OnOk result
            (CarriesOn (B.calls.state bus.old) (B.calls.state bus.new) self.old.endpoint
            self.new.endpoint (ended_bytes self.old.endpoint.maximum self.old.buffer)) }
        ensures err { OnErr result
            (EndShort B.calls self.old.buffer (writing bus.old self.old)
            (writing bus.new self.new)) }
        ensures short { OnErr result
            (TellsShort (B.calls.state bus.old) (B.calls.state bus.new) self.old self.new) }
        ensures settings { KeepsWriter self.old self.new }
        ensures goes { WritesAlong (B.calls.state bus.old) (B.calls.state bus.new) self.old.endpoint
            self.new.endpoint }
        ensures handles { B.handles_stand bus.old bus.new }
    {
        let Some(buffer) = self.buffer.take() else {
            return self.send_empty(bus);
        };
        let is_whole = self.ends_whole(buffer.len());
        match self.send(bus, buffer) {
            Ok(()) if is_whole => self.send_empty(bus),
            Ok(()) => Ok(()),
            Err(back) => {
                self.buffer = Some(back);
                Err(NoMemory)
            }
        }
    }

    /// Submits an end, where none has begun, and one has then. Without memory none has begun.
    pub(crate) fn begin_end<B: Bus>(&mut self, bus: &mut B) -> Result<(), NoMemory>
        requires few { self.old.begun ≡ false → length self.old.endpoint.pending
            + end_need self.old.endpoint.maximum self.old.buffer ≤ 64 }
        requires stands { Stands (B.calls.state bus.old) self.old.endpoint }
        ensures ok { OnOk result
            (writing bus.new self.new ≡ begun_end B.calls (writing bus.old self.old)) }
        ensures none { OnErr result (self.old.begun ≡ false) }
        ensures err { OnErr result
            (EndShort B.calls self.old.buffer (writing bus.old self.old)
            (writing bus.new self.new)) }
        ensures tells { OnOk result
            (TellsOn (B.calls.state bus.old) (B.calls.state bus.new) self.old self.new
            (begun_calls self.old.begun)) }
        ensures short { OnErr result
            (TellsShort (B.calls.state bus.old) (B.calls.state bus.new) self.old self.new) }
        ensures settings { KeepsWriter self.old self.new }
        ensures goes { WritesAlong (B.calls.state bus.old) (B.calls.state bus.new) self.old.endpoint
            self.new.endpoint }
        ensures handles { B.handles_stand bus.old bus.new }
    {
        if self.begun {
            return Ok(());
        }
        match self.send_end(bus) {
            Ok(()) => {
                self.begun = true;
                Ok(())
            }
            Err(_) => Err(NoMemory),
        }
    }

    /// Submits the buffer that stands, where it is not empty.
    ///
    /// # Errors
    ///
    /// Want of memory. Nothing has changed, but that no end has begun.
    pub fn submit<B: Bus>(&mut self, bus: &mut B) -> Result<(), NoMemory>
        requires stands { Stands (B.calls.state bus.old) self.old.endpoint }
        ensures ok { OnOk result
            (writing bus.new self.new ≡ submit_came B.calls (writing bus.old self.old)) }
        ensures err { OnErr result
            (SubmitShort (writing bus.old self.old) (writing bus.new self.new)) }
        ensures tells { TellsOn (B.calls.state bus.old) (B.calls.state bus.new) self.old self.new
            (submitted_calls result) }
        ensures settings { KeepsWriter self.old self.new }
        ensures goes { WritesAlong (B.calls.state bus.old) (B.calls.state bus.new) self.old.endpoint
            self.new.endpoint }
        ensures handles { B.handles_stand bus.old bus.new }
    {
        self.begun = false;
        self.send_buffer(bus)
    }

    /// Ends a message: submits the buffer that stands, or an empty one, and an empty transfer after
    /// whole packets.
    ///
    /// # Errors
    ///
    /// Want of memory: nothing is submitted, or the buffer without the empty transfer, which a
    /// further call submits.
    pub fn submit_end<B: Bus>(&mut self, bus: &mut B) -> Result<(), NoMemory>
        requires few { length self.old.endpoint.pending
            + end_need self.old.endpoint.maximum self.old.buffer ≤ 64 }
        requires stands { Stands (B.calls.state bus.old) self.old.endpoint }
        ensures ok { OnOk result
            (writing bus.new self.new ≡ submit_end_came B.calls (writing bus.old self.old)) }
        ensures err { OnErr result
            (SubmitEndShort B.calls (writing bus.old self.old) (writing bus.new self.new)) }
        ensures tells { OnOk result
            (TellsOn (B.calls.state bus.old) (B.calls.state bus.new) self.old self.new
            (Finish ∷ [])) }
        ensures short { OnErr result
            (TellsShort (B.calls.state bus.old) (B.calls.state bus.new) self.old self.new) }
        ensures settings { KeepsWriter self.old self.new }
        ensures goes { WritesAlong (B.calls.state bus.old) (B.calls.state bus.new) self.old.endpoint
            self.new.endpoint }
        ensures handles { B.handles_stand bus.old bus.new }
    {
        self.begun = false;
        self.send_end(bus)
    }
}
