//! The responses of a client.

ghost use Rattle.std.specs.Prelude.{◌≡◌, ◌≢◌, ◌+◌, ◌<◌, ◌≤◌, ◌∷◌, ◌⊎◌, true, length, [], Ok, Err, Some, IfOk, IfErr, OnOk, OnErr};
ghost use Rattle.usb_device_endpoint.specs.Handles.{Stands};
ghost use Rattle.usb_io.specs.Along.{ReadsAlong};
ghost use Rattle.usb_io.specs.Answered.{answered};
ghost use Rattle.usb_io.specs.Readers.{is_end};
ghost use Rattle.usb_io.specs.Reads.{KeepsSettings};
ghost use Rattle.usb_io.specs.StreamFaults.{read_fault};
ghost use Rattle.usb_io.specs.declared.fault.ReadFault.TheVariants.{UnexpectedEof};
ghost use Rattle.usb_msg.specs.Requests.{messaging};
ghost use Rattle.usb_msg.specs.Responses.{responded, ResponseFails, message_taken, without_message};
ghost use Rattle.usb_msg.specs.Frames.{framed, body_in};
ghost use Rattle.usb_msg.specs.Histories.{KeepsOn};

use crate::client::MsgClient;
use crate::error::{Ending, MsgError};
use crate::faults::{read_fault, text_room};
use crate::gathering::Gathered;
use usb_desc::{Fail, NoMemory};
use usb_device_endpoint::Bus;
use usb_xfer::BulkOrInterrupt;

impl<O: BulkOrInterrupt, I: BulkOrInterrupt> MsgClient<O, I> {
    /// Takes the message off that has come, with its end.
    fn drop_message(&mut self)
        requires end { is_end self.old.reader ≡ true }
        ensures dropped { self.new ≡ without_message self.old }
    {
        let _ = self.reader.until_short_packet().consume_end();
        self.filled = 0;
    }

    /// The message that has come is none that is due, and ends the client.
    fn refuse_message(&mut self, ending: Ending)
        requires end { is_end self.old.reader ≡ true }
        ensures refused { self.new ≡ record (without_message self.old) { ended = Some ending } }
    {
        self.drop_message();
        self.ended = Some(ending);
    }

    /// The body of the message that has come: what stands behind its tag.
    fn copy_body(&self) -> Result<Vec<u8>, NoMemory>
        requires tag { 4 ≤ length self.now.frame }
        ensures body { IfOk result (λ body. body.items ≡ body_in self.now.frame) }
        ensures len { IfOk result (λ body. 4 + length body.items ≡ length self.now.frame) }
    {
        Ok(Vec::from_slice(self.allocator(), &self.frame[4..self.filled])?)
    }

    /// The body of the message that has come, which is taken off. Without memory it stays.
    fn take_message(&mut self) -> Result<Vec<u8>, MsgError>
        requires end { is_end self.old.reader ≡ true }
        requires few { length self.old.frame ≤ 4100 }
        requires outstanding { self.old.responses < self.old.requests }
        ensures ok { IfOk result
            (λ body. message_taken self.old ≡ answered (Ok body.items) self.new) }
        ensures framed { IfOk result
            (λ body. self.old.frame ≡ framed self.old.responses body.items) }
        ensures counted { OnOk result (self.new.responses ≡ self.old.responses + 1) }
        ensures same { OnErr result (self.new.responses ≡ self.old.responses) }
        ensures requests { self.new.requests ≡ self.old.requests }
        ensures writer { self.new.writer ≡ self.old.writer }
        ensures settings { KeepsSettings self.old.reader self.new.reader }
        ensures endpoint { self.new.reader.endpoint ≡ self.old.reader.endpoint }
        ensures failed { IfErr result (λ e. (message_taken self.old ≡ answered (Err e) self.new)
            ⊎ ((e ≡ MsgError.Memory) × (self.new ≡ self.old))) }
    {
        let len = self.filled;
        if len < 4 {
            let len = len as u32;
            self.refuse_message(Ending::Short { len });
            return Err(MsgError::Short { len });
        }
        let expected = self.responses;
        let got = u32::from_le_bytes([self.frame[0], self.frame[1], self.frame[2], self.frame[3]]);
        if got != expected {
            self.refuse_message(Ending::WrongTag { expected, got });
            return Err(MsgError::WrongTag { expected, got });
        }
        match self.copy_body() {
            Ok(body) => {
                self.drop_message();
                self.responses += 1;
                Ok(body)
            }
            Err(NoMemory) => Err(MsgError::Memory),
        }
    }

    /// Waits for the next response, and answers its body: the next message without its tag, which is
    /// the number of the responses before.
    ///
    /// # Errors
    ///
    /// The error that ended the client. That the next message is too short for a tag, too long for a
    /// frame or has another tag, or a fault of a transfer, each of which ends it. That a transfer
    /// did not end in time, and want of memory, which lose no byte and count no response.
    pub fn response<B: Bus>(&mut self, bus: &mut B) -> Result<Vec<u8>, MsgError>
        requires outstanding { self.old.responses < self.old.requests }
        requires stands { Stands (B.calls.state bus.old) self.old.reader.endpoint }
        ensures ok { IfOk result
            (λ body. responded B.calls (messaging bus.old self.old)
            ≡ answered (Ok body.items) (messaging bus.new self.new)) }
        ensures failed { IfErr result
            (ResponseFails B.calls (messaging bus.old self.old) (messaging bus.new self.new)) }
        ensures known { IfErr result (λ e. e ≢ MsgError.Io (read_fault UnexpectedEof)) }
        ensures told { IfOk result
            (λ body. KeepsOn (B.calls.state bus.old).past (B.calls.state bus.new).past self.old
            self.new [] (body.items ∷ [])) }
        ensures none { OnErr result
            (KeepsOn (B.calls.state bus.old).past (B.calls.state bus.new).past self.old self.new
            [] []) }
        ensures counted { OnOk result (self.new.responses ≡ self.old.responses + 1) }
        ensures same { OnErr result (self.new.responses ≡ self.old.responses) }
        ensures requests { self.new.requests ≡ self.old.requests }
        ensures writer { self.new.writer ≡ self.old.writer }
        ensures settings { KeepsSettings self.old.reader self.new.reader }
        ensures goes { ReadsAlong (B.calls.state bus.old) (B.calls.state bus.new)
            self.old.reader.endpoint self.new.reader.endpoint }
    {
        if let Some(ending) = self.ended {
            return Err(ending.to_error(self.allocator()));
        }
        let Ok(room) = text_room(self.allocator()) else {
            return Err(MsgError::Memory);
        };
        match self.gather(bus) {
            Ok(Gathered::Ended) => self.take_message(),
            Ok(Gathered::TooLong) => {
                self.ended = Some(Ending::TooLong);
                Err(MsgError::TooLong)
            }
            Err(Fail::Cause(fault)) => {
                self.ended = Ending::of_read(fault);
                Err(MsgError::Io(read_fault(room, fault)))
            }
            Err(Fail::Memory) => Err(MsgError::Memory),
        }
    }
}
