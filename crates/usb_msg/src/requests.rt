//! The requests of a client.

ghost use Rattle.std.specs.Prelude.{◌≡◌, ◌+◌, ◌-◌, ◌<◌, ◌≤◌, ◌^◌, ◌∷◌, [], length, Ok, IfOk, IfErr, OnOk, OnErr};
ghost use Rattle.usb_device_endpoint.specs.Handles.{Stands};
ghost use Rattle.usb_io.specs.Along.{WritesAlong};
ghost use Rattle.usb_io.specs.Answered.{answered};
ghost use Rattle.usb_io.specs.Writers.{KeepsWriter};
ghost use Rattle.usb_msg.specs.Clients.{request_need};
ghost use Rattle.usb_msg.specs.Requests.{messaging, requested, RequestFails};
ghost use Rattle.usb_msg.specs.Histories.{KeepsOn};

use crate::client::MsgClient;
use crate::error::{Ending, MsgError};
use crate::faults::{text_room, write_fault};
use crate::frames::frame_of;
use crate::sending::{SendFault, send};
use usb_device_endpoint::Bus;
use usb_xfer::BulkOrInterrupt;

impl<O: BulkOrInterrupt, I: BulkOrInterrupt> MsgClient<O, I> {
    /// How many transfers a request with this body may need: two where its frame is whole packets,
    /// else one.
    pub fn request_need(&self, body: &[u8]) -> usize
        ensures need { result
            ≡ request_need self.now.writer.endpoint.maximum (4 + length body.now) }
        ensures few { result ≤ 2 }
    {
        if (4 + body.len()) % self.writer.max_packet_size() == 0 {
            2
        } else {
            1
        }
    }

    /// Sends a request with this body, at most 4096 bytes, and answers its tag. Its response is that
    /// of the same number, counted from 0.
    ///
    /// # Errors
    ///
    /// The error that ended the client. A fault of a transfer of an earlier request, which ends it.
    /// That such a transfer did not end in time, with nothing accepted. Want of memory, which ends
    /// the client where the end of the message finds none, and else has accepted nothing.
    pub fn request<B: Bus>(&mut self, bus: &mut B, body: &[u8]) -> Result<u32, MsgError>
        requires short { length body.now ≤ 4096 }
        requires outstanding { self.old.requests < self.old.responses + 16 }
        requires tags { self.old.requests < 2 ^ 32 - 1 }
        requires few { length self.old.writer.endpoint.pending
            + request_need self.old.writer.endpoint.maximum (4 + length body.now) ≤ 64 }
        requires stands { Stands (B.calls.state bus.old) self.old.writer.endpoint }
        ensures ok { IfOk result
            (λ tag. requested B.calls body.now (messaging bus.old self.old)
            ≡ answered (Ok tag) (messaging bus.new self.new)) }
        ensures failed { IfErr result
            (RequestFails B.calls body.now (messaging bus.old self.old)
            (messaging bus.new self.new)) }
        ensures accepted { OnOk result
            (KeepsOn (B.calls.state bus.old).past (B.calls.state bus.new).past self.old self.new
            (body.now ∷ []) []) }
        ensures none { OnErr result
            (KeepsOn (B.calls.state bus.old).past (B.calls.state bus.new).past self.old self.new
            [] []) }
        ensures tag { IfOk result
            (λ tag. (tag ≡ self.old.requests) × (self.new.requests ≡ tag + 1)) }
        ensures same { OnErr result (self.new.requests ≡ self.old.requests) }
        ensures responses { self.new.responses ≡ self.old.responses }
        ensures reader { self.new.reader ≡ self.old.reader }
        ensures settings { KeepsWriter self.old.writer self.new.writer }
        ensures goes { WritesAlong (B.calls.state bus.old) (B.calls.state bus.new)
            self.old.writer.endpoint self.new.writer.endpoint }
    {
        if let Some(ending) = self.ended {
            return Err(ending.to_error(self.allocator()));
        }
        let Ok(room) = text_room(self.allocator()) else {
            return Err(MsgError::Memory);
        };
        let Ok(frame) = frame_of(self.allocator(), self.requests, body) else {
            return Err(MsgError::Memory);
        };
        match send(&mut self.writer, bus, frame.as_slice()) {
            Ok(()) => {
                let tag = self.requests;
                self.requests += 1;
                Ok(tag)
            }
            Err(SendFault::NotWritten(fault)) => {
                self.ended = Ending::of_write(fault);
                Err(MsgError::Io(write_fault(room, fault)))
            }
            Err(SendFault::NoWrite) => Err(MsgError::Memory),
            Err(SendFault::NoEnd) => {
                self.ended = Some(Ending::Memory);
                Err(MsgError::Memory)
            }
        }
    }
}
