//! The reads that gather a message.

ghost use Rattle.std.specs.Prelude.{◌≡◌, ◌+◌, ◌≤◌, [], true, None, Ok, length, IfOk, IfErr};
ghost use Rattle.usb_device_endpoint.specs.Handles.{Stands};
ghost use Rattle.usb_io.specs.Along.{ReadsAlong};
ghost use Rattle.usb_io.specs.Answered.{answered, FailedAs};
ghost use Rattle.usb_io.specs.Readers.{is_end};
ghost use Rattle.usb_io.specs.Reads.{KeepsSettings};
ghost use Rattle.usb_msg.specs.Requests.{messaging};
ghost use Rattle.usb_msg.specs.Histories.{KeepsOn};
ghost use Rattle.usb_msg.specs.Responses.{piece_came, PieceShort, PieceCame, gathered, GatherFails, IsNextEnd, IsKnown};

use crate::client::MsgClient;
use usb_desc::Fail;
use usb_device_endpoint::Bus;
use usb_io::ReadFault;
use usb_xfer::BulkOrInterrupt;

/// What the reads of a message came to.
#[derive(Clone, Copy, Debug, PartialEq, Eq)]
pub(crate) enum Gathered {
    /// Its end is next.
    Ended,
    /// It has more bytes than a frame can have.
    TooLong,
}

impl<O: BulkOrInterrupt, I: BulkOrInterrupt> MsgClient<O, I> {
    /// Reads bytes of the message that has begun, as many as there are, up to one more than a frame
    /// can have. At its end it reads none.
    fn read_piece<B: Bus>(&mut self, bus: &mut B) -> Result<usize, Fail<ReadFault>>
        requires few { length self.old.frame ≤ 4100 }
        requires goes { self.old.ended ≡ None }
        requires stands { Stands (B.calls.state bus.old) self.old.reader.endpoint }
        ensures read { IfOk result
            (λ n. PieceCame B.calls (messaging bus.old self.old) (messaging bus.new self.new) n) }
        ensures failed { IfErr result
            (FailedAs (piece_came B.calls (messaging bus.old self.old))
            (PieceShort B.calls (messaging bus.old self.old) (messaging bus.new self.new))
            (messaging bus.new self.new)) }
        ensures count { IfOk result
            (λ n. length self.new.frame ≡ length self.old.frame + n) }
        ensures end { IfOk result (λ n. n ≡ 0 → is_end self.new.reader ≡ true) }
        ensures known { IfErr result IsKnown }
        ensures keeps { KeepsOn (B.calls.state bus.old).past (B.calls.state bus.new).past self.old
            self.new [] [] }
        ensures rest { self.new
            ≡ record self.old { reader = self.new.reader; frame = self.new.frame } }
        ensures settings { KeepsSettings self.old.reader self.new.reader }
        ensures goes { ReadsAlong (B.calls.state bus.old) (B.calls.state bus.new)
            self.old.reader.endpoint self.new.reader.endpoint }
    {
        let mut reader = self.reader.until_short_packet();
        match reader.read(bus, &mut self.frame[self.filled..]) {
            Ok(n) => {
                self.filled += n;
                Ok(n)
            }
            Err(fail) => Err(fail),
        }
    }

    /// Reads the next message: to its end, which stays next, or until it is too long.
    pub(crate) fn gather<B: Bus>(&mut self, bus: &mut B) -> Result<Gathered, Fail<ReadFault>>
        requires goes { self.old.ended ≡ None }
        requires stands { Stands (B.calls.state bus.old) self.old.reader.endpoint }
        ensures came { IfOk result
            (λ how. gathered B.calls (messaging bus.old self.old)
            ≡ answered (Ok how) (messaging bus.new self.new)) }
        ensures failed { IfErr result
            (GatherFails B.calls (messaging bus.old self.old) (messaging bus.new self.new)) }
        ensures end { IfOk result (IsNextEnd self.new) }
        ensures known { IfErr result IsKnown }
        ensures keeps { KeepsOn (B.calls.state bus.old).past (B.calls.state bus.new).past self.old
            self.new [] [] }
        ensures rest { self.new
            ≡ record self.old { reader = self.new.reader; frame = self.new.frame } }
        ensures settings { KeepsSettings self.old.reader self.new.reader }
        ensures goes { ReadsAlong (B.calls.state bus.old) (B.calls.state bus.new)
            self.old.reader.endpoint self.new.reader.endpoint }
    {
        'pieces: while self.filled <= 4100 {
            if self.read_piece(bus)? == 0 {
                return Ok(Gathered::Ended);
            }
        }
        Ok(Gathered::TooLong)
    }
}
