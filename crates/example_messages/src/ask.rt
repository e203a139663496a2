//! Requests and their answers.

ghost use Rattle.std.specs.Prelude.{◌≡◌, ◌≤◌, ◌++◌, ◌↔◌, IfOk, OnOk, IfErr, OnErr, IsTrue, vec_len, length, take, true};
ghost use Rattle.usb_device_endpoint.specs.BusState.{BusState};
ghost use Rattle.usb_device_host.specs.HostBus.{bus_of};
ghost use Rattle.usb_io.specs.Along.{WritesAlong, ReadsAlong};
ghost use Rattle.usb_io.specs.Following.{FollowsRead};
ghost use Rattle.usb_io.specs.Readers.{ReaderState, is_end, without_end};
ghost use Rattle.usb_io.specs.Reads.{reading};
ghost use Rattle.usb_io.specs.Writers.{writing};
ghost use Rattle.example_messages.specs.Endpoints.{IsSettled, IsOpen, KeepsEndpoints, StandBeside};
ghost use Rattle.example_messages.specs.Asking.{WritesBytes, WritesMessage, ReadsMessage, SendFails, ReceiveFails, Fails};

use crate::fault::{Fault, read_failed, write_failed};
use crate::messages::Messages;
use usb_device::{Fail, Host, NoMemory};

/// The most bytes of an answer.
pub const LONGEST_ANSWER: usize = 4096;

/// The most bytes of a read.
const READ_SIZE: usize = 512;

/// The most transfers that are pending at an endpoint.
const MOST_PENDING: usize = 64;

/// Appends bytes.
fn append(all: &mut Vec<u8>, bytes: &[u8]) -> Result<(), NoMemory>
    ensures all { OnOk result (all.new.items ≡ all.old.items ++ bytes.now) }
{
    Ok(all.extend_from_slice(bytes)?)
}

impl Messages {
    /// Whether nothing of an earlier request is left: no transfer is pending, no byte is unread or
    /// unsent, and no end and no error stands.
    pub fn is_settled(&self) -> bool
        ensures settled { IsTrue result ↔ IsSettled self.now }
    {
        self.reader.pending() == 0
            && self.reader.available() == 0
            && !self.reader.has_end()
            && !self.reader.has_error()
            && self.writer.pending() == 0
            && self.writer.buffered().unwrap_or(0) == 0
    }

    /// Sends a request as one message, and gives the message that is the answer: the bytes of the
    /// packets that come, up to the first that is shorter than the maximum packet size.
    ///
    /// # Errors
    ///
    /// Want of memory, and the faults. No byte of an answer is handed over then. What is left of it
    /// is not taken for that of a later request, which is refused with `Fault::Unsettled` until
    /// `restart` has dropped it.
    ///
    /// # Not claimed
    ///
    /// That `Fault::Stuck` never comes; that nothing is left behind an answer, which would refuse
    /// the next request; that a device answers the request that it was sent, and not another.
    pub fn ask(&mut self, host: &mut Host, request: &[u8]) -> Result<Vec<u8>, Fail<Fault>>
        requires stands { IsOpen (bus_of host.old) self.old }
        ensures sent { OnOk result (WritesMessage (bus_of host.old) (bus_of host.new)
            self.old.writer self.new.writer request.now) }
        ensures answer { IfOk result (λ answer. ReadsMessage (bus_of host.old) (bus_of host.new)
            self.old.reader self.new.reader answer.items) }
        ensures short { IfOk result (λ answer. vec_len answer ≤ LONGEST_ANSWER) }
        ensures settled { OnOk result (IsSettled self.old) }
        ensures failed { IfErr result (Fails host.old host.new self.old self.new) }
        ensures stands { IsOpen (bus_of host.new) self.new }
        ensures same { KeepsEndpoints self.old self.new }
        ensures others { StandBeside (bus_of host.old) (bus_of host.new) self.old }
    {
        if !self.is_settled() {
            return Err(Fail::Cause(Fault::Unsettled));
        }
        self.send(host, request)?;
        self.receive(host)
    }

    /// Sends a message.
    fn send(&mut self, host: &mut Host, request: &[u8]) -> Result<(), Fail<Fault>>
        requires stands { IsOpen (bus_of host.old) self.old }
        ensures sent { OnOk result (WritesMessage (bus_of host.old) (bus_of host.new)
            self.old.writer self.new.writer request.now) }
        ensures failed { IfErr result (SendFails (writing host.new self.new.writer)) }
        ensures reader { self.new.reader ≡ self.old.reader }
        ensures along { WritesAlong (bus_of host.old) (bus_of host.new) self.old.writer.endpoint
            self.new.writer.endpoint }
    {
        self.write_all(host, request)?;
        if self.writer.pending() > MOST_PENDING - self.writer.end_need() {
            return Err(Fail::Cause(Fault::Stuck));
        }
        match self.writer.flush_end(host) {
            Ok(()) => Ok(()),
            Err(fail) => Err(write_failed(fail)),
        }
    }

    /// Writes all bytes of a message, without its end.
    fn write_all(&mut self, host: &mut Host, request: &[u8]) -> Result<(), Fail<Fault>>
        requires stands { IsOpen (bus_of host.old) self.old }
        ensures written { OnOk result (WritesBytes (bus_of host.old) (bus_of host.new)
            self.old.writer self.new.writer request.now) }
        ensures failed { IfErr result (SendFails (writing host.new self.new.writer)) }
        ensures reader { self.new.reader ≡ self.old.reader }
        ensures along { WritesAlong (bus_of host.old) (bus_of host.new) self.old.writer.endpoint
            self.new.writer.endpoint }
    {
        let mut done = 0;
        'writes: while done < request.len() {
            match self.writer.write(host, &request[done..]) {
                Ok(0) => return Err(Fail::Cause(Fault::Stuck)),
                Ok(count) => done += count,
                Err(fail) => return Err(write_failed(fail)),
            }
        }
        Ok(())
    }

    /// Receives a message.
    fn receive(&mut self, host: &mut Host) -> Result<Vec<u8>, Fail<Fault>>
        requires stands { IsOpen (bus_of host.old) self.old }
        ensures answer { IfOk result (λ answer. ReadsMessage (bus_of host.old) (bus_of host.new)
            self.old.reader self.new.reader answer.items) }
        ensures short { IfOk result (λ answer. vec_len answer ≤ LONGEST_ANSWER) }
        ensures failed { IfErr result (ReceiveFails (bus_of host.old) self.old.reader
            (reading host.new self.new.reader)) }
        ensures writer { self.new.writer ≡ self.old.writer }
        ensures along { ReadsAlong (bus_of host.old) (bus_of host.new) self.old.reader.endpoint
            self.new.reader.endpoint }
    {
        let mut answer = Vec::new(host.allocator());
        let mut bytes = [0; READ_SIZE];
        'reads: while answer.len() <= LONGEST_ANSWER {
            let count = self.read(host, &mut bytes)?;
            if count == 0 {
                self.take_end()?;
                return Ok(answer);
            }
            append(&mut answer, &bytes[..count])?;
        }
        Err(Fail::Cause(Fault::TooLong))
    }

    /// Reads bytes of a message, as many as are there and fit, and none at its end.
    fn read(&mut self, host: &mut Host, bytes: &mut [u8]) -> Result<usize, Fail<Fault>>
        requires stands { IsOpen (bus_of host.old) self.old }
        ensures few { IfOk result (λ n. n ≤ length bytes.old) }
        ensures read { IfOk result (λ n. FollowsRead (bus_of host.old) (bus_of host.new)
            self.old.reader self.new.reader (take n bytes.new)) }
        ensures failed { IfErr result (λ e. (first : BusState) (r : ReaderState)
            → ReceiveFails first r (reading host.new self.new.reader) e) }
        ensures along { ReadsAlong (bus_of host.old) (bus_of host.new) self.old.reader.endpoint
            self.new.reader.endpoint }
        ensures writer { self.new.writer ≡ self.old.writer }
    {
        match self.reader.until_short_packet().read(host, bytes) {
            Ok(count) => Ok(count),
            Err(fail) => Err(read_failed(fail)),
        }
    }

    /// Takes the end of a message off, which is next.
    fn take_end(&mut self) -> Result<(), Fail<Fault>>
        ensures end { OnOk result (is_end self.old.reader ≡ true) }
        ensures taken { OnOk result (self.new
            ≡ record self.old { reader = without_end self.old.reader }) }
        ensures none { OnErr result (self.new ≡ self.old) }
        ensures stuck { IfErr result (λ e. e ≡ Fail.Cause Fault.Stuck) }
    {
        match self.reader.until_short_packet().consume_end() {
            Ok(()) => Ok(()),
            Err(_) => Err(Fail::Cause(Fault::Stuck)),
        }
    }
}
