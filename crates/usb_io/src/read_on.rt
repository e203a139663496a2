//! A reader on its bus, which std's traits read.

ghost use Rattle.std.specs.Prelude.{◌≡◌, true, None};
ghost use Rattle.usb_io.specs.Held.{IsHeld, IsHeld-prop};
ghost use Rattle.std.specs.IoError.{error_kind, raw_os_error};
ghost use Rattle.usb_io.specs.StdErrors.{std_kind, std_kind_of_transfer};

use crate::fault::ReadFault;
use crate::reader::EndpointRead;
use std::io::{self, ErrorKind, Read};
use usb_desc::Fail;
use usb_device_endpoint::Bus;
use usb_xfer::{BulkOrInterrupt, TransferError};

/// A reader and the bus that it reads by.
#[derive(Drop)]
pub struct ReadOn<'a, T: BulkOrInterrupt, B: Bus> {
    /// The reader that is read.
    pub reader: &'a mut EndpointRead<T>,
    /// The bus that it reads by.
    pub bus: &'a mut B,
    /// Whether reads stop at short packets.
    pub until_short: bool,
    ghost key_is_open: { (B.calls.state bus.now).keys reader.now.endpoint.key ≡ true },
    ghost held: { IsHeld (B.calls.state bus.now) reader.now.endpoint } by { IsHeld-prop (B.calls.state bus.now) reader.now.endpoint },
}

/// The error of std's for a transfer that failed.
pub(crate) fn transfer_error(error: TransferError) -> io::Error
    ensures kind { error_kind result ≡ std_kind_of_transfer error }
    ensures not_os { raw_os_error result ≡ None }
{
    match error {
        TransferError::Cancelled => {
            io::Error::new(ErrorKind::Interrupted, "transfer was cancelled")
        }
        TransferError::Stall => io::Error::new(ErrorKind::ConnectionReset, "endpoint stalled"),
        TransferError::Disconnected => {
            io::Error::new(ErrorKind::ConnectionAborted, "device disconnected")
        }
        TransferError::Fault => io::Error::other("hardware fault or protocol violation"),
        TransferError::InvalidArgument => {
            io::Error::new(ErrorKind::InvalidInput, "invalid or unsupported argument")
        }
        TransferError::Unknown(_) => io::Error::other("unknown error of the system"),
    }
}

/// The error of std's for a read that failed.
pub(crate) fn std_error(fail: Fail<ReadFault>) -> io::Error
    ensures kind { error_kind result ≡ std_kind fail }
    ensures not_os { raw_os_error result ≡ None }
{
    match fail {
        Fail::Cause(ReadFault::Transfer(error)) => transfer_error(error),
        Fail::Cause(ReadFault::TimedOut) => {
            io::Error::new(ErrorKind::TimedOut, "timeout waiting for read")
        }
        Fail::Cause(ReadFault::UnexpectedEof) => {
            io::Error::new(ErrorKind::UnexpectedEof, "ended without short packet")
        }
        Fail::Memory => io::Error::new(ErrorKind::OutOfMemory, "out of memory"),
    }
}

impl<'a, T: BulkOrInterrupt, B: Bus> Read for ReadOn<'a, T, B> {
    ghost use Rattle.std.specs.Prelude.{◌≡◌, ◌≤◌, Ok, IfOk, IfErr, OnErr, None, length, take, drop, true};
    ghost use Rattle.std.specs.Io.{ReadsAtMost};
    ghost use Rattle.std.specs.Io.KnownBytes.{ReadConsumes};
    ghost use Rattle.usb_io.specs.Answered.{answered};
    ghost use Rattle.usb_io.specs.Answers.{read_came};
    ghost use Rattle.usb_io.specs.Following.{FollowsOn, FollowsRead};
    ghost use Rattle.usb_io.specs.Along.{ReadsAlong};
    ghost use Rattle.usb_io.specs.Reads.{reading, KeepsSettings};
    ghost use Rattle.usb_io.specs.StdErrors.{IsStdError};

    fn read(&mut self, buf: &mut [u8]) -> io::Result<usize>
        ensures bound { ReadsAtMost result buf.new }
        ensures bytes { ReadConsumes None None result buf.new }
        ensures same_reader { self.new.reader.ghost_name ≡ self.old.reader.ghost_name }
        ensures same_bus { self.new.bus.ghost_name ≡ self.old.bus.ghost_name }
        ensures until_short { self.new.until_short ≡ self.old.until_short }
        ensures few { IfOk result (λ n. n ≤ length buf.old) }
        ensures read { IfOk result
            (λ n. read_came B.calls self.old.until_short self.old.reader.now.timeout (length
            buf.old) (reading self.old.bus.now self.old.reader.now) ≡ answered (Ok (take n buf.new))
            (reading self.new.bus.now self.new.reader.now)) }
        ensures behind { IfOk result (λ n. drop n buf.new ≡ drop n buf.old) }
        ensures failed { IfErr result
            (IsStdError B.calls self.old.until_short self.old.reader.now.timeout
            (reading self.old.bus.now self.old.reader.now)
            (reading self.new.bus.now self.new.reader.now)) }
        ensures kept { OnErr result (buf.new ≡ buf.old) }
        ensures goes { ReadsAlong (B.calls.state self.old.bus.now) (B.calls.state self.new.bus.now)
            self.old.reader.now.endpoint self.new.reader.now.endpoint }
        ensures follows { self.old.until_short ≡ true
            → IfOk result
            (λ n. FollowsRead (B.calls.state self.old.bus.now) (B.calls.state self.new.bus.now)
            self.old.reader.now self.new.reader.now (take n buf.new)) }
        ensures fails { self.old.until_short ≡ true
            → OnErr result
            (FollowsOn (B.calls.state self.old.bus.now) (B.calls.state self.new.bus.now)
            self.old.reader.now self.new.reader.now) }
        ensures settings { KeepsSettings self.old.reader.now self.new.reader.now }
    {
        let timeout = self.reader.read_timeout();
        match self
            .reader
            .read_within(&mut *self.bus, buf, self.until_short, timeout)
        {
            Ok(n) => Ok(n),
            Err(fail) => Err(std_error(fail)),
        }
    }
}

impl<T: BulkOrInterrupt> EndpointRead<T> {
    ghost use Rattle.std.specs.Prelude.{false};
    ghost use Rattle.usb_device_endpoint.specs.Handles.{Stands};

    /// The reader on this bus, for std's traits.
    pub fn on<'a, B: Bus>(&'a mut self, bus: &'a mut B) -> ReadOn<'a, T, B>
        requires stands { Stands (B.calls.state bus.old) self.old.endpoint }
        ensures reader { (result.reader.ghost_name ≡ self.entry.ghost_name)
            × (result.reader.now ≡ self.old) }
        ensures bus { (result.bus.ghost_name ≡ bus.entry.ghost_name)
            × (result.bus.now ≡ bus.old) }
        ensures until_short { result.until_short ≡ false }
    {
        ReadOn {
            reader: self,
            bus,
            until_short: false,
        }
    }

    /// The reader on this bus, for reads by std's traits that stop at short packets.
    pub fn until_short_packet_on<'a, B: Bus>(&'a mut self, bus: &'a mut B) -> ReadOn<'a, T, B>
        requires stands { Stands (B.calls.state bus.old) self.old.endpoint }
        ensures reader { (result.reader.ghost_name ≡ self.entry.ghost_name)
            × (result.reader.now ≡ self.old) }
        ensures bus { (result.bus.ghost_name ≡ bus.entry.ghost_name)
            × (result.bus.now ≡ bus.old) }
        ensures until_short { result.until_short ≡ true }
    {
        ReadOn {
            reader: self,
            bus,
            until_short: true,
        }
    }
}
