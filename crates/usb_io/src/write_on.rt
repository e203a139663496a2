//! A writer on its bus, which std's trait writes to.

ghost use Rattle.std.specs.Prelude.{◌≡◌, true, None};
ghost use Rattle.usb_io.specs.Held.{IsHeld, IsHeld-prop};
ghost use Rattle.std.specs.IoError.{error_kind, raw_os_error};
ghost use Rattle.usb_io.specs.StdErrors.{std_write_kind};

use crate::fault::WriteFault;
use crate::read_on::transfer_error;
use crate::writer::EndpointWrite;
use std::io::{self, ErrorKind, Write};
use usb_desc::Fail;
use usb_device_endpoint::Bus;
use usb_xfer::BulkOrInterrupt;

/// A writer and the bus that it writes by.
#[derive(Drop)]
pub struct WriteOn<'a, T: BulkOrInterrupt, B: Bus> {
    /// The writer that is written to.
    pub writer: &'a mut EndpointWrite<T>,
    /// The bus that it writes by.
    pub bus: &'a mut B,
    ghost key_is_open: { (B.calls.state bus.now).keys writer.now.endpoint.key ≡ true },
    ghost held: { IsHeld (B.calls.state bus.now) writer.now.endpoint } by { IsHeld-prop (B.calls.state bus.now) writer.now.endpoint },
}

/// The error of std's for a write that failed.
fn std_error(fail: Fail<WriteFault>) -> io::Error
    ensures kind { error_kind result ≡ std_write_kind fail }
    ensures not_os { raw_os_error result ≡ None }
{
    match fail {
        Fail::Cause(WriteFault::Transfer(error)) => transfer_error(error),
        Fail::Cause(WriteFault::TimedOut) => io::Error::new(ErrorKind::TimedOut, "write timeout"),
        Fail::Memory => io::Error::new(ErrorKind::OutOfMemory, "out of memory"),
    }
}

impl<'a, T: BulkOrInterrupt, B: Bus> Write for WriteOn<'a, T, B> {
    ghost use Rattle.std.specs.Prelude.{◌≡◌, Ok, IfOk, IfErr, OnOk, None};
    ghost use Rattle.std.specs.Io.{WritesAtMost};
    ghost use Rattle.std.specs.Io.KnownBytes.{WriteAppends, Keeps};
    ghost use Rattle.usb_io.specs.Answered.{answered};
    ghost use Rattle.usb_io.specs.Writers.{writing, KeepsWriter};
    ghost use Rattle.usb_io.specs.WriteAnswers.{write_came, flush_came};
    ghost use Rattle.usb_io.specs.Carried.{written_calls, TellsOn};
    ghost use Rattle.usb_io.specs.StdErrors.{IsStdWriteError, IsStdFlushError, TellsStdFlush};

    fn write(&mut self, buf: &[u8]) -> io::Result<usize>
        ensures bound { WritesAtMost result buf.now }
        ensures bytes { WriteAppends None None result buf.now }
        ensures same_writer { self.new.writer.ghost_name ≡ self.old.writer.ghost_name }
        ensures same_bus { self.new.bus.ghost_name ≡ self.old.bus.ghost_name }
        ensures wrote { IfOk result
            (λ n. write_came B.calls self.old.writer.now.timeout buf.now
            (writing self.old.bus.now self.old.writer.now)
            ≡ answered (Ok n) (writing self.new.bus.now self.new.writer.now)) }
        ensures failed { IfErr result
            (IsStdWriteError B.calls self.old.writer.now.timeout buf.now
            (writing self.old.bus.now self.old.writer.now)
            (writing self.new.bus.now self.new.writer.now)) }
        ensures tells { TellsOn (B.calls.state self.old.bus.now) (B.calls.state self.new.bus.now)
            self.old.writer.now self.new.writer.now (written_calls buf.now result) }
        ensures settings { KeepsWriter self.old.writer.now self.new.writer.now }
    {
        match self.writer.write(&mut *self.bus, buf) {
            Ok(n) => Ok(n),
            Err(fail) => Err(std_error(fail)),
        }
    }

    fn flush(&mut self) -> io::Result<()>
        ensures bytes { Keeps None None }
        ensures same_writer { self.new.writer.ghost_name ≡ self.old.writer.ghost_name }
        ensures same_bus { self.new.bus.ghost_name ≡ self.old.bus.ghost_name }
        ensures flushed { OnOk result
            (flush_came B.calls self.old.writer.now.timeout
            (writing self.old.bus.now self.old.writer.now)
            ≡ answered (Ok tt) (writing self.new.bus.now self.new.writer.now)) }
        ensures failed { IfErr result
            (IsStdFlushError B.calls self.old.writer.now.timeout
            (writing self.old.bus.now self.old.writer.now)
            (writing self.new.bus.now self.new.writer.now)) }
        ensures tells { TellsStdFlush (B.calls.state self.old.bus.now)
            (B.calls.state self.new.bus.now) self.old.writer.now self.new.writer.now result }
        ensures settings { KeepsWriter self.old.writer.now self.new.writer.now }
    {
        match self.writer.flush(&mut *self.bus) {
            Ok(()) => Ok(()),
            Err(fail) => Err(std_error(fail)),
        }
    }
}

impl<T: BulkOrInterrupt> EndpointWrite<T> {
    ghost use Rattle.usb_device_endpoint.specs.Handles.{Stands};

    /// The writer on this bus, for std's trait.
    pub fn on<'a, B: Bus>(&'a mut self, bus: &'a mut B) -> WriteOn<'a, T, B>
        requires stands { Stands (B.calls.state bus.old) self.old.endpoint }
        ensures writer { (result.writer.ghost_name ≡ self.entry.ghost_name)
            × (result.writer.now ≡ self.old) }
        ensures bus { (result.bus.ghost_name ≡ bus.entry.ghost_name)
            × (result.bus.now ≡ bus.old) }
    {
        WriteOn { writer: self, bus }
    }
}
