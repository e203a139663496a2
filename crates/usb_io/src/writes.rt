//! The writes and flushes of a writer.

ghost use Rattle.std.specs.Prelude.{◌≡◌, ◌+◌, ◌<◌, ◌≤◌, ◌++◌, [], false, length, take, unwrap_or, None, Ok, IfOk, IfErr, OnOk, OnErr};
ghost use Rattle.usb_device_endpoint.specs.Handles.{Stands};
ghost use Rattle.usb_io.specs.Along.{WritesAlong};
ghost use Rattle.usb_io.specs.Answered.{answered, as_wait, InTime};
ghost use Rattle.usb_io.specs.Fronts.{waits_on};
ghost use Rattle.usb_io.specs.Writers.{writing, out_buffer, end_need, KeepsWriter};
ghost use Rattle.usb_io.specs.WriteAnswers.{accepts, accepted_count, AcceptsNone, write_came, WriteFails, flush_came, FlushFails, flush_end_came, FlushEndFails, poll_flush_end_came, PollFlushEndFails};
ghost use Rattle.usb_io.specs.Carried.{CarriesOn, full_bytes, written_calls, flushed_calls, TellsOn, TellsEnd, TellsPolledEnd};

use crate::fault::WriteFault;
use crate::writer::EndpointWrite;
use futures::task::Poll;
use usb_desc::{Fail, NoMemory};
use usb_device_endpoint::Bus;
use usb_xfer::{Buffer, BulkOrInterrupt};

impl<T: BulkOrInterrupt> EndpointWrite<T> {
    /// The buffer that stands, or else a new one.
    fn next_out_buffer(&mut self) -> Result<Buffer, NoMemory>
        requires goes { waits_on false self.old ≡ false }
        ensures buffer { IfOk result
            (λ b. b ≡ out_buffer self.old.size (unwrap_or self.old.buffer [])) }
        ensures rest { OnOk result (self.new ≡ record self.old { buffer = None }) }
        ensures few { length self.new.endpoint.pending < 64 }
        ensures none { OnErr result (self.old.buffer ≡ None) }
        ensures err { OnErr result (self.new ≡ self.old) }
    {
        match self.buffer.take() {
            Some(buffer) => Ok(buffer),
            None => self.endpoint.allocate(self.transfer_size),
        }
    }

    /// Accepts what fits, and submits a full buffer. Without memory it accepts nothing.
    fn accept<B: Bus>(&mut self, bus: &mut B, src: &[u8]) -> Result<usize, NoMemory>
        requires goes { waits_on false self.old ≡ false }
        requires stands { Stands (B.calls.state bus.old) self.old.endpoint }
        ensures count { IfOk result (λ n. n ≡ accepted_count src.now self.old) }
        ensures ok { OnOk result
            (writing bus.new self.new ≡ accepts B.calls src.now (writing bus.old self.old)) }
        ensures carries { OnOk result
            (CarriesOn (B.calls.state bus.old) (B.calls.state bus.new) self.old.endpoint
            self.new.endpoint (full_bytes self.old.size (unwrap_or self.old.buffer []
            ++ take (accepted_count src.now self.old) src.now))) }
        ensures none { OnErr result
            (AcceptsNone src.now (writing bus.old self.old) (writing bus.new self.new)) }
        ensures settings { KeepsWriter self.old self.new }
        ensures goes { WritesAlong (B.calls.state bus.old) (B.calls.state bus.new) self.old.endpoint
            self.new.endpoint }
        ensures handles { B.handles_stand bus.old bus.new }
    {
        let mut buffer = self.next_out_buffer()?;
        let held = buffer.len();
        let n = src.len().min(buffer.remaining_capacity());
        buffer.extend_from_slice(&src[..n]);
        if buffer.len() != self.transfer_size {
            self.buffer = Some(buffer);
            return Ok(n);
        }
        match self.send(bus, buffer) {
            Ok(()) => Ok(n),
            Err(mut back) => {
                back.truncate(held);
                self.buffer = Some(back);
                Err(NoMemory)
            }
        }
    }

    /// Takes fronts while it has to, and then accepts what fits.
    fn write_within<B: Bus>(
        &mut self,
        bus: &mut B,
        src: &[u8],
        timeout: u64,
    ) -> Result<usize, Fail<WriteFault>>
        requires stands { Stands (B.calls.state bus.old) self.old.endpoint }
        ensures wrote { IfOk result
            (λ n. write_came B.calls timeout src.now (writing bus.old self.old)
            ≡ answered (Ok n) (writing bus.new self.new)) }
        ensures failed { IfErr result
            (WriteFails B.calls timeout src.now (writing bus.old self.old)
            (writing bus.new self.new)) }
        ensures tells { TellsOn (B.calls.state bus.old) (B.calls.state bus.new) self.old self.new
            (written_calls src.now result) }
        ensures settings { KeepsWriter self.old self.new }
        ensures goes { WritesAlong (B.calls.state bus.old) (B.calls.state bus.new) self.old.endpoint
            self.new.endpoint }
        ensures handles { B.handles_stand bus.old bus.new }
    {
        self.begun = false;
        match self.drain(bus, false, timeout) {
            Ok(()) => match self.accept(bus, src) {
                Ok(n) => Ok(n),
                Err(_) => Err(Fail::Memory),
            },
            Err(fault) => Err(Fail::Cause(fault)),
        }
    }

    /// Accepts bytes, as many as fit into the buffer that stands or into an empty one, and submits
    /// a full buffer. While no buffer stands and `num_transfers` are pending, it waits for the
    /// front and takes it.
    ///
    /// # Errors
    ///
    /// The error of a transfer that was taken; that the front was not there in time; want of
    /// memory. No byte is accepted then.
    pub fn write<B: Bus>(&mut self, bus: &mut B, src: &[u8]) -> Result<usize, Fail<WriteFault>>
        requires stands { Stands (B.calls.state bus.old) self.old.endpoint }
        ensures wrote { IfOk result
            (λ n. write_came B.calls self.old.timeout src.now (writing bus.old self.old)
            ≡ answered (Ok n) (writing bus.new self.new)) }
        ensures failed { IfErr result
            (WriteFails B.calls self.old.timeout src.now (writing bus.old self.old)
            (writing bus.new self.new)) }
        ensures tells { TellsOn (B.calls.state bus.old) (B.calls.state bus.new) self.old self.new
            (written_calls src.now result) }
        ensures settings { KeepsWriter self.old self.new }
        ensures goes { WritesAlong (B.calls.state bus.old) (B.calls.state bus.new) self.old.endpoint
            self.new.endpoint }
        ensures handles { B.handles_stand bus.old bus.new }
    {
        let timeout = self.timeout;
        self.write_within(bus, src, timeout)
    }

    /// `write`, which is pending where the front is not there.
    pub fn poll_write<B: Bus>(
        &mut self,
        bus: &mut B,
        src: &[u8],
    ) -> Poll<Result<usize, Fail<WriteFault>>>
        requires stands { Stands (B.calls.state bus.old) self.old.endpoint }
        ensures wrote { IfOk (as_wait WriteFault.TimedOut result)
            (λ n. write_came B.calls 0 src.now (writing bus.old self.old)
            ≡ answered (Ok n) (writing bus.new self.new)) }
        ensures failed { IfErr (as_wait WriteFault.TimedOut result)
            (WriteFails B.calls 0 src.now (writing bus.old self.old)
            (writing bus.new self.new)) }
        ensures in_time { InTime WriteFault.TimedOut result }
        ensures tells { TellsOn (B.calls.state bus.old) (B.calls.state bus.new) self.old self.new
            (written_calls src.now (as_wait WriteFault.TimedOut result)) }
        ensures settings { KeepsWriter self.old self.new }
        ensures goes { WritesAlong (B.calls.state bus.old) (B.calls.state bus.new) self.old.endpoint
            self.new.endpoint }
        ensures handles { B.handles_stand bus.old bus.new }
    {
        match self.write_within(bus, src, 0) {
            Ok(n) => Poll::Ready(Ok(n)),
            Err(Fail::Cause(WriteFault::TimedOut)) => Poll::Pending,
            Err(fail) => Poll::Ready(Err(fail)),
        }
    }

    /// Submits what stands, and takes all that is pending.
    fn flush_within<B: Bus>(&mut self, bus: &mut B, timeout: u64) -> Result<(), Fail<WriteFault>>
        requires stands { Stands (B.calls.state bus.old) self.old.endpoint }
        ensures ok { OnOk result
            (flush_came B.calls timeout (writing bus.old self.old)
            ≡ answered (Ok tt) (writing bus.new self.new)) }
        ensures failed { IfErr result
            (FlushFails B.calls timeout (writing bus.old self.old) (writing bus.new self.new)) }
        ensures tells { TellsOn (B.calls.state bus.old) (B.calls.state bus.new) self.old self.new
            (flushed_calls result) }
        ensures settings { KeepsWriter self.old self.new }
        ensures goes { WritesAlong (B.calls.state bus.old) (B.calls.state bus.new) self.old.endpoint
            self.new.endpoint }
        ensures handles { B.handles_stand bus.old bus.new }
    {
        if self.submit(bus).is_err() {
            return Err(Fail::Memory);
        }
        match self.drain(bus, true, timeout) {
            Ok(()) => Ok(()),
            Err(fault) => Err(Fail::Cause(fault)),
        }
    }

    /// Submits what stands, and takes all that is pending. The first failure is the answer, and the
    /// rest stays pending.
    ///
    /// # Errors
    ///
    /// The error of a transfer; that the front was not there in time; want of memory, with nothing
    /// submitted.
    pub fn flush<B: Bus>(&mut self, bus: &mut B) -> Result<(), Fail<WriteFault>>
        requires stands { Stands (B.calls.state bus.old) self.old.endpoint }
        ensures ok { OnOk result
            (flush_came B.calls self.old.timeout (writing bus.old self.old)
            ≡ answered (Ok tt) (writing bus.new self.new)) }
        ensures failed { IfErr result
            (FlushFails B.calls self.old.timeout (writing bus.old self.old)
            (writing bus.new self.new)) }
        ensures tells { TellsOn (B.calls.state bus.old) (B.calls.state bus.new) self.old self.new
            (flushed_calls result) }
        ensures settings { KeepsWriter self.old self.new }
        ensures goes { WritesAlong (B.calls.state bus.old) (B.calls.state bus.new) self.old.endpoint
            self.new.endpoint }
        ensures handles { B.handles_stand bus.old bus.new }
    {
        let timeout = self.timeout;
        self.flush_within(bus, timeout)
    }

    /// `flush`, which is pending where the front is not there.
    pub fn poll_flush<B: Bus>(&mut self, bus: &mut B) -> Poll<Result<(), Fail<WriteFault>>>
        requires stands { Stands (B.calls.state bus.old) self.old.endpoint }
        ensures ok { OnOk (as_wait WriteFault.TimedOut result)
            (flush_came B.calls 0 (writing bus.old self.old)
            ≡ answered (Ok tt) (writing bus.new self.new)) }
        ensures failed { IfErr (as_wait WriteFault.TimedOut result)
            (FlushFails B.calls 0 (writing bus.old self.old) (writing bus.new self.new)) }
        ensures in_time { InTime WriteFault.TimedOut result }
        ensures tells { TellsOn (B.calls.state bus.old) (B.calls.state bus.new) self.old self.new
            (flushed_calls (as_wait WriteFault.TimedOut result)) }
        ensures settings { KeepsWriter self.old self.new }
        ensures goes { WritesAlong (B.calls.state bus.old) (B.calls.state bus.new) self.old.endpoint
            self.new.endpoint }
        ensures handles { B.handles_stand bus.old bus.new }
    {
        match self.flush_within(bus, 0) {
            Ok(()) => Poll::Ready(Ok(())),
            Err(Fail::Cause(WriteFault::TimedOut)) => Poll::Pending,
            Err(fail) => Poll::Ready(Err(fail)),
        }
    }

    /// Ends a message as `submit_end` does, and takes all that is pending. The first failure is the
    /// answer, and the rest stays pending.
    ///
    /// # Errors
    ///
    /// The error of a transfer; that the front was not there in time; those of `submit_end`.
    pub fn flush_end<B: Bus>(&mut self, bus: &mut B) -> Result<(), Fail<WriteFault>>
        requires few { length self.old.endpoint.pending
            + end_need self.old.endpoint.maximum self.old.buffer ≤ 64 }
        requires stands { Stands (B.calls.state bus.old) self.old.endpoint }
        ensures ok { OnOk result
            (flush_end_came B.calls self.old.timeout (writing bus.old self.old)
            ≡ answered (Ok tt) (writing bus.new self.new)) }
        ensures failed { IfErr result
            (FlushEndFails B.calls self.old.timeout (writing bus.old self.old)
            (writing bus.new self.new)) }
        ensures tells { TellsEnd (B.calls.state bus.old) (B.calls.state bus.new) self.old self.new
            result }
        ensures settings { KeepsWriter self.old self.new }
        ensures goes { WritesAlong (B.calls.state bus.old) (B.calls.state bus.new) self.old.endpoint
            self.new.endpoint }
        ensures handles { B.handles_stand bus.old bus.new }
    {
        let timeout = self.timeout;
        if self.submit_end(bus).is_err() {
            return Err(Fail::Memory);
        }
        match self.drain(bus, true, timeout) {
            Ok(()) => Ok(()),
            Err(fault) => Err(Fail::Cause(fault)),
        }
    }

    /// `flush_end`, which is pending where the front is not there. The polls up to one that is
    /// ready submit one end in all, unless another writing, submitting or flushing call comes
    /// between.
    pub fn poll_flush_end<B: Bus>(&mut self, bus: &mut B) -> Poll<Result<(), Fail<WriteFault>>>
        requires few { self.old.begun ≡ false → length self.old.endpoint.pending
            + end_need self.old.endpoint.maximum self.old.buffer ≤ 64 }
        requires stands { Stands (B.calls.state bus.old) self.old.endpoint }
        ensures ok { OnOk (as_wait WriteFault.TimedOut result)
            (poll_flush_end_came B.calls (writing bus.old self.old)
            ≡ answered (Ok tt) (writing bus.new self.new)) }
        ensures failed { IfErr (as_wait WriteFault.TimedOut result)
            (PollFlushEndFails B.calls (writing bus.old self.old) (writing bus.new self.new)) }
        ensures in_time { InTime WriteFault.TimedOut result }
        ensures tells { TellsPolledEnd (B.calls.state bus.old) (B.calls.state bus.new) self.old
            self.new (as_wait WriteFault.TimedOut result) }
        ensures settings { KeepsWriter self.old self.new }
        ensures goes { WritesAlong (B.calls.state bus.old) (B.calls.state bus.new) self.old.endpoint
            self.new.endpoint }
        ensures handles { B.handles_stand bus.old bus.new }
    {
        if self.begin_end(bus).is_err() {
            return Poll::Ready(Err(Fail::Memory));
        }
        match self.drain(bus, true, 0) {
            Err(WriteFault::TimedOut) => Poll::Pending,
            Ok(()) => {
                self.begun = false;
                Poll::Ready(Ok(()))
            }
            Err(fault) => {
                self.begun = false;
                Poll::Ready(Err(Fail::Cause(fault)))
            }
        }
    }
}
