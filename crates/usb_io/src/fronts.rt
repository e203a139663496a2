//! How a writer takes the fronts of its queue.

ghost use Rattle.std.specs.Prelude.{◌≡◌, ◌<◌, [], true, false, length, OnOk};
ghost use Rattle.usb_device_endpoint.specs.Handles.{Stands};
ghost use Rattle.usb_io.specs.Along.{WritesAlong};
ghost use Rattle.usb_io.specs.Answered.{answered};
ghost use Rattle.usb_io.specs.Fronts.{taken_once, waits_on, drained};
ghost use Rattle.usb_io.specs.Writers.{writing, with_taken, KeepsWriter};
ghost use Rattle.usb_io.specs.Carried.{TellsOn};

use crate::fault::WriteFault;
use crate::writer::EndpointWrite;
use usb_device_endpoint::Bus;
use usb_xfer::{BulkOrInterrupt, Completion, TransferError};

/// What a wait for the front came to.
#[derive(Clone, Copy, Debug, PartialEq, Eq)]
pub(crate) enum Taken {
    /// The front was taken, and ended so.
    Took(Result<(), TransferError>),
    /// The front was not there.
    NotCome,
}

impl<T: BulkOrInterrupt> EndpointWrite<T> {
    /// Keeps the buffer of a transfer that was taken from the endpoint, emptied, where it has the
    /// size and is wanted.
    fn keep(&mut self, completion: Completion)
        ensures kept { self.new ≡ with_taken completion self.old.endpoint.pending self.old }
    {
        let mut buffer = completion.buffer;
        if self.buffer.is_none()
            && buffer.capacity() == self.transfer_size
            && self.pending() < self.num_transfers
        {
            buffer.clear();
            buffer.set_requested_len(self.transfer_size);
            self.buffer = Some(buffer);
        }
    }

    /// Waits for the front and takes it.
    fn take<B: Bus>(&mut self, bus: &mut B, timeout: u64) -> Taken
        requires some { 0 < length self.old.endpoint.pending }
        requires stands { Stands (B.calls.state bus.old) self.old.endpoint }
        ensures came { taken_once B.calls timeout (writing bus.old self.old)
            ≡ (result, writing bus.new self.new) }
        ensures tells { TellsOn (B.calls.state bus.old) (B.calls.state bus.new)
            self.old self.new [] }
        ensures settings { KeepsWriter self.old self.new }
        ensures goes { WritesAlong (B.calls.state bus.old) (B.calls.state bus.new) self.old.endpoint
            self.new.endpoint }
        ensures handles { B.handles_stand bus.old bus.new }
    {
        match self.endpoint.wait_next_complete(bus, timeout) {
            Some(completion) => {
                let status = completion.status;
                self.keep(completion);
                Taken::Took(status)
            }
            None => Taken::NotCome,
        }
    }

    /// Whether fronts are to be taken.
    fn goes(&self, flushing: bool) -> bool
        ensures goes { result ≡ waits_on flushing self.now }
        ensures some { result ≡ true → 0 < length self.now.endpoint.pending }
    {
        if flushing {
            self.pending() > 0
        } else {
            self.buffer.is_none() && self.num_transfers <= self.pending()
        }
    }

    /// Takes front after front, until one fails or is not there.
    pub(crate) fn drain<B: Bus>(
        &mut self,
        bus: &mut B,
        flushing: bool,
        timeout: u64,
    ) -> Result<(), WriteFault>
        requires stands { Stands (B.calls.state bus.old) self.old.endpoint }
        ensures drained { drained B.calls flushing timeout (writing bus.old self.old)
            ≡ answered result (writing bus.new self.new) }
        ensures done { OnOk result (waits_on flushing self.new ≡ false) }
        ensures tells { TellsOn (B.calls.state bus.old) (B.calls.state bus.new)
            self.old self.new [] }
        ensures settings { KeepsWriter self.old self.new }
        ensures goes { WritesAlong (B.calls.state bus.old) (B.calls.state bus.new) self.old.endpoint
            self.new.endpoint }
        ensures handles { B.handles_stand bus.old bus.new }
    {
        'fronts: while self.goes(flushing) {
            match self.take(bus, timeout) {
                Taken::Took(Ok(())) => {}
                Taken::Took(Err(error)) => return Err(WriteFault::Transfer(error)),
                Taken::NotCome => return Err(WriteFault::TimedOut),
            }
        }
        Ok(())
    }
}
