//! The reads of a reader that lend its bytes.

ghost use Rattle.std.specs.Prelude.{◌≡◌, true, false};
ghost use Rattle.std.specs.Borrow.{sem};
ghost use Rattle.std.specs.Io.BufRead.{Rests};
ghost use Rattle.usb_device_endpoint.specs.Handles.{Stands};
ghost use Rattle.usb_io.specs.Following.{FollowsOn};
ghost use Rattle.usb_io.specs.Lent.{Filled, PollFilled};
ghost use Rattle.usb_io.specs.Along.{ReadsAlong};
ghost use Rattle.usb_io.specs.Reads.{reading, KeepsSettings};
ghost use Rattle.usb_io.specs.contracts.reader.EndpointRead.{the_row};

use crate::fault::ReadFault;
use crate::reader::EndpointRead;
use futures::task::Poll;
use usb_desc::Fail;
use usb_device_endpoint::Bus;
use usb_xfer::BulkOrInterrupt;

impl<T: BulkOrInterrupt> EndpointRead<T> {
    /// Turns, and lends what stands.
    #[tactic(auto, using(crate::proofs::AnswerLemmas::fill_is))]
    fn fill_within<B: Bus>(
        &mut self,
        bus: &mut B,
        until_short: bool,
        timeout: u64,
    ) -> Result<&[u8], Fail<ReadFault>>
        requires stands { Stands (B.calls.state bus.old) self.old.endpoint }
        ensures* lent { sem 𝓛
            (Rests (the_row T.row T.EndpointType) self.entry
            (λ new. Filled B.calls until_short timeout (reading bus.old self.old)
            (reading bus.new new) result
            × ReadsAlong (B.calls.state bus.old) (B.calls.state bus.new) self.old.endpoint
            new.endpoint
            × KeepsSettings self.old new
            × (until_short ≡ true
            → FollowsOn (B.calls.state bus.old) (B.calls.state bus.new) self.old new))) }
        ensures handles { B.handles_stand bus.old bus.new }
    {
        let turned = match self.turn(bus, until_short, timeout) {
            Ok(turned) => turned,
            Err(_) => return Err(Fail::Memory),
        };
        match self.answer(turned, until_short) {
            Ok(bytes) => Ok(bytes),
            Err(fault) => Err(Fail::Cause(fault)),
        }
    }

    /// A fill that only looks at the front: a wait of no time.
    #[tactic(auto, using(crate::proofs::AnswerLemmas::fill_is))]
    fn poll_fill_within<B: Bus>(
        &mut self,
        bus: &mut B,
        until_short: bool,
    ) -> Poll<Result<&[u8], Fail<ReadFault>>>
        requires stands { Stands (B.calls.state bus.old) self.old.endpoint }
        ensures* lent { sem 𝓛
            (Rests (the_row T.row T.EndpointType) self.entry
            (λ new. PollFilled B.calls until_short (reading bus.old self.old) (reading bus.new new)
            result
            × ReadsAlong (B.calls.state bus.old) (B.calls.state bus.new) self.old.endpoint
            new.endpoint
            × KeepsSettings self.old new
            × (until_short ≡ true
            → FollowsOn (B.calls.state bus.old) (B.calls.state bus.new) self.old new))) }
        ensures handles { B.handles_stand bus.old bus.new }
    {
        let turned = match self.turn(bus, until_short, 0) {
            Ok(turned) => turned,
            Err(_) => return Poll::Ready(Err(Fail::Memory)),
        };
        match self.answer(turned, until_short) {
            Ok(bytes) => Poll::Ready(Ok(bytes)),
            Err(ReadFault::TimedOut) => Poll::Pending,
            Err(fault) => Poll::Ready(Err(Fail::Cause(fault))),
        }
    }

    /// The bytes that stand, after turns where there are none. They are read by `consume`.
    ///
    /// # Errors
    ///
    /// Those of `read`.
    pub fn fill_buf<B: Bus>(&mut self, bus: &mut B) -> Result<&[u8], Fail<ReadFault>>
        requires stands { Stands (B.calls.state bus.old) self.old.endpoint }
        ensures* lent { sem 𝓛
            (Rests (the_row T.row T.EndpointType) self.entry
            (λ new. Filled B.calls false self.old.timeout (reading bus.old self.old)
            (reading bus.new new) result
            × ReadsAlong (B.calls.state bus.old) (B.calls.state bus.new) self.old.endpoint
            new.endpoint
            × KeepsSettings self.old new)) }
        ensures handles { B.handles_stand bus.old bus.new }
    {
        let timeout = self.timeout;
        self.fill_within(bus, false, timeout)
    }

    /// `fill_buf`, which is pending where the front is not there.
    pub fn poll_fill_buf<B: Bus>(&mut self, bus: &mut B) -> Poll<Result<&[u8], Fail<ReadFault>>>
        requires stands { Stands (B.calls.state bus.old) self.old.endpoint }
        ensures* lent { sem 𝓛
            (Rests (the_row T.row T.EndpointType) self.entry
            (λ new. PollFilled B.calls false (reading bus.old self.old) (reading bus.new new) result
            × ReadsAlong (B.calls.state bus.old) (B.calls.state bus.new) self.old.endpoint
            new.endpoint
            × KeepsSettings self.old new)) }
        ensures handles { B.handles_stand bus.old bus.new }
    {
        self.poll_fill_within(bus, false)
    }

    /// `fill_buf`, which stops at an end: it lends no byte there.
    ///
    /// # Errors
    ///
    /// Those of `fill_buf`; and that nothing is pending and no short packet came.
    pub fn fill_until_short<B: Bus>(&mut self, bus: &mut B) -> Result<&[u8], Fail<ReadFault>>
        requires stands { Stands (B.calls.state bus.old) self.old.endpoint }
        ensures* lent { sem 𝓛
            (Rests (the_row T.row T.EndpointType) self.entry
            (λ new. Filled B.calls true self.old.timeout (reading bus.old self.old)
            (reading bus.new new) result
            × ReadsAlong (B.calls.state bus.old) (B.calls.state bus.new) self.old.endpoint
            new.endpoint
            × KeepsSettings self.old new
            × FollowsOn (B.calls.state bus.old) (B.calls.state bus.new) self.old new)) }
        ensures handles { B.handles_stand bus.old bus.new }
    {
        let timeout = self.timeout;
        self.fill_within(bus, true, timeout)
    }

    /// `fill_until_short`, which is pending where the front is not there.
    pub fn poll_fill_until_short<B: Bus>(
        &mut self,
        bus: &mut B,
    ) -> Poll<Result<&[u8], Fail<ReadFault>>>
        requires stands { Stands (B.calls.state bus.old) self.old.endpoint }
        ensures* lent { sem 𝓛
            (Rests (the_row T.row T.EndpointType) self.entry
            (λ new. PollFilled B.calls true (reading bus.old self.old) (reading bus.new new) result
            × ReadsAlong (B.calls.state bus.old) (B.calls.state bus.new) self.old.endpoint
            new.endpoint
            × KeepsSettings self.old new
            × FollowsOn (B.calls.state bus.old) (B.calls.state bus.new) self.old new)) }
        ensures handles { B.handles_stand bus.old bus.new }
    {
        self.poll_fill_within(bus, true)
    }
}
