//! Waits for the completions of an endpoint.

ghost use Rattle.std.specs.Prelude.{◌≡◌, ◌<◌, [], Some, length, IfSome, IfNone, IfOk, OnErr, IfErr};
ghost use Rattle.usb_device_endpoint.specs.Later.{GoesOn};
ghost use Rattle.usb_device_endpoint.specs.Handles.{Stands, KeepsOthers};
ghost use Rattle.usb_device_endpoint.specs.Waits.{front_found, polled, wait_next, EndedWhy, FoundWhy, front_of, time_is_up};
ghost use Rattle.usb_device_endpoint.specs.Blocking.{IsFinished, waited_by_seconds, transferred};

use crate::endpoint::Endpoint;
use crate::{Bus, Turn};
use futures::task::Poll;
use usb_kernel::{calls_extend_journals, extensions_keep_tickets, finished_can_be_reaped};
use usb_xfer::{Buffer, Completion, EndpointDirection, EndpointType};

/// A second in nanoseconds.
const SECOND: u64 = 1_000_000_000;

fn is_time_up(turn: Turn) -> bool
    ensures up { result ≡ time_is_up turn }
{
    matches!(turn, Turn::TimeUp)
}

impl<T: EndpointType, D: EndpointDirection> Endpoint<T, D> {
    /// Waits for the first pending transfer and takes its completion. None where it is not there
    /// after `timeout` nanoseconds of the bus's clock, or where time is up: the bus has nothing
    /// more to do.
    pub fn wait_next_complete<B: Bus>(&mut self, bus: &mut B, timeout: u64) -> Option<Completion>
        requires some { 0 < length self.old.pending }
        requires stands { Stands (B.calls.state bus.old) self.old }
        ensures waited { wait_next B.calls timeout bus.old self.old
            ≡ front_found result bus.new self.new }
        ensures found_why { IfSome result (λ _.
            FoundWhy (B.calls.state bus.old) (B.calls.state bus.new) (front_of self.old.pending)) }
        ensures why { IfNone result
            (EndedWhy (B.calls.state bus.old) (B.calls.state bus.new)
            (front_of self.old.pending) timeout) }
        ensures goes_on { GoesOn (B.calls.state bus.old) (B.calls.state bus.new) }
        ensures stands { Stands (B.calls.state bus.new) self.new }
        ensures others { KeepsOthers (B.calls.state bus.old) (B.calls.state bus.new) self.old.key }
        ensures handles { B.handles_stand bus.old bus.new }
        ensures rest { self.new ≡ record self.old { pending = self.new.pending } }
    {
        B::calls_keep_handles();
        let start = bus.now();
        'turns: loop {
            if let Poll::Ready(found) = self.poll_next_complete(bus) {
                return Some(found);
            }
            if bus.now() - start >= timeout {
                return None;
            }
            if is_time_up(bus.turn()) {
                return None;
            }
        }
    }

    /// Waits for the first pending transfer, which is finished, by seconds, and takes its
    /// completion.
    fn wait_finished<B: Bus>(&mut self, bus: &mut B) -> Completion
        requires some { 0 < length self.old.pending }
        requires stands { Stands (B.calls.state bus.old) self.old }
        requires finished { IsFinished (B.calls.state bus.old).past (front_of self.old.pending) }
        ensures found { polled B.calls
            (waited_by_seconds B.calls (front_of self.old.pending) bus.old) self.old
            ≡ front_found (Some result) bus.new self.new }
        ensures stands { Stands (B.calls.state bus.new) self.new }
        ensures others { KeepsOthers (B.calls.state bus.old) (B.calls.state bus.new) self.old.key }
        ensures handles { B.handles_stand bus.old bus.new }
    {
        finished_can_be_reaped();
        extensions_keep_tickets();
        'waits: loop {
            if let Some(found) = self.wait_next_complete(bus, SECOND) {
                return found;
            }
        }
    }

    /// Submits a buffer, waits for its completion and takes it. After `timeout` nanoseconds of the
    /// bus's clock, or where time is up before, the transfer is cancelled, and then waited for until
    /// it is there.
    ///
    /// # Errors
    ///
    /// The buffer, where memory is wanted. Nothing has changed.
    #[tactic(auto, using(crate::proofs::HandleLemmas::others_in_turn))]
    pub fn transfer_blocking<B: Bus>(
        &mut self,
        bus: &mut B,
        buf: Buffer,
        timeout: u64,
    ) -> Result<Completion, Buffer>
        requires none { self.old.pending ≡ [] }
        requires stands { Stands (B.calls.state bus.old) self.old }
        ensures transferred { IfOk result (λ c.
            transferred B.calls timeout bus.old self.old buf
            ≡ front_found (Some c) bus.new self.new) }
        ensures stands { Stands (B.calls.state bus.new) self.new }
        ensures others { KeepsOthers (B.calls.state bus.old) (B.calls.state bus.new) self.old.key }
        ensures handles { B.handles_stand bus.old bus.new }
        ensures rest { self.new ≡ self.old }
        ensures err { OnErr result (bus.new ≡ bus.old) }
        ensures back { IfErr result (λ back. back ≡ buf) }
    {
        finished_can_be_reaped();
        calls_extend_journals();
        extensions_keep_tickets();
        self.submit(bus, buf)?;
        if let Some(found) = self.wait_next_complete(bus, timeout) {
            return Ok(found);
        }
        self.cancel_all(bus);
        Ok(self.wait_finished(bus))
    }
}
