//! The next completion of an endpoint, as something that can be polled.

ghost use Rattle.std.specs.Prelude.{◌≡◌, ◌<◌, length};
ghost use Rattle.usb_device_endpoint.specs.Later.{GoesOn};
ghost use Rattle.usb_device_endpoint.specs.Polls.{in_poll};
ghost use Rattle.usb_device_endpoint.specs.Handles.{Stands, KeepsOthers};
ghost use Rattle.usb_device_endpoint.specs.Waits.{polled, front_found};

use crate::Bus;
use crate::endpoint::Endpoint;
use futures::task::Poll;
use usb_xfer::{Completion, EndpointDirection, EndpointType};

/// The next completion of an endpoint. It keeps nothing but the endpoint: each poll is one of the
/// endpoint.
#[derive(Drop)]
pub struct NextComplete<'a, T: EndpointType, D: EndpointDirection> {
    /// The endpoint that is polled.
    pub endpoint: &'a mut Endpoint<T, D>,
}

impl<'a, T: EndpointType, D: EndpointDirection> NextComplete<'a, T, D> {
    /// The completion of the endpoint's first pending transfer, which is taken, where it is there.
    pub fn poll<B: Bus>(&mut self, bus: &mut B) -> Poll<Completion>
        requires some { 0 < length self.old.endpoint.now.pending }
        requires stands { Stands (B.calls.state bus.old) self.old.endpoint.now }
        ensures same_endpoint { self.new.endpoint.ghost_name ≡ self.old.endpoint.ghost_name }
        ensures polled { polled B.calls bus.old self.old.endpoint.now
            ≡ front_found (in_poll result) bus.new self.new.endpoint.now }
        ensures goes_on { GoesOn (B.calls.state bus.old) (B.calls.state bus.new) }
        ensures stands { Stands (B.calls.state bus.new) self.new.endpoint.now }
        ensures others { KeepsOthers (B.calls.state bus.old)
            (B.calls.state bus.new) self.old.endpoint.now.key }
        ensures handles { B.handles_stand bus.old bus.new }
        ensures rest { self.new.endpoint.now ≡ record self.old.endpoint.now {
          pending = self.new.endpoint.now.pending;
        } }
    {
        self.endpoint.poll_next_complete(bus)
    }
}

impl<T: EndpointType, D: EndpointDirection> Endpoint<T, D> {
    /// The next completion, to be polled.
    pub fn next_complete(&mut self) -> NextComplete<'_, T, D>
        ensures same_endpoint { result.endpoint.ghost_name ≡ self.entry.ghost_name }
        ensures value { result.endpoint.now ≡ self.old }
    {
        NextComplete { endpoint: self }
    }
}
