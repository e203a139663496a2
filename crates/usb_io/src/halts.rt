//! How a reader goes on after the halt of its endpoint.

ghost use Rattle.std.specs.Prelude.{◌≡◌, OnOk, OnErr};
ghost use Rattle.usb_error.specs.Errors.{clear_halt_error};
ghost use Rattle.usb_device_endpoint.specs.CallErrors.{or_error};
ghost use Rattle.usb_device_endpoint.specs.Handles.{Stands, KeepsOthers};
ghost use Rattle.usb_io.specs.Following.{FollowsOn};
ghost use Rattle.usb_io.specs.Readers.{without_error};

use crate::reader::EndpointRead;
use usb_device_endpoint::Bus;
use usb_error::Error;
use usb_xfer::BulkOrInterrupt;

impl<T: BulkOrInterrupt> EndpointRead<T> {
    /// Clears the halt of the endpoint (USB 2.0, section 9.4.1: ENDPOINT_HALT). The error that lasted
    /// is gone then. Unread bytes, an end that stands and what is pending stay. It takes no memory.
    ///
    /// # Errors
    ///
    /// The kernel's refusal. Nothing of the reader has changed.
    pub fn clear_halt<B: Bus>(&mut self, bus: &mut B) -> Result<(), Error>
        requires stands { Stands (B.calls.state bus.old) self.old.endpoint }
        ensures result { result ≡ or_error clear_halt_error
            (B.calls.halt_result bus.old self.old.endpoint.device self.old.endpoint.address) }
        ensures ok { OnOk result (self.new ≡ without_error self.old) }
        ensures err { OnErr result (self.new ≡ self.old) }
        ensures bus { bus.new
            ≡ B.calls.halt_cleared bus.old self.old.endpoint.device self.old.endpoint.address }
        ensures state { B.calls.state bus.new ≡ B.calls.state bus.old }
        ensures stands { Stands (B.calls.state bus.new) self.new.endpoint }
        ensures others { KeepsOthers (B.calls.state bus.old) (B.calls.state bus.new)
            self.old.endpoint.key }
        ensures follows { FollowsOn (B.calls.state bus.old) (B.calls.state bus.new) self.old
            self.new }
        ensures handles { B.handles_stand bus.old bus.new }
    {
        self.endpoint.clear_halt(bus)?;
        self.error = None;
        Ok(())
    }
}
