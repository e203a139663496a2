//! Where transfers go, and what a turn of a bus does.

ghost use Rattle.std.specs.Prelude.{◌≡◌};
ghost use Rattle.usb_device_endpoint.specs.Routes.{submission_of};

use usb_desc::TransferType;
use usb_kernel::Submission;
use usb_xfer::Buffer;

/// Where a transfer goes: the device's number at the kernel, the address of the endpoint (USB 2.0,
/// table 9-13, `bEndpointAddress`) with its type and maximum packet size in bytes, and the key of
/// the open endpoint that asks.
#[derive(Clone, Copy, Debug)]
pub struct Route {
    pub device: u8,
    pub endpoint: u8,
    pub kind: TransferType,
    pub maximum: usize,
    pub key: usize,
}

impl Route {
    /// A buffer as it is submitted by this route: with no setup packet, and with a deadline in
    /// nanoseconds of the clock or none.
    pub fn submission(self, deadline: Option<u64>, buffer: Buffer) -> Submission
        ensures submission { result ≡ submission_of self deadline buffer }
    {
        Submission {
            device: self.device,
            endpoint: self.endpoint,
            kind: self.kind,
            maximum: self.maximum,
            deadline,
            setup: None,
            buffer,
        }
    }
}

/// What a turn of a bus did.
#[derive(Clone, Copy, Debug, PartialEq, Eq)]
pub enum Turn {
    /// It took a step of the simulation, which may be a reap.
    Stepped,
    /// With no step left it reaped the lowest ticket that waited.
    Reaped,
    /// There was nothing to do, and no ticket was finished and unreaped.
    TimeUp,
}
