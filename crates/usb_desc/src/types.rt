//! Directions and types of endpoints.

ghost use Rattle.std.specs.Prelude.{◌≡◌};
ghost use Rattle.usb_desc.specs.Fields.{direction_of_address};

/// Which way data go: from the host or to it. USB 2.0, table 9-13, bit 7 of `bEndpointAddress`.
#[derive(Clone, Copy, Debug, PartialEq, Eq)]
pub enum Direction {
    /// From the host to the device.
    Out = 0,
    /// From the device to the host.
    In = 128,
}

impl Direction {
    /// The direction of an endpoint's address.
    pub fn from_address(address: u8) -> Direction
        ensures { result ≡ direction_of_address address }
    {
        if address < 128 {
            Direction::Out
        } else {
            Direction::In
        }
    }
}

/// How an endpoint transfers data. USB 2.0, table 9-13, bits 0 and 1 of `bmAttributes`.
#[derive(Clone, Copy, Debug, PartialEq, Eq)]
pub enum TransferType {
    Control = 0,
    Isochronous = 1,
    Bulk = 2,
    Interrupt = 3,
}
