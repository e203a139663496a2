//! The events of a journal.

ghost use Rattle.std.specs.Prelude.{◌≡◌, IfOk};

use usb_desc::NoMemory;
use usb_kernel_devices::Bytes;

/// What a submission sends (OUT), or how many bytes it wants (IN).
#[derive(Clone, Drop)]
pub enum Body {
    Wanted(usize),
    Sent(Bytes),
}

impl Body {
    /// The same once more, with bytes of its own.
    pub fn clone(&self) -> Result<Body, NoMemory>
        ensures same { IfOk result (λ copy. copy ≡ self.now) }
    {
        Ok(Clone::clone(self)?)
    }
}

/// An event of the journal. Devices are named by their numbers and endpoints by their addresses.
#[derive(Clone, Drop)]
pub enum Event {
    /// A submission became a ticket. The capacity is that of the submitted buffer.
    Submit {
        ticket: u64,
        device: u8,
        endpoint: u8,
        maximum: usize,
        body: Body,
        capacity: usize,
        deadline: Option<u64>,
    },
    /// A submission became a ticket that is refused with an errno.
    Refuse {
        ticket: u64,
        device: u8,
        endpoint: u8,
        maximum: usize,
        body: Body,
        capacity: usize,
        errno: u16,
    },
    /// A packet came to an IN endpoint.
    Packet {
        device: u8,
        endpoint: u8,
        bytes: Bytes,
    },
    /// An OUT endpoint acknowledged a packet.
    Ack {
        device: u8,
        endpoint: u8,
    },
    /// An OUT endpoint acknowledged a packet, which came to an IN endpoint.
    Echo {
        device: u8,
        output: u8,
        input: u8,
    },
    /// The oldest unfinished transfer of an endpoint failed with an errno.
    Fail {
        device: u8,
        endpoint: u8,
        errno: u16,
    },
    Discard {
        ticket: u64,
    },
    Reap {
        ticket: u64,
    },
    /// The device is gone.
    Unplug {
        device: u8,
    },
}

impl Event {
    /// The same event once more, with bytes of its own.
    pub fn clone(&self) -> Result<Event, NoMemory>
        ensures same { IfOk result (λ copy. copy ≡ self.now) }
    {
        Ok(Clone::clone(self)?)
    }
}
