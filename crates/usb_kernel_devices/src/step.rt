//! The steps of a simulation.

ghost use Rattle.std.specs.Prelude.{◌≡◌, ◌<◌, IfOk};
ghost use Rattle.usb_kernel_devices.specs.Refusals.{call_number};

use crate::bytes::Bytes;
use usb_desc::NoMemory;

/// A call that an armed refusal can be for.
#[derive(Clone, Copy)]
pub enum KernelCall {
    OpenDevice,
    ReadDesc,
    GetConfig,
    SetConfig,
    Reset,
    Claim,
    DetachClaim,
    Detach,
    Attach,
    Alt,
    Halt,
    Speed,
    Submit,
}

/// A refusal that waits for the next call of its kind on its device.
#[derive(Clone, Copy)]
pub struct Armed {
    pub device: u8,
    pub call: KernelCall,
    pub errno: u16,
}

/// A step of the simulation. Devices are named by their numbers and endpoints by their addresses.
#[derive(Clone, Drop)]
pub enum KernelStep {
    /// A packet comes to an IN endpoint.
    Packet {
        device: u8,
        endpoint: u8,
        bytes: Bytes,
    },
    /// An OUT endpoint acknowledges a packet.
    Ack {
        device: u8,
        endpoint: u8,
    },
    /// The next packet of an OUT endpoint is acknowledged, and comes to an IN endpoint.
    Echo {
        device: u8,
        output: u8,
        input: u8,
    },
    /// The oldest unfinished transfer of an endpoint fails with an errno.
    Fail {
        device: u8,
        endpoint: u8,
        errno: u16,
    },
    /// The device is gone.
    Unplug {
        device: u8,
    },
    /// The clock is set, in nanoseconds, where that is later.
    Clock {
        to: u64,
    },
    /// The turn of the timer: the tickets that are not finished and whose deadline is at most the
    /// clock are discarded.
    Timer,
    /// A ticket is reaped, where it is finished and not reaped: the one that is named, or the
    /// lowest such.
    Reap {
        ticket: Option<u64>,
    },
    /// The device's next call of a kind is refused with an errno.
    Refuse {
        device: u8,
        call: KernelCall,
        errno: u16,
    },
}

impl KernelCall {
    /// The number of the call.
    pub(crate) fn number(self) -> u8
        ensures number { result ≡ call_number self }
        ensures small { result < 13 }
    {
        match self {
            KernelCall::OpenDevice => 0,
            KernelCall::ReadDesc => 1,
            KernelCall::GetConfig => 2,
            KernelCall::SetConfig => 3,
            KernelCall::Reset => 4,
            KernelCall::Claim => 5,
            KernelCall::DetachClaim => 6,
            KernelCall::Detach => 7,
            KernelCall::Attach => 8,
            KernelCall::Alt => 9,
            KernelCall::Halt => 10,
            KernelCall::Speed => 11,
            KernelCall::Submit => 12,
        }
    }
}

impl KernelStep {
    /// The same step once more.
    pub fn clone(&self) -> Result<KernelStep, NoMemory>
        ensures copy { IfOk result (λ step. step ≡ self.now) }
    {
        Ok(Clone::clone(self)?)
    }
}
