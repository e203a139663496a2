//! Steps of device 0, which tests of kernels, buses and rows apply.

ghost use Rattle.std.specs.Prelude.{IfOk};
ghost use Rattle.usb_kernel.specs.Steps.{HasErrno};

use std::alloc::Global;
use usb_desc::NoMemory;
use usb_kernel::{Bytes, KernelCall, KernelStep};

/// A packet, which comes to endpoint 0x81.
pub fn packet(alloc: Global, bytes: &[u8]) -> Result<KernelStep, NoMemory>
    ensures errno { IfOk result HasErrno }
{
    Ok(KernelStep::Packet {
        device: 0,
        endpoint: 0x81,
        bytes: Bytes::from_slice(alloc, bytes)?,
    })
}

/// Endpoint 0x02 acknowledges a packet.
pub const ACK: KernelStep = KernelStep::Ack {
    device: 0,
    endpoint: 0x02,
};

/// The oldest transfer of endpoint 0x81 stalls.
pub const INPUT_STALL: KernelStep = KernelStep::Fail {
    device: 0,
    endpoint: 0x81,
    errno: 32,
};

/// The oldest transfer of endpoint 0x02 stalls.
pub const OUTPUT_STALL: KernelStep = KernelStep::Fail {
    device: 0,
    endpoint: 0x02,
    errno: 32,
};

/// The next clear of a halt of device 0 is refused.
pub const HALT_REFUSAL: KernelStep = KernelStep::Refuse {
    device: 0,
    call: KernelCall::Halt,
    errno: 71,
};
