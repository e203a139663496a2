//! The bus over a kernel alone.

use crate::endpoints::{Case, expect};
use std::test::Fail;
use usb_device_endpoint::{Bus, KernelBus};

/// Whether the bus is idle up to a time, and its clock shows another then.
fn is_idle(bus: &mut KernelBus, until: u64, now: u64) -> bool {
    bus.idle(until);
    bus.now() == now
}

pub fn is_right_bus(bus: &mut KernelBus) -> bool {
    is_idle(bus, 5, 5)
        && is_idle(bus, 3, 5)
        && is_idle(bus, 9, 9)
        && bus.clear_halt(0, 0x81).is_ok()
        && bus.clear_halt(9, 0x81) == Err(19)
        && bus.kernel().tickets() == 0
}

#[test]
fn the_clock_is_raised_and_halts_are_cleared(rt: HostRuntime) -> Result<(), Fail> {
    expect(&rt, rt.alloc(), &Case::Bus)
}
