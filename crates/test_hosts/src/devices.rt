//! The simulated device that tests of kernels, buses, hosts and rows run on.

ghost use Rattle.std.specs.Prelude.{◌≡◌, [], IfOk};

use std::alloc::Global;
use usb_desc::NoMemory;
use usb_kernel::{Bytes, Descriptors, Kernel, SimDevice};

/// The descriptors of a device of one configuration of value 1 with interface 0, which has bulk IN
/// endpoint 0x81 and bulk OUT endpoint 0x02 of packets of 64 bytes.
pub const DEVICE: [u8; 50] = [
    0x12, 0x01, 0x00, 0x02, 0x00, 0x00, 0x00, 0x40, 0xaa, 0xaa, 0xbb, 0xbb, 0x00, 0x01, 0x00, 0x00,
    0x00, 0x01, 0x09, 0x02, 0x20, 0x00, 0x01, 0x01, 0x00, 0x80, 0x32, 0x09, 0x04, 0x00, 0x00, 0x02,
    0xff, 0x00, 0x00, 0x00, 0x07, 0x05, 0x81, 0x02, 0x40, 0x00, 0x00, 0x07, 0x05, 0x02, 0x02, 0x40,
    0x00, 0x00,
];

/// A kernel with device 0, at address 6 of bus 1, with these descriptors. Its configuration is of
/// value 1.
pub fn new_kernel(alloc: Global, descriptors: &[u8]) -> Result<Kernel, NoMemory>
    ensures past { IfOk result (λ kernel. kernel.past ≡ []) }
{
    let device = SimDevice {
        bus: 1,
        address: 6,
        speed: 3,
        config: 1,
        bytes: Descriptors::from_slice(alloc, descriptors)?,
        drivers: Bytes::from_vec(Vec::new(alloc)),
    };
    // the kernel's own is a copy
    match vec![in alloc; (0, device.clone()?)] {
        Ok(devices) => Kernel::new(alloc, devices),
        Err(_) => Err(NoMemory),
    }
}
