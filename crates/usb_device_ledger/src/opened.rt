//! What is kept of an open device.

ghost use Rattle.std.specs.Prelude.{◌≡◌};
ghost use Rattle.usb_device_ledger.specs.Devices.{is_held};

use usb_desc::DeviceDescriptor;
use usb_kernel::Descriptors;

/// An open device: its number at the kernel, the value of the active configuration that the kernel
/// gave last, or that was set since (USB 2.0, sections 9.4.2 and 9.4.7), its device descriptor, all
/// descriptors that it gave, of which that one is the first, how many handles of it are open, and
/// how many interfaces that were claimed on it have an open handle.
#[derive(Drop)]
pub struct OpenDevice {
    pub device: u8,
    pub configuration: u8,
    pub device_descriptor: DeviceDescriptor,
    pub descriptors: Descriptors,
    pub handles: usize,
    pub interfaces: usize,
}

impl OpenDevice {
    /// Whether a handle of it, or of an interface of it, is open.
    pub(crate) fn is_held(&self) -> bool
        ensures held { result ≡ is_held self.now }
    {
        self.handles > 0 || self.interfaces > 0
    }
}
