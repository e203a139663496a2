//! Opening a device that was found.

ghost use Rattle.std.specs.Prelude.{IfOk};
ghost use Rattle.usb_device_host.specs.CallErrors.{Leaves};
ghost use Rattle.usb_device_host.specs.HandleStates.{StandsDevice};
ghost use Rattle.usb_device_host.specs.Opens.{host_opened, open_key};
ghost use Rattle.usb_device.specs.KeptHandles.{HandlesStand};
ghost use Rattle.usb_error.specs.Outcomes.{Tried};

use crate::device::DeviceInfo;
use usb_desc::Fail;
use usb_device::{Device, Host};
use usb_error::Error;

impl DeviceInfo {
    /// Opens the device that is plugged at its bus and its address, as `Device::open_at` does.
    pub fn open(&self, host: &mut Host) -> Result<Device, Fail<Error>>
        ensures tried { Tried result
            (open_key host.old self.now.numbers.busnum self.now.numbers.address) }
        ensures host { Leaves result host.new
            (host_opened host.old self.now.numbers.busnum self.now.numbers.address) host.old }
        ensures stands { IfOk result (StandsDevice host.new) }
        ensures handles { HandlesStand host.old host.new }
    {
        Device::open_at(host, self.busnum(), self.device_address())
    }
}
