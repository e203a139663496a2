//! Calls on an open device: what it told of itself, its configuration, its speed, a reset, and the kernel drivers of
//! its interfaces.

ghost use Rattle.std.specs.Prelude.{◌≡◌, ◌≤◌, ◌+◌, ◌++◌, OnOk, length, string_bytes};
ghost use Rattle.std.specs.Option.{ForSome};
ghost use Rattle.usb_device_tables.specs.History.{value_at};
ghost use Rattle.usb_device_host.specs.HandleStates.{StandsDevice};
ghost use Rattle.usb_device_host.specs.OnDevices.{active_of};
ghost use Rattle.usb_session_calls.specs.OpenAt.{device_with};
ghost use Rattle.usb_session_calls.specs.DeviceCalls.{active_line, device_called, device_places};

use crate::call::DeviceCall;
use usb_desc::NoMemory;
use usb_device::{Device, Host};
use usb_session_text::{
    write_configuration, write_descriptors, write_device, write_no_configuration, write_result,
    write_speed,
};

/// Appends the value of the configuration that an open device keeps, or why there is none.
fn write_active(line: &mut String, device: &Device, host: &Host) -> Result<(), NoMemory>
    requires stands { StandsDevice host.now device.now }
    ensures text { ForSome (value_at host.now.devices device.now) (λ o. OnOk result
        (string_bytes line.new ≡ string_bytes line.old ++ active_line (active_of o))) }
{
    match device.active_configuration(host) {
        Ok(configuration) => write_configuration(line, configuration.configuration_value()),
        Err(error) => write_no_configuration(line, &error),
    }
}

/// Calls a device that is open. For a reset the kernel must have a place beside those of the steps that are left.
pub fn call_device(
    device: &Device,
    host: &mut Host,
    line: &mut String,
    call: DeviceCall,
) -> Result<(), NoMemory>
    requires stands { StandsDevice host.old device.now }
    requires room { length host.old.steps + device_places call ≤ host.old.kernel.spare }
    ensures host { ForSome (value_at host.old.devices device.now) (λ o. host.new
        ≡ (device_called call host.old (device_with device.now o)).host) }
    ensures text { ForSome (value_at host.old.devices device.now) (λ o. OnOk result
        (string_bytes line.new ≡ string_bytes line.old
        ++ (device_called call host.old (device_with device.now o)).line)) }
{
    match call {
        DeviceCall::Descriptor => write_device(line, device.device_descriptor(host)),
        DeviceCall::Descriptors => write_descriptors(line, device.descriptors(host)),
        DeviceCall::ActiveConfiguration => {
            device.ask_configuration(host);
            write_active(line, device, host)
        }
        DeviceCall::Speed => write_speed(line, device.speed(host)),
        DeviceCall::SetConfiguration(value) => {
            write_result(line, &device.set_configuration(host, value))
        }
        DeviceCall::Reset => write_result(line, &device.reset(host)),
        DeviceCall::DetachDriver(number) => {
            write_result(line, &device.detach_kernel_driver(host, number))
        }
        DeviceCall::AttachDriver(number) => {
            write_result(line, &device.attach_kernel_driver(host, number))
        }
    }
}
