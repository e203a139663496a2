//! Control transfers that are awaited.

ghost use Rattle.usb_session_calls.specs.Controls.{target_of, control_called};
ghost use Rattle.usb_session_calls.specs.TargetCalls.{DevicesStand, InterfacesStand, KeepsHandles, TargetAnswers, number_of_target};

use crate::call::ControlCall;
use crate::controlling::{control_in_open, control_out_open};
use crate::requesting::{get_descriptor_open, languages_open, string_open};
use usb_desc::NoMemory;
use usb_device::{Device, Host, Interface};

/// Makes a control transfer of a device or of an interface, where it is open.
pub fn call_control(
    devices: &[Option<Device>],
    interfaces: &[Option<Interface>],
    host: &mut Host,
    line: &mut String,
    call: ControlCall,
) -> Result<(), NoMemory>
    requires devices { DevicesStand host.old devices.now }
    requires interfaces { InterfacesStand host.old interfaces.now }
    ensures keeps { KeepsHandles host.old host.new }
    ensures answered { TargetAnswers host.old host.new line.old line.new result
        (λ h n. (control_called call h n).host) (λ h n. (control_called call h n).line)
        (number_of_target host.old devices.now interfaces.now (target_of call)) }
{
    match call {
        ControlCall::In(target, setup, wanted, timeout) => control_in_open(
            devices, interfaces, host, line, target, setup, wanted, timeout,
        ),
        ControlCall::Out(target, setup, bytes, timeout) => control_out_open(
            devices,
            interfaces,
            host,
            line,
            target,
            setup,
            bytes.as_slice(),
            timeout,
        ),
        ControlCall::Descriptor {
            device,
            descriptor_type,
            index,
            language,
            timeout,
        } => get_descriptor_open(
            devices,
            host,
            line,
            device,
            descriptor_type,
            index,
            language,
            timeout,
        ),
        ControlCall::Languages(device, timeout) => {
            languages_open(devices, host, line, device, timeout)
        }
        ControlCall::Text(device, index, language, timeout) => {
            string_open(devices, host, line, device, &index, language, timeout)
        }
    }
}
