//! Calls on a claimed interface: its alternate setting, and the descriptor of the current one.

ghost use Rattle.std.specs.Prelude.{◌≡◌, ◌++◌, OnOk, string_bytes};
ghost use Rattle.std.specs.Option.{ForSome};
ghost use Rattle.usb_device_tables.specs.History.{value_at};
ghost use Rattle.usb_device_host.specs.HandleStates.{StandsInterface};
ghost use Rattle.usb_session_calls.specs.OpenAt.{interface_with};
ghost use Rattle.usb_session_calls.specs.InterfaceCalls.{interface_called};

use crate::call::InterfaceCall;
use usb_desc::NoMemory;
use usb_device::{Host, Interface};
use usb_session_text::{write_alt_setting, write_interface, write_result};

/// Calls an interface that is claimed.
pub fn call_interface(
    interface: &Interface,
    host: &mut Host,
    line: &mut String,
    call: InterfaceCall,
) -> Result<(), NoMemory>
    requires stands { StandsInterface host.old interface.now }
    ensures host { ForSome (value_at host.old.interfaces interface.now.key) (λ c. host.new
        ≡ (interface_called call host.old (interface_with interface.now c)).host) }
    ensures text { ForSome (value_at host.old.interfaces interface.now.key) (λ c. OnOk result
        (string_bytes line.new ≡ string_bytes line.old
        ++ (interface_called call host.old (interface_with interface.now c)).line)) }
{
    match call {
        InterfaceCall::SetAltSetting(setting) => {
            write_result(line, &interface.set_alt_setting(host, setting))
        }
        InterfaceCall::GetAltSetting => write_alt_setting(line, interface.get_alt_setting(host)),
        InterfaceCall::Descriptor => {
            interface.ask_configuration(host);
            write_interface(line, &interface.descriptor(host))
        }
    }
}
