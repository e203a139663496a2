//! The calls on a device that are refused by rules of their own.

ghost use Rattle.std.specs.Prelude.{◌≡◌, false, OnOk, OnErr};
ghost use Rattle.std.specs.List.{list_any};
ghost use Rattle.std.specs.Option.{option_map_or};
ghost use Rattle.usb_desc.specs.Configurations.{configurations, alt_settings};
ghost use Rattle.usb_desc.specs.Lookups.{has_value, has_setting};
ghost use Rattle.usb_kernel_devices.specs.Devices.{if_plugged, plugged_device, change_device};
ghost use Rattle.usb_kernel_devices.specs.Claims.{active_configuration, claim_rules, result_by};
ghost use Rattle.usb_kernel_devices.specs.Calls.{set_configuration_rules, detach_and_claim_rules, detach_rules, attach_rules, set_interface_rules};
ghost use Rattle.usb_kernel_devices.specs.DeviceCalls.{kind_of, call_rules, call_change};

use crate::devices::{DeviceState, place_of};
use crate::step::KernelCall;
use usb_desc::{errno, find_configuration};

/// A call on a device that may be refused by rules of its own. Where it is not, it changes what the
/// kernel keeps of the device.
#[derive(Clone, Copy)]
pub enum DeviceCall {
    SetConfiguration { value: u8 },
    Claim { interface: u8 },
    DetachAndClaim { interface: u8 },
    Detach { interface: u8 },
    Attach { interface: u8 },
    SetInterface { interface: u8, setting: u8 },
}

impl DeviceCall {
    /// The kind of call for which refusals of it are armed.
    pub fn kind(self) -> KernelCall
        ensures kind { result ≡ kind_of self }
    {
        match self {
            DeviceCall::SetConfiguration { .. } => KernelCall::SetConfig,
            DeviceCall::Claim { .. } => KernelCall::Claim,
            DeviceCall::DetachAndClaim { .. } => KernelCall::DetachClaim,
            DeviceCall::Detach { .. } => KernelCall::Detach,
            DeviceCall::Attach { .. } => KernelCall::Attach,
            DeviceCall::SetInterface { .. } => KernelCall::Alt,
        }
    }
}

impl DeviceState {
    /// Whether it has a configuration with this value.
    fn has_configuration(&self, value: u8) -> bool
        ensures has { result ≡ list_any (has_value value) (configurations self.now.bytes) }
    {
        find_configuration(self.bytes.as_slice(), value).is_some()
    }

    /// The errno with which a configuration is refused: it has none of this value, or an interface
    /// is claimed. The value 0 stands for no configuration (USB 2.0, 9.4.7).
    fn configuration_refusal(&self, value: u8) -> Option<u16>
        ensures errno { result ≡ set_configuration_rules value self.now }
    {
        if value != 0 && !self.has_configuration(value) {
            return Some(errno::INVAL);
        }
        if self.claimed.is_empty() {
            return None;
        }
        Some(errno::BUSY)
    }

    /// The errno with which a claim is refused.
    fn claim_refusal(&self, interface: u8) -> Option<u16>
        ensures errno { result ≡ claim_rules interface self.now }
    {
        if !self.has_interface(interface) {
            return Some(errno::NOENT);
        }
        if self.claimed.contains(interface) || self.bound.contains(interface) {
            return Some(errno::BUSY);
        }
        None
    }

    /// The errno with which a claim that detaches the driver is refused.
    fn detach_and_claim_refusal(&self, interface: u8) -> Option<u16>
        ensures errno { result ≡ detach_and_claim_rules interface self.now }
    {
        if !self.has_interface(interface) {
            return Some(errno::NOENT);
        }
        if self.claimed.contains(interface) {
            return Some(errno::BUSY);
        }
        None
    }

    /// The errno with which a detaching of the driver is refused.
    fn detach_refusal(&self, interface: u8) -> Option<u16>
        ensures errno { result ≡ detach_rules interface self.now }
    {
        if !self.has_interface(interface) {
            return Some(errno::INVAL);
        }
        if self.bound.contains(interface) {
            return None;
        }
        Some(errno::NODATA)
    }

    /// The errno with which an attaching of the driver is refused.
    fn attach_refusal(&self, interface: u8) -> Option<u16>
        ensures errno { result ≡ attach_rules interface self.now }
    {
        if !self.has_interface(interface) {
            return Some(errno::INVAL);
        }
        if self.bound.contains(interface) || self.claimed.contains(interface) {
            return Some(errno::BUSY);
        }
        None
    }

    /// Whether its active configuration has this setting of an interface.
    fn has_setting(&self, interface: u8, setting: u8) -> bool
        ensures has { result ≡ option_map_or
            (λ c. list_any (has_setting interface setting) (alt_settings c))
            (active_configuration self.now) false }
    {
        match find_configuration(self.bytes.as_slice(), self.configuration) {
            Some(configuration) => configuration.find_alt_setting(interface, setting).is_some(),
            None => false,
        }
    }

    /// The errno with which a setting is refused.
    fn setting_refusal(&self, interface: u8, setting: u8) -> Option<u16>
        ensures errno { result ≡ set_interface_rules interface setting self.now }
    {
        if self.has_setting(interface, setting) {
            None
        } else {
            Some(errno::INVAL)
        }
    }

    /// The errno with which a call is refused while it is plugged.
    fn refusal(&self, call: DeviceCall) -> Option<u16>
        ensures errno { result ≡ call_rules call self.now }
    {
        match call {
            DeviceCall::SetConfiguration { value } => self.configuration_refusal(value),
            DeviceCall::Claim { interface } => self.claim_refusal(interface),
            DeviceCall::DetachAndClaim { interface } => self.detach_and_claim_refusal(interface),
            DeviceCall::Detach { interface } => self.detach_refusal(interface),
            DeviceCall::Attach { interface } => self.attach_refusal(interface),
            DeviceCall::SetInterface { interface, setting } => {
                self.setting_refusal(interface, setting)
            }
        }
    }

    /// What a call makes of it.
    fn change(&mut self, call: DeviceCall)
        ensures device { self.new ≡ call_change call self.old }
    {
        match call {
            DeviceCall::SetConfiguration { value } => self.configuration = value,
            DeviceCall::Claim { interface } => self.claimed.insert(interface),
            DeviceCall::DetachAndClaim { interface } => {
                self.claimed.insert(interface);
                self.bound.remove(interface);
            }
            DeviceCall::Detach { interface } => self.bound.remove(interface),
            DeviceCall::Attach { interface } => self.bound.insert(interface),
            DeviceCall::SetInterface { .. } => {}
        }
    }

    /// Answers a call.
    fn answer(&mut self, call: DeviceCall) -> Result<(), u16>
        ensures result { result ≡ result_by (call_rules call) (if_plugged self.old) }
        ensures ok { OnOk result (self.new ≡ call_change call self.old) }
        ensures err { OnErr result (self.new ≡ self.old) }
    {
        if !self.plugged {
            return Err(errno::NODEV);
        }
        if let Some(errno) = self.refusal(call) {
            return Err(errno);
        }
        self.change(call);
        Ok(())
    }
}

/// The device of a number answers a call.
pub fn answer(devices: &mut Vec<DeviceState>, number: u8, call: DeviceCall) -> Result<(), u16>
    ensures result { result
        ≡ result_by (call_rules call) (plugged_device devices.old.items number) }
    ensures ok { OnOk result
        (devices.new.items ≡ change_device (call_change call) number devices.old.items) }
    ensures err { OnErr result (devices.new.items ≡ devices.old.items) }
{
    let Some(at) = place_of(devices, number) else {
        return Err(errno::NODEV);
    };
    let device = &mut devices[at];
    device.answer(call)
}
