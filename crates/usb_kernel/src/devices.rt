//! Calls on devices.

ghost use Rattle.std.specs.Prelude.{◌≡◌, ◌*◌, ◌<◌, ◌≤◌, Some, IfOk, IfErr};
ghost use Rattle.usb_kernel_devices.specs.Refusals.{armed_errno, disarmed, call_refusal, armed_left};
ghost use Rattle.usb_kernel_devices.specs.Claims.{ok_unless, claim_rules, with_claim, no_rules, release_result, after_release};
ghost use Rattle.usb_kernel_devices.specs.Calls.{same, set_configuration_rules, with_configuration, detach_and_claim_rules, with_claimed_only, detach_rules, without_driver, attach_rules, with_driver, set_interface_rules};
ghost use Rattle.usb_kernel.specs.Calls.{errno_of, asked, called, open_answer, after_open, after_reset};
ghost use Rattle.usb_kernel.specs.DeviceCalls.{call_errno, after_call};
ghost use Rattle.std.specs.Borrow.{sem};
ghost use Rattle.std.specs.Io.BufRead.{Rests};
ghost use Rattle.usb_kernel.specs.contracts.kernel.Kernel.{the_row};

use crate::errno;
use crate::kernel::Kernel;
use crate::once::unplug_with;
use std::marker::Brand;
use std::sync::ledger::Blank;
use usb_kernel_devices::{
    Descriptors, DeviceCall, KernelCall, answer, number_at, plugged, release_interface,
};

impl Kernel {
    /// The number of the first plugged device at an address of a bus. The errno is 2 where there is
    /// none, and else that of an armed refusal.
    pub fn open(&mut self, bus: u8, address: u8) -> Result<u8, u16>
        ensures number { result ≡ open_answer self.old bus address }
        ensures rest { self.new ≡ after_open self.old bus address }
    {
        let Some(device) = number_at(&self.devices, bus, address) else {
            return Err(errno::NOENT);
        };
        match self.armed_refusal(device, KernelCall::OpenDevice) {
            Some(errno) => Err(errno),
            None => Ok(device),
        }
    }

    /// The descriptors of a device. The errno is 19 where no plugged device has the number, and
    /// else that of an armed refusal.
    pub fn read_descriptors(&mut self, device: u8) -> Result<&Descriptors, u16>
        ensures bytes { IfOk result (λ bytes.
            asked self.old device KernelCall.ReadDesc no_rules (λ d. d.bytes) ≡ Ok bytes.now) }
        ensures err { IfErr result (λ errno.
            asked self.old device KernelCall.ReadDesc no_rules (λ d. d.bytes) ≡ Err errno) }
        ensures* rest { sem 𝓛 (Rests the_row self.entry
            (λ kernel. kernel ≡ called self.old device KernelCall.ReadDesc no_rules same)) }
    {
        if let Some(errno) = self.refusal(device, KernelCall::ReadDesc) {
            return Err(errno);
        }
        match plugged(&self.devices, device) {
            Some(device) => Ok(&device.bytes),
            None => Err(errno::NODEV),
        }
    }

    /// Ends the claim of an interface, on an unplugged device too. The answer is errno 19 there.
    pub fn release(&mut self, device: u8, interface: u8) -> Result<(), u16>
        ensures result { result ≡ release_result self.old.devices device }
        ensures devices { self.new.devices ≡ after_release self.old.devices device interface }
        ensures rest { self.new ≡ record self.old { devices = self.new.devices } }
    {
        release_interface(&mut self.devices, device, interface)
    }

    /// The value of a device's active configuration. The errno is 19 where no plugged device has
    /// the number, and else that of an armed refusal.
    pub fn configuration(&mut self, device: u8) -> Result<u8, u16>
        ensures value { result
            ≡ asked self.old device KernelCall.GetConfig no_rules (λ d. d.configuration) }
        ensures rest { self.new ≡ called self.old device KernelCall.GetConfig no_rules same }
    {
        if let Some(errno) = self.refusal(device, KernelCall::GetConfig) {
            return Err(errno);
        }
        match plugged(&self.devices, device) {
            Some(device) => Ok(device.configuration),
            None => Err(errno::NODEV),
        }
    }

    /// Clears the halt of an endpoint. The errno is 19 where no plugged device has the number, and
    /// else that of an armed refusal. No halt is kept.
    pub fn clear_halt(&mut self, device: u8, _endpoint: u8) -> Result<(), u16>
        ensures result { result ≡ ok_unless (errno_of self.old device KernelCall.Halt no_rules) }
        ensures rest { self.new ≡ called self.old device KernelCall.Halt no_rules same }
    {
        match self.refusal(device, KernelCall::Halt) {
            Some(errno) => Err(errno),
            None => Ok(()),
        }
    }

    /// The errno of the first refusal that is armed for a call, which is used up.
    fn armed_refusal(&mut self, device: u8, call: KernelCall) -> Option<u16>
        ensures errno { result ≡ armed_errno self.old.armed device call }
        ensures armed { self.new ≡ record self.old
            { armed = disarmed self.old.armed device call } }
    {
        let errno = self.armed.errno(device, call);
        self.armed.disarm(device, call);
        errno
    }

    /// The errno of a call that comes before its rules: 19 where no plugged device has the number,
    /// else that of the first refusal that is armed for it, which is used up.
    fn refusal(&mut self, device: u8, call: KernelCall) -> Option<u16>
        ensures errno { result ≡ call_refusal self.old.devices self.old.armed device call }
        ensures armed { self.new ≡ record self.old
            { armed = armed_left self.old.devices self.old.armed device call } }
    {
        if plugged(&self.devices, device).is_none() {
            return Some(errno::NODEV);
        }
        self.armed_refusal(device, call)
    }

    /// A call with rules of its own.
    fn call(&mut self, device: u8, call: DeviceCall) -> Result<(), u16>
        ensures result { result ≡ ok_unless (call_errno self.old device call) }
        ensures rest { self.new ≡ after_call self.old device call }
    {
        if let Some(errno) = self.refusal(device, call.kind()) {
            return Err(errno);
        }
        answer(&mut self.devices, device, call)
    }

    /// Sets the configuration of a device. The errno is 19 where no plugged device has the number,
    /// that of an armed refusal, 22 where no configuration has the value, 0 being allowed, and 16
    /// where an interface is claimed.
    pub fn set_configuration(&mut self, device: u8, value: u8) -> Result<(), u16>
        ensures result { result ≡ ok_unless
            (errno_of self.old device KernelCall.SetConfig (set_configuration_rules value)) }
        ensures rest { self.new ≡ called self.old device KernelCall.SetConfig
            (set_configuration_rules value) (with_configuration value) }
    {
        self.call(device, DeviceCall::SetConfiguration { value })
    }

    /// Claims an interface. The errno is 19 where no plugged device has the number, that of an
    /// armed refusal, 2 where its active configuration does not have the interface, and 16 where
    /// the interface is claimed or has a kernel driver.
    pub fn claim(&mut self, device: u8, interface: u8) -> Result<(), u16>
        ensures result { result ≡ ok_unless
            (errno_of self.old device KernelCall.Claim (claim_rules interface)) }
        ensures rest { self.new ≡ called self.old device KernelCall.Claim
            (claim_rules interface) (with_claim interface) }
    {
        self.call(device, DeviceCall::Claim { interface })
    }

    /// Resets a device, which is then gone, and its tickets are finished. The errno is 19 where no
    /// plugged device has the number, and else that of an armed refusal. A reset that is not
    /// refused uses one place of `spare`.
    pub fn reset(&mut self, device: u8) -> Result<(), u16>
        requires spare { 1 ≤ self.old.spare }
        ensures result { result ≡ ok_unless (errno_of self.old device KernelCall.Reset no_rules) }
        ensures rest { self.new ≡ after_reset self.old device }
    {
        if let Some(errno) = self.refusal(device, KernelCall::Reset) {
            return Err(errno);
        }
        unplug_with::<Brand>(self, device, Blank::new(1));
        Ok(())
    }

    /// Claims an interface and detaches its kernel driver. The errno is 19 where no plugged device
    /// has the number, that of an armed refusal, 2 where its active configuration does not have the
    /// interface, and 16 where the interface is claimed.
    pub fn detach_and_claim(&mut self, device: u8, interface: u8) -> Result<(), u16>
        ensures result { result ≡ ok_unless
            (errno_of self.old device KernelCall.DetachClaim (detach_and_claim_rules interface)) }
        ensures rest { self.new ≡ called self.old device KernelCall.DetachClaim
            (detach_and_claim_rules interface) (with_claimed_only interface) }
    {
        self.call(device, DeviceCall::DetachAndClaim { interface })
    }

    /// Detaches the kernel driver of an interface. The errno is 19 where no plugged device has the
    /// number, that of an armed refusal, 22 where its active configuration does not have the
    /// interface, and 61 where no driver is bound.
    pub fn detach(&mut self, device: u8, interface: u8) -> Result<(), u16>
        ensures result { result ≡ ok_unless
            (errno_of self.old device KernelCall.Detach (detach_rules interface)) }
        ensures rest { self.new ≡ called self.old device KernelCall.Detach
            (detach_rules interface) (without_driver interface) }
    {
        self.call(device, DeviceCall::Detach { interface })
    }

    /// Attaches the kernel driver of an interface. The errno is 19 where no plugged device has the
    /// number, that of an armed refusal, 22 where its active configuration does not have the
    /// interface, and 16 where a driver is bound or the interface is claimed.
    pub fn attach(&mut self, device: u8, interface: u8) -> Result<(), u16>
        ensures result { result ≡ ok_unless
            (errno_of self.old device KernelCall.Attach (attach_rules interface)) }
        ensures rest { self.new ≡ called self.old device KernelCall.Attach
            (attach_rules interface) (with_driver interface) }
    {
        self.call(device, DeviceCall::Attach { interface })
    }

    /// Selects a setting of an interface. The errno is 19 where no plugged device has the number,
    /// that of an armed refusal, and 22 where its active configuration has no such setting. The
    /// kernel does not keep the setting.
    pub fn set_interface(&mut self, device: u8, interface: u8, setting: u8) -> Result<(), u16>
        ensures result { result ≡ ok_unless
            (errno_of self.old device KernelCall.Alt (set_interface_rules interface setting)) }
        ensures rest { self.new
            ≡ called self.old device KernelCall.Alt (set_interface_rules interface setting) same }
    {
        self.call(device, DeviceCall::SetInterface { interface, setting })
    }

    /// The code of a device's speed. The errno is 19 where no plugged device has the number, and
    /// else that of an armed refusal.
    pub fn speed(&mut self, device: u8) -> Result<u8, u16>
        ensures speed { result
            ≡ asked self.old device KernelCall.Speed no_rules (λ d. d.speed) }
        ensures rest { self.new ≡ called self.old device KernelCall.Speed no_rules same }
    {
        if let Some(errno) = self.refusal(device, KernelCall::Speed) {
            return Err(errno);
        }
        match plugged(&self.devices, device) {
            Some(device) => Ok(device.speed),
            None => Err(errno::NODEV),
        }
    }
}
