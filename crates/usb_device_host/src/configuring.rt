//! Calls on open devices that go down to the kernel.

ghost use Rattle.std.specs.Prelude.{◌≡◌, ◌+◌, ◌<◌, length, slice_get, Ok, Err, IfOk, IfErr, IsSome};
ghost use Rattle.std.specs.Option.{ForSome};
ghost use Rattle.usb_device_tables.specs.History.{value_at};
ghost use Rattle.usb_device_host.specs.HostState.{HostState};
ghost use Rattle.usb_device_host.specs.OnDevices.{detach_tried, host_detached, attach_tried, host_attached, reset_tried, host_reset, set_configuration_tried, host_configured, speed_tried, host_speed_asked, active_of};
ghost use Rattle.usb_device_host.specs.Speeds.{speed_of_code};

use crate::host::Host;
use usb_desc::{ConfigurationDescriptor, find_configuration};
use usb_device_ledger::OpenDevice;
use usb_device_tables::Key;
use usb_enum_sysfs::Speed;
use usb_error::{ActiveConfigurationError, Error};

/// The speed of a code of the kernel.
#[tactic(auto, unfolding(crate::specs::Speeds::speed_of_code))]
fn speed_of(code: u8) -> Option<Speed>
    ensures speed { result ≡ speed_of_code code }
{
    match code {
        1 => Some(Speed::Low),
        2 => Some(Speed::Full),
        3 => Some(Speed::High),
        5 => Some(Speed::Super),
        6 => Some(Speed::SuperPlus),
        _ => None,
    }
}

/// The configuration with the value that an open device keeps.
fn active_in(opened: &OpenDevice) -> Result<ConfigurationDescriptor<'_>, ActiveConfigurationError>
    ensures ok { IfOk result (λ c. active_of opened.now ≡ Ok c) }
    ensures err { IfErr result (λ error. active_of opened.now ≡ Err error) }
{
    let configuration_value = opened.configuration;
    match find_configuration(opened.descriptors.as_slice(), configuration_value) {
        Some(configuration) => Ok(configuration),
        None => Err(ActiveConfigurationError {
            configuration_value,
        }),
    }
}

impl Host {
    /// The number of an open device at the kernel.
    fn number_of(&self, device: Key) -> u8
        requires device { IsSome (value_at self.now.devices device.serial) }
        ensures number { ForSome (value_at self.now.devices device.serial)
            (λ o. result ≡ o.device) }
    {
        self.devices.get(device).device
    }

    /// Detaches the kernel driver of an interface. A refusal that is armed for it is used up.
    ///
    /// # Errors
    ///
    /// `NotFound` where the active configuration does not have the interface, `Other` where no
    /// driver is bound, `Disconnected` where the device is gone, else `Other`.
    pub fn detach(&mut self, device: Key, interface: u8) -> Result<(), Error>
        requires device { IsSome (value_at self.old.devices device.serial) }
        ensures tried { ForSome (value_at self.old.devices device.serial) (λ o.
            result ≡ detach_tried self.old o interface) }
        ensures host { self.new ≡ host_detached self.old device.serial interface }
    {
        let number = self.number_of(device);
        match self.kernel.detach(number, interface) {
            Ok(()) => Ok(()),
            Err(errno) => Err(Error::detach(errno)),
        }
    }

    /// Attaches the kernel driver of an interface. A refusal that is armed for it is used up.
    ///
    /// # Errors
    ///
    /// `NotFound` where the active configuration does not have the interface, `Busy` where a driver
    /// is bound or the interface is claimed, `Disconnected` where the device is gone, else `Other`.
    pub fn attach(&mut self, device: Key, interface: u8) -> Result<(), Error>
        requires device { IsSome (value_at self.old.devices device.serial) }
        ensures tried { ForSome (value_at self.old.devices device.serial) (λ o.
            result ≡ attach_tried self.old o interface) }
        ensures host { self.new ≡ host_attached self.old device.serial interface }
    {
        let number = self.number_of(device);
        match self.kernel.attach(number, interface) {
            Ok(()) => Ok(()),
            Err(errno) => Err(Error::attach(errno)),
        }
    }

    /// Resets an open device, which is gone then: its tickets are finished as by an unplug, and
    /// each later call is refused. The kernel must have a place for it beside those of the steps
    /// that are left. A refusal that is armed for it is used up.
    ///
    /// # Errors
    ///
    /// `Disconnected` where the device is gone, `Busy` and `Other` by the errno of an armed
    /// refusal.
    pub fn reset(&mut self, device: Key) -> Result<(), Error>
        requires device { IsSome (value_at self.old.devices device.serial) }
        requires room { length self.old.steps < self.old.kernel.spare }
        ensures tried { ForSome (value_at self.old.devices device.serial) (λ o.
            result ≡ reset_tried self.old o) }
        ensures host { self.new ≡ host_reset self.old device.serial }
    {
        let number = self.number_of(device);
        match self.kernel.reset(number) {
            Ok(()) => Ok(()),
            Err(errno) => Err(Error::reset(errno)),
        }
    }

    /// Sets the configuration of an open device (USB 2.0, section 9.4.7), which keeps its value
    /// where the kernel does not refuse; 0 stands for none. A refusal that is armed for it is used
    /// up.
    ///
    /// # Errors
    ///
    /// `NotFound` where no configuration has the value, `Busy` where an interface is claimed,
    /// `Disconnected` where the device is gone, else `Other`.
    pub fn set_configuration(&mut self, device: Key, value: u8) -> Result<(), Error>
        requires device { IsSome (value_at self.old.devices device.serial) }
        ensures tried { ForSome (value_at self.old.devices device.serial) (λ o.
            result ≡ set_configuration_tried self.old o value) }
        ensures host { self.new ≡ host_configured self.old device.serial value }
    {
        let number = self.number_of(device);
        if let Err(errno) = self.kernel.set_configuration(number, value) {
            return Err(Error::set_configuration(errno));
        }
        self.devices.set_configuration(device, value);
        Ok(())
    }

    /// The speed at which an open device is connected, where the kernel tells one. That uses up the
    /// refusal that is armed for it.
    pub fn speed(&mut self, device: Key) -> Option<Speed>
        requires device { IsSome (value_at self.old.devices device.serial) }
        ensures tried { ForSome (value_at self.old.devices device.serial) (λ o.
            result ≡ speed_tried self.old o) }
        ensures host { self.new ≡ host_speed_asked self.old device.serial }
    {
        let number = self.number_of(device);
        match self.kernel.speed(number) {
            Ok(code) => speed_of(code),
            Err(_) => None,
        }
    }

    /// The active configuration (USB 2.0, section 9.6.3), by the value that an open device keeps.
    /// The kernel is not asked for it.
    ///
    /// # Errors
    ///
    /// No configuration has the value. For 0 the device is not configured.
    pub fn active_configuration(
        &self,
        device: Key,
    ) -> Result<ConfigurationDescriptor<'_>, ActiveConfigurationError>
        requires device { IsSome (value_at self.now.devices device.serial) }
        ensures ok { IfOk result (λ c. ForSome (value_at self.now.devices device.serial) (λ o.
            active_of o ≡ Ok c)) }
        ensures err { IfErr result (λ error. ForSome (value_at self.now.devices device.serial) (λ o.
            active_of o ≡ Err error)) }
    {
        active_in(self.devices.get(device))
    }
}
