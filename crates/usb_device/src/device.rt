//! Handles of open devices and of claimed interfaces.

ghost use Rattle.std.specs.Prelude.{◌≡◌, IsOk, ◌+◌, ◌-◌, ◌^◌, ◌<◌, length, true, false, Some, Ok, Err, IfOk, IfErr, OnOk, OnErr};
ghost use Rattle.std.specs.Option.{ForSome, option_copied};
ghost use Rattle.usb_desc.specs.Configurations as spec;
ghost use Rattle.usb_desc.specs.Fields.{direction_of_address};
ghost use Rattle.usb_device_host.specs.HostState.{HostState};
ghost use Rattle.usb_device.specs.HandleCalls.{ClaimsInterface, ClaimsAndCloses, OpensAndCloses, ReleasesInterface};
ghost use Rattle.usb_device_host.specs.HandleStates.{StandsDevice, StandsInterface};
ghost use Rattle.usb_device.specs.KeptHandles.{HandlesStand, StandBesideDevice, StandBesideInterface};
ghost use Rattle.usb_device_endpoint.specs.Handles.{Stands, KeepsOthers};
ghost use Rattle.usb_device_host.specs.HostBus.{bus_of};
ghost use Rattle.usb_device_host.specs.EndpointOpens.{OpensEndpoint, host_asked};
ghost use Rattle.usb_device_host.specs.Handles.{device_cloned, device_closed, handle_cloned, handle_closed};
ghost use Rattle.usb_device_host.specs.OnDevices.{detach_tried, host_detached, attach_tried, host_attached, reset_tried, host_reset, set_configuration_tried, host_configured, speed_tried, host_speed_asked, active_of};
ghost use Rattle.usb_device_host.specs.OnInterfaces.{alt_setting_tried, alt_setting_set, current_setting, all_settings};
ghost use Rattle.usb_device_host.specs.Opens.{host_opened, open_key};
ghost use Rattle.usb_device_host.specs.CallErrors.{Leaves};
ghost use Rattle.usb_device.specs.OwnKeys.{IsOwnDevice, IsOwnInterface, IsOwnEndpoint};
ghost use Rattle.usb_error.specs.Outcomes.{Tried};
ghost use Rattle.usb_device_tables.specs.History.{value_at};

use std::fmt;
use std::marker::Model;
use usb_desc::{
    ConfigurationDescriptor, Configurations, DeviceDescriptor, Fail, InterfaceDescriptor, NoMemory,
};
use usb_device_endpoint::Endpoint;
use usb_device_host::{AltSettingsOf, Host};
use usb_device_tables::Key;
use usb_enum_sysfs::Speed;
use usb_error::{ActiveConfigurationError, Error};
use usb_xfer::{KnownDirection, KnownType};

/// A handle of a device that is open at a host. `close` spends it.
///
/// ```
/// let device = Device::open_at(host, 1, 6)?;
/// let vendor = device.device_descriptor(host).vendor_id();
/// device.close(host);
/// ```
pub struct Device {
    key: Key,
}

impl Model for Device {
    ghost use Rattle.std.specs.Prelude.{ℕ};

    ghost Value = { ℕ };

    ghost view = { λ device. device.key.serial };
}

impl fmt::Debug for Device {
    fn fmt<W: fmt::Write>(&self, f: &mut fmt::Formatter<W>) -> fmt::Result {
        f.debug_struct("Device").finish()
    }
}

/// A handle of an interface that is claimed at a host (USB 2.0, section 9.2.3). `close` spends it.
///
/// ```
/// let device = Device::open_at(host, 1, 6)?;
/// let interface = device.into_interface(host, 0)?;
/// let selected = interface.set_alt_setting(host, 1);
/// interface.close(host);
/// ```
pub struct Interface {
    key: Key,
    number: u8,
}

impl Model for Interface {
    ghost use Rattle.usb_device_host.specs.HandleStates.{InterfaceState};

    ghost Value = { InterfaceState };

    ghost view = { λ i. record { key = i.key.serial; number = i.number } };
}

impl fmt::Debug for Interface {
    fn fmt<W: fmt::Write>(&self, f: &mut fmt::Formatter<W>) -> fmt::Result {
        f.debug_struct("Interface")
            .field("number", &self.number)
            .finish()
    }
}

impl Device {
    /// Opens the first plugged device at an address of a bus. The kernel opens it, then gives its
    /// descriptors, of which the first must be a device descriptor (USB 2.0, section 9.6.1), and
    /// then its active configuration. What is refused first is the error, and nothing is asked
    /// behind it. Each of the three that is asked uses up the refusal that is armed for it. Where
    /// memory is wanting nothing has changed.
    pub fn open_at(host: &mut Host, bus: u8, address: u8) -> Result<Device, Fail<Error>>
        ensures tried { Tried result (open_key host.old bus address) }
        ensures host { Leaves result host.new (host_opened host.old bus address) host.old }
        ensures stands { IfOk result (StandsDevice host.new) }
        ensures apart { IfOk result (IsOwnDevice host.old) }
        ensures handles { HandlesStand host.old host.new }
    {
        match host.open_device(bus, address) {
            Ok(key) => Ok(Device { key }),
            Err(error) => Err(error),
        }
    }

    /// One more handle of the open device. They share the value of the active configuration. It
    /// takes no memory: want of memory is the answer only where the count of its handles is at its
    /// end.
    pub fn clone_on(&self, host: &mut Host) -> Result<Device, NoMemory>
        requires stands { StandsDevice host.old self.now }
        ensures handle { IfOk result (λ device. device ≡ self.now) }
        ensures ok { OnOk result (host.new ≡ device_cloned host.old self.now) }
        ensures err { OnErr result (host.new ≡ host.old) }
        ensures full { OnErr result (ForSome (value_at host.old.devices self.now) (λ o.
            o.handles ≡ 2 ^ 64 - 1)) }
        ensures stands { StandsDevice host.new self.now }
        ensures handles { HandlesStand host.old host.new }
    {
        host.clone_device(self.key)?;
        Ok(Device { key: self.key })
    }

    /// Closes the handle. Where no handle of the open device and none of an interface of it is left,
    /// what the host keeps of it goes. The kernel isn't told: it keeps nothing of who opened a
    /// device.
    pub fn close(self, host: &mut Host)
        requires stands { StandsDevice host.old self }
        ensures closed { host.new ≡ device_closed host.old self }
        ensures handles { StandBesideDevice host.old host.new self }
    {
        let Device { key } = self;
        host.close_device(key);
    }

    /// Its number at the kernel.
    pub(crate) fn device_number(&self, host: &Host) -> u8
        requires stands { StandsDevice host.now self.now }
        ensures number { ForSome (value_at host.now.devices self.now) (λ o. result ≡ o.device) }
    {
        host.device_number(self.key)
    }

    /// Its device descriptor.
    pub fn device_descriptor<'h>(&self, host: &'h Host) -> &'h DeviceDescriptor
        requires stands { StandsDevice host.now self.now }
        ensures descriptor { ForSome (value_at host.now.devices self.now) (λ o.
            result.now ≡ o.device_descriptor) }
    {
        host.device_descriptor(self.key)
    }

    /// All descriptors that it gave, of which the first is the device descriptor.
    pub fn descriptors<'h>(&self, host: &'h Host) -> &'h [u8]
        requires stands { StandsDevice host.now self.now }
        ensures descriptors { ForSome (value_at host.now.devices self.now) (λ o.
            result.now ≡ o.descriptors) }
    {
        host.descriptors(self.key)
    }

    /// Its configurations, in the order in which it gave them.
    pub fn configurations<'h>(&self, host: &'h Host) -> Configurations<'h>
        requires stands { StandsDevice host.now self.now }
        ensures configurations { ForSome (value_at host.now.devices self.now) (λ o.
            result ≡ spec.configurations o.descriptors) }
    {
        host.configurations(self.key)
    }

    /// Asks the kernel for the value of the active configuration (USB 2.0, section 9.4.2), which
    /// uses up the refusal that is armed for it. The open device keeps what the kernel gives, and
    /// where the kernel refuses it keeps the value that it had.
    pub fn ask_configuration(&self, host: &mut Host)
        requires stands { StandsDevice host.old self.now }
        ensures host { host.new ≡ host_asked host.old self.now }
        ensures stands { StandsDevice host.new self.now }
        ensures handles { HandlesStand host.old host.new }
    {
        host.ask_configuration(self.key);
    }

    /// The active configuration (USB 2.0, section 9.6.3), by the value that the open device keeps.
    /// The kernel is not asked for it: that is `ask_configuration`.
    ///
    /// # Errors
    ///
    /// No configuration has the value. For 0 the device is not configured.
    pub fn active_configuration<'h>(
        &self,
        host: &'h Host,
    ) -> Result<ConfigurationDescriptor<'h>, ActiveConfigurationError>
        requires stands { StandsDevice host.now self.now }
        ensures ok { IfOk result (λ c. ForSome (value_at host.now.devices self.now) (λ o.
            active_of o ≡ Ok c)) }
        ensures err { IfErr result (λ error. ForSome (value_at host.now.devices self.now) (λ o.
            active_of o ≡ Err error)) }
    {
        host.active_configuration(self.key)
    }

    /// The speed at which the device is connected, where the kernel tells one. That uses up the
    /// refusal that is armed for it.
    pub fn speed(&self, host: &mut Host) -> Option<Speed>
        requires stands { StandsDevice host.old self.now }
        ensures speed { ForSome (value_at host.old.devices self.now) (λ o.
            result ≡ speed_tried host.old o) }
        ensures host { host.new ≡ host_speed_asked host.old self.now }
        ensures stands { StandsDevice host.new self.now }
        ensures handles { HandlesStand host.old host.new }
    {
        host.speed(self.key)
    }

    /// Sets the configuration (USB 2.0, section 9.4.7); 0 stands for none. The open device keeps
    /// the value, and where the kernel refuses it keeps the one that it had. A refusal that is
    /// armed for it is used up.
    ///
    /// # Errors
    ///
    /// `NotFound` where no configuration has the value, `Busy` where an interface is claimed,
    /// `Disconnected` where the device is gone, else `Other`.
    pub fn set_configuration(&self, host: &mut Host, value: u8) -> Result<(), Error>
        requires stands { StandsDevice host.old self.now }
        ensures result { ForSome (value_at host.old.devices self.now) (λ o.
            result ≡ set_configuration_tried host.old o value) }
        ensures host { host.new ≡ host_configured host.old self.now value }
        ensures stands { StandsDevice host.new self.now }
        ensures handles { HandlesStand host.old host.new }
    {
        host.set_configuration(self.key, value)
    }

    /// Resets the device, which is gone then: its tickets are finished as by an unplug, and each
    /// later call is refused. The kernel must have a place for it beside those of the steps that
    /// are left. A refusal that is armed for it is used up.
    ///
    /// # Errors
    ///
    /// `Disconnected` where the device is gone, `Busy` and `Other` by the errno of an armed
    /// refusal.
    pub fn reset(&self, host: &mut Host) -> Result<(), Error>
        requires stands { StandsDevice host.old self.now }
        requires room { length host.old.steps < host.old.kernel.spare }
        ensures result { ForSome (value_at host.old.devices self.now) (λ o.
            result ≡ reset_tried host.old o) }
        ensures host { host.new ≡ host_reset host.old self.now }
        ensures stands { StandsDevice host.new self.now }
        ensures handles { HandlesStand host.old host.new }
    {
        host.reset(self.key)
    }

    /// Detaches the kernel driver of an interface. A refusal that is armed for it is used up.
    ///
    /// # Errors
    ///
    /// `NotFound` where the active configuration does not have the interface, `Other` where no
    /// driver is bound, `Disconnected` where the device is gone, else `Other`.
    pub fn detach_kernel_driver(&self, host: &mut Host, interface: u8) -> Result<(), Error>
        requires stands { StandsDevice host.old self.now }
        ensures result { ForSome (value_at host.old.devices self.now) (λ o.
            result ≡ detach_tried host.old o interface) }
        ensures host { host.new ≡ host_detached host.old self.now interface }
        ensures stands { StandsDevice host.new self.now }
        ensures handles { HandlesStand host.old host.new }
    {
        host.detach(self.key, interface)
    }

    /// Attaches the kernel driver of an interface. A refusal that is armed for it is used up.
    ///
    /// # Errors
    ///
    /// `NotFound` where the active configuration does not have the interface, `Busy` where a driver
    /// is bound or the interface is claimed, `Disconnected` where the device is gone, else `Other`.
    pub fn attach_kernel_driver(&self, host: &mut Host, interface: u8) -> Result<(), Error>
        requires stands { StandsDevice host.old self.now }
        ensures result { ForSome (value_at host.old.devices self.now) (λ o.
            result ≡ attach_tried host.old o interface) }
        ensures host { host.new ≡ host_attached host.old self.now interface }
        ensures stands { StandsDevice host.new self.now }
        ensures handles { HandlesStand host.old host.new }
    {
        host.attach(self.key, interface)
    }

    /// Claims an interface, which has the setting 0 then. Where the kernel refuses, nothing has
    /// changed but that an armed refusal is used up, and where memory is wanting nothing has.
    pub fn claim_interface(&self, host: &mut Host, interface: u8) -> Result<Interface, Fail<Error>>
        requires stands { StandsDevice host.old self.now }
        ensures claims { ClaimsInterface host.old host.new self.now interface false result }
        ensures stands { IfOk result (StandsInterface host.new) }
        ensures apart { IfOk result (IsOwnInterface host.old) }
        ensures device { StandsDevice host.new self.now }
        ensures handles { HandlesStand host.old host.new }
    {
        match host.claim(self.key, interface, false) {
            Ok(key) => Ok(Interface {
                key,
                number: interface,
            }),
            Err(error) => Err(error),
        }
    }

    /// Claims an interface and detaches its kernel driver, which is attached again when the claim
    /// ends, whether one was bound before or not. The interface has the setting 0 then. Where the
    /// kernel refuses, nothing has changed but that an armed refusal is used up, and where memory
    /// is wanting nothing has.
    pub fn detach_and_claim_interface(
        &self,
        host: &mut Host,
        interface: u8,
    ) -> Result<Interface, Fail<Error>>
        requires stands { StandsDevice host.old self.now }
        ensures claims { ClaimsInterface host.old host.new self.now interface true result }
        ensures stands { IfOk result (StandsInterface host.new) }
        ensures apart { IfOk result (IsOwnInterface host.old) }
        ensures device { StandsDevice host.new self.now }
        ensures handles { HandlesStand host.old host.new }
    {
        match host.claim(self.key, interface, true) {
            Ok(key) => Ok(Interface {
                key,
                number: interface,
            }),
            Err(error) => Err(error),
        }
    }

    /// Claims an interface, as `claim_interface`, and closes the device's handle, whether the
    /// interface is claimed or not. The interface holds its open device.
    ///
    /// # Errors
    ///
    /// Those of `claim_interface`.
    pub fn into_interface(self, host: &mut Host, interface: u8) -> Result<Interface, Fail<Error>>
        requires stands { StandsDevice host.old self }
        ensures claims { ClaimsAndCloses host.old host.new self interface false result }
        ensures stands { IfOk result (StandsInterface host.new) }
        ensures apart { IfOk result (IsOwnInterface host.old) }
        ensures handles { StandBesideDevice host.old host.new self }
    {
        let claimed = self.claim_interface(host, interface);
        self.close(host);
        claimed
    }

    /// Claims an interface and detaches its kernel driver, as `detach_and_claim_interface`, and
    /// closes the device's handle, whether the interface is claimed or not. The interface holds its
    /// open device.
    ///
    /// # Errors
    ///
    /// Those of `detach_and_claim_interface`.
    pub fn detach_and_into_interface(
        self,
        host: &mut Host,
        interface: u8,
    ) -> Result<Interface, Fail<Error>>
        requires stands { StandsDevice host.old self }
        ensures claims { ClaimsAndCloses host.old host.new self interface true result }
        ensures stands { IfOk result (StandsInterface host.new) }
        ensures apart { IfOk result (IsOwnInterface host.old) }
        ensures handles { StandBesideDevice host.old host.new self }
    {
        let claimed = self.detach_and_claim_interface(host, interface);
        self.close(host);
        claimed
    }
}

impl Interface {
    /// Its number: USB 2.0, section 9.6.5, `bInterfaceNumber`.
    pub fn interface_number(&self) -> u8
        ensures number { result ≡ self.now.number }
    {
        self.number
    }

    /// The number of its device at the kernel.
    pub(crate) fn device_number(&self, host: &Host) -> u8
        requires stands { StandsInterface host.now self.now }
        ensures number { ForSome (value_at host.now.interfaces self.now.key) (λ c.
            result ≡ c.device) }
    {
        host.device_number_of(self.key)
    }

    /// One more handle of the interface, and one more owner. It takes no memory: want of memory is
    /// the answer only where the count of its handles is at its end.
    pub fn clone_on(&self, host: &mut Host) -> Result<Interface, NoMemory>
        requires stands { StandsInterface host.old self.now }
        ensures handle { IfOk result (λ interface. interface ≡ self.now) }
        ensures ok { OnOk result (host.new ≡ handle_cloned host.old self.now.key) }
        ensures err { OnErr result (host.new ≡ host.old) }
        ensures full { OnErr result (ForSome (value_at host.old.interfaces self.now.key) (λ c.
            c.handles ≡ 2 ^ 64 - 1)) }
        ensures stands { StandsInterface host.new self.now }
        ensures handles { HandlesStand host.old host.new }
    {
        host.clone_handle(self.key)?;
        Ok(Interface {
            key: self.key,
            number: self.number,
        })
    }

    /// Closes the handle. With the last handle of the interface it holds its open device no more,
    /// and with its last owner its claim ends.
    pub fn close(self, host: &mut Host)
        requires stands { StandsInterface host.old self }
        ensures closed { host.new ≡ handle_closed host.old self.key }
        ensures handles { StandBesideInterface host.old host.new self.key }
    {
        let Interface { key, number: _ } = self;
        host.close_handle(key);
    }

    /// Ends the claim of the interface. Where the interface has another owner, an open handle or an
    /// endpoint that lives, the handle comes back with the error `Busy`, and nothing has changed.
    pub fn release(self, host: &mut Host) -> Result<(), (Interface, Error)>
        requires stands { StandsInterface host.old self }
        ensures releases { ReleasesInterface host.old host.new self result }
        ensures handles { StandBesideInterface host.old host.new self.key }
    {
        if host.is_shared(self.key) {
            return Err((self, Error::interface_in_use()));
        }
        self.close(host);
        Ok(())
    }

    /// Sets the alternate setting: USB 2.0, section 9.4.10. While an endpoint of the interface
    /// lives it is `Busy`, and the kernel is not asked. A refusal that is armed for it is used up.
    ///
    /// # Errors
    ///
    /// `NotFound` where the active configuration has no such setting of the interface,
    /// `Disconnected` where the device is gone, else `Other`.
    pub fn set_alt_setting(&self, host: &mut Host, setting: u8) -> Result<(), Error>
        requires stands { StandsInterface host.old self.now }
        ensures result { ForSome (value_at host.old.interfaces self.now.key) (λ c.
            result ≡ alt_setting_tried host.old self.now.key c setting) }
        ensures host { host.new ≡ alt_setting_set host.old self.now.key setting }
        ensures stands { StandsInterface host.new self.now }
        ensures handles { HandlesStand host.old host.new }
    {
        host.set_alt_setting(self.key, setting)
    }

    /// The current alternate setting.
    pub fn get_alt_setting(&self, host: &Host) -> u8
        requires stands { StandsInterface host.now self.now }
        ensures setting { ForSome (value_at host.now.interfaces self.now.key) (λ c.
            result ≡ c.setting) }
    {
        host.alt_setting(self.key)
    }

    /// Asks the kernel for the value of the active configuration of the device, as
    /// `Device::ask_configuration`.
    pub fn ask_configuration(&self, host: &mut Host)
        requires stands { StandsInterface host.old self.now }
        ensures host { ForSome (value_at host.old.interfaces self.now.key) (λ c.
            host.new ≡ host_asked host.old c.opened) }
        ensures stands { StandsInterface host.new self.now }
        ensures handles { HandlesStand host.old host.new }
    {
        host.ask_configuration_of(self.key);
    }

    /// The descriptor of the current setting, in the active configuration by the value that the
    /// open device keeps. The kernel is not asked for it: that is `ask_configuration`.
    pub fn descriptor<'h>(&self, host: &'h Host) -> Option<InterfaceDescriptor<'h>>
        requires stands { StandsInterface host.now self.now }
        ensures descriptor { ForSome (value_at host.now.interfaces self.now.key) (λ c.
            result ≡ current_setting host.now c) }
    {
        host.interface_descriptor(self.key)
    }

    /// The settings of the interface in that configuration, in the order of their descriptors, and
    /// none where no configuration has the value.
    pub fn descriptors<'h>(&self, host: &'h Host) -> AltSettingsOf<'h>
        requires stands { StandsInterface host.now self.now }
        ensures descriptors { ForSome (value_at host.now.interfaces self.now.key) (λ c.
            result ≡ all_settings host.now c) }
    {
        host.interface_descriptors(self.key)
    }

    /// Opens an endpoint (USB 2.0, section 9.6.6) of the interface in its current alternate
    /// setting. The kernel is asked for the active configuration first, which uses up the refusal
    /// that is armed for it; the open device keeps what it gives, and else the last value counts.
    ///
    /// # Errors
    ///
    /// The first of these: no such endpoint, its direction or its type is another, its maximum
    /// packet size is 0, its bit is in use, memory is wanting. Nothing else has changed then.
    pub fn endpoint<T: KnownType, D: KnownDirection>(
        &self,
        host: &mut Host,
        address: u8,
    ) -> Result<Endpoint<T, D>, Fail<Error>>
        requires stands { StandsInterface host.old self.now }
        ensures opens { OpensEndpoint host.old host.new self.now.key address T.TYPE D.DIR result }
        ensures direction { IfOk result (λ e. direction_of_address e.address ≡ D.DIR) }
        ensures stands { IfOk result (Stands (bus_of host.new)) }
        ensures apart { IfOk result (IsOwnEndpoint host.old) }
        ensures others { IfOk result (λ e. KeepsOthers (bus_of host.old) (bus_of host.new) e.key) }
        ensures interface { StandsInterface host.new self.now }
        ensures handles { HandlesStand host.old host.new }
    {
        match host.open_endpoint(self.key, address, T::TYPE, D::DIR) {
            Ok(route) => {
                let alloc = host.allocator();
                Ok(Endpoint::new(
                    alloc,
                    route.device,
                    route.endpoint,
                    route.maximum,
                    route.key,
                ))
            }
            Err(error) => Err(error),
        }
    }

    /// Opens an endpoint, as `endpoint`, and closes the interface's handle, whether the endpoint is
    /// opened or not. The endpoint owns the claim: where it is the last owner the claim ends with it.
    ///
    /// # Errors
    ///
    /// Those of `endpoint`.
    pub fn into_endpoint<T: KnownType, D: KnownDirection>(
        self,
        host: &mut Host,
        address: u8,
    ) -> Result<Endpoint<T, D>, Fail<Error>>
        requires stands { StandsInterface host.old self }
        ensures opens { OpensAndCloses host.old host.new self.key address T.TYPE D.DIR result }
        ensures direction { IfOk result (λ e. direction_of_address e.address ≡ D.DIR) }
        ensures stands { IfOk result (Stands (bus_of host.new)) }
        ensures apart { IfOk result (IsOwnEndpoint host.old) }
        ensures handles { StandBesideInterface host.old host.new self.key }
    {
        let opened = self.endpoint::<T, D>(host, address);
        self.close(host);
        opened
    }
}
