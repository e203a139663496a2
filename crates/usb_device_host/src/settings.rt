//! The alternate settings of claimed interfaces.

ghost use Rattle.std.specs.Prelude.{◌≡◌, IsSome};
ghost use Rattle.std.specs.Iterator.{YieldsFirst, item_count};
ghost use Rattle.std.specs.Option.{ForSome};
ghost use Rattle.usb_device_ledger.specs.Entries.{ClaimedInterface};
ghost use Rattle.usb_device_tables.specs.History.{value_at};
ghost use Rattle.usb_device_host.specs.HostState.{HostState};
ghost use Rattle.usb_device_host.specs.EndpointOpens.{setting_in};
ghost use Rattle.usb_device_host.specs.OnInterfaces.{alt_setting_tried, alt_setting_set, current_setting, settings_in, all_settings};

use crate::host::Host;
use std::marker::Model;
use usb_desc::{AltSettings, InterfaceDescriptor, find_configuration};
use usb_device_ledger::OpenDevice;
use usb_device_tables::Key;
use usb_error::Error;

/// The settings of one interface in a configuration, in the order of their descriptors (USB 2.0,
/// section 9.6.5). A contract sees the list of those that are left.
#[derive(Drop)]
pub struct AltSettingsOf<'a> {
    settings: Option<AltSettings<'a>>,
    number: u8,
}

impl<'a> Model for AltSettingsOf<'a> {
    ghost use Rattle.std.specs.Prelude.{[], List, ℕ};
    ghost use Rattle.std.specs.Option.{option_map_or};
    ghost use Rattle.usb_desc.specs.Interfaces.{settings_of};

    ghost Value = { List (List ℕ) };

    ghost view = { λ s. option_map_or (λ settings. settings_of settings s.number)
        s.settings [] };
}

impl<'a> Iterator for AltSettingsOf<'a> {
    type Item = InterfaceDescriptor<'a>;

    ghost next_gives = { YieldsFirst (λ items. items) };

    ghost remaining = { item_count (λ items. items) };

    fn next(&mut self) -> Option<InterfaceDescriptor<'a>> {
        let settings = self.settings.as_mut()?;
        let number = self.number;
        settings.find(|setting| setting.interface_number() == number)
    }
}

/// The descriptor of a setting, in the configuration that the open device keeps.
#[tactic(auto, unfolding(crate::specs::EndpointOpens::endpoint_of_setting))]
fn find_setting(opened: &OpenDevice, number: u8, setting: u8) -> Option<InterfaceDescriptor<'_>>
    ensures value { result ≡ setting_in opened.now number setting }
{
    let configuration = find_configuration(opened.descriptors.as_slice(), opened.configuration)?;
    configuration.find_alt_setting(number, setting)
}

/// The settings of an interface, in the configuration that the open device keeps.
fn find_settings(opened: &OpenDevice, number: u8) -> AltSettingsOf<'_>
    ensures value { result ≡ settings_in opened.now number }
{
    let settings = match find_configuration(opened.descriptors.as_slice(), opened.configuration) {
        Some(configuration) => Some(configuration.interface_alt_settings()),
        None => None,
    };
    AltSettingsOf { settings, number }
}

impl Host {
    /// Sets the alternate setting of a claimed interface: USB 2.0, section 9.4.10. While an
    /// endpoint of the interface lives it is `Busy`, and the kernel is not asked. A refusal that is
    /// armed for it is used up.
    ///
    /// # Errors
    ///
    /// `NotFound` where the active configuration has no such setting of the interface,
    /// `Disconnected` where the device is gone, else `Other`.
    pub fn set_alt_setting(&mut self, interface: Key, setting: u8) -> Result<(), Error>
        requires interface { IsSome (value_at self.old.interfaces interface.serial) }
        ensures tried { ForSome (value_at self.old.interfaces interface.serial) (λ c.
            result ≡ alt_setting_tried self.old interface.serial c setting) }
        ensures host { self.new ≡ alt_setting_set self.old interface.serial setting }
    {
        if self.ledger.has_living(interface) {
            return Err(Error::settings_in_use());
        }
        let claim = self.ledger.interface(interface);
        if let Err(errno) = self
            .kernel
            .set_interface(claim.device, claim.number, setting)
        {
            return Err(Error::set_alt_setting(errno));
        }
        self.ledger.set_setting(interface, setting);
        Ok(())
    }

    /// The current alternate setting of a claimed interface.
    pub fn alt_setting(&self, interface: Key) -> u8
        requires interface { IsSome (value_at self.now.interfaces interface.serial) }
        ensures setting { ForSome (value_at self.now.interfaces interface.serial) (λ c.
            result ≡ c.setting) }
    {
        self.ledger.interface(interface).setting
    }

    /// The descriptor of the current setting of a claimed interface, in the configuration that its
    /// open device keeps.
    pub fn interface_descriptor(&self, interface: Key) -> Option<InterfaceDescriptor<'_>>
        requires interface { IsSome (value_at self.now.interfaces interface.serial) }
        requires device { ForSome (value_at self.now.interfaces interface.serial) (λ c.
            IsSome (value_at self.now.devices c.opened)) }
        ensures descriptor { ForSome (value_at self.now.interfaces interface.serial) (λ c.
            result ≡ current_setting self.now c) }
    {
        let claim = self.ledger.interface(interface);
        find_setting(self.devices.get(claim.opened), claim.number, claim.setting)
    }

    /// The settings of a claimed interface in that configuration, in the order of their
    /// descriptors, and none where no configuration has the value.
    pub fn interface_descriptors(&self, interface: Key) -> AltSettingsOf<'_>
        requires interface { IsSome (value_at self.now.interfaces interface.serial) }
        requires device { ForSome (value_at self.now.interfaces interface.serial) (λ c.
            IsSome (value_at self.now.devices c.opened)) }
        ensures descriptors { ForSome (value_at self.now.interfaces interface.serial) (λ c.
            result ≡ all_settings self.now c) }
    {
        let claim = self.ledger.interface(interface);
        find_settings(self.devices.get(claim.opened), claim.number)
    }
}
