//! Simulated devices.

ghost use Rattle.std.specs.Prelude.{◌≡◌, map, IfOk, position, find, option_copied, option_map, is_some};
ghost use Rattle.usb_kernel_devices.specs.Devices.{fresh_device, has_device_number, device_of, if_plugged, plugged_device, unplugged, devices_unplugged};
ghost use Rattle.usb_kernel_devices.specs.Claims.{is_at, result_by, has_interface, no_rules, release_result, without_claim, after_release};

use crate::bytes::Bytes;
use crate::descriptors::Descriptors;
use crate::interfaces::InterfaceSet;
use std::alloc::Global;
use usb_desc::{NoMemory, errno, find_configuration};

/// A simulated device: its place on a bus, its speed's code, the value of its active configuration,
/// its descriptors (the device descriptor, then its configurations, USB 2.0, 9.6), and the numbers
/// of the interfaces that have a kernel driver.
#[derive(Clone, Drop)]
pub struct SimDevice {
    pub bus: u8,
    pub address: u8,
    pub speed: u8,
    pub config: u8,
    pub bytes: Descriptors,
    pub drivers: Bytes,
}

impl SimDevice {
    /// The same device once more. Both share the descriptors.
    pub fn clone(&self) -> Result<SimDevice, NoMemory>
        ensures same { IfOk result (λ copy. copy ≡ self.now) }
    {
        Ok(Clone::clone(self)?)
    }
}

/// A device as the kernel keeps it: `claimed` are its interfaces that are claimed, and `bound`
/// those to which a kernel driver is bound.
#[derive(Drop)]
pub struct DeviceState {
    pub number: u8,
    pub bus: u8,
    pub address: u8,
    pub speed: u8,
    pub configuration: u8,
    pub bytes: Descriptors,
    pub plugged: bool,
    pub claimed: InterfaceSet,
    pub bound: InterfaceSet,
}

impl DeviceState {
    /// A device at the start.
    fn fresh(number: u8, device: SimDevice) -> DeviceState
        ensures device { result ≡ fresh_device (number, device) }
    {
        let bound = InterfaceSet::from_slice(device.drivers.as_slice());
        DeviceState {
            number,
            bus: device.bus,
            address: device.address,
            speed: device.speed,
            configuration: device.config,
            bytes: device.bytes,
            plugged: true,
            claimed: InterfaceSet::new(),
            bound,
        }
    }

    /// Whether its active configuration has an interface.
    pub(crate) fn has_interface(&self, number: u8) -> bool
        ensures has { result ≡ has_interface number self.now }
    {
        match find_configuration(self.bytes.as_slice(), self.configuration) {
            Some(configuration) => configuration.has_interface(number),
            None => false,
        }
    }

    /// Ends the claim of an interface. The answer is errno 19 where the device is unplugged.
    fn release(&mut self, interface: u8) -> Result<(), u16>
        ensures result { result ≡ result_by no_rules (if_plugged self.old) }
        ensures device { self.new ≡ without_claim interface self.old }
    {
        self.claimed.remove(interface);
        if self.plugged {
            Ok(())
        } else {
            Err(errno::NODEV)
        }
    }

    /// Pulls it out. It answers whether it was plugged.
    fn unplug(&mut self) -> bool
        ensures was { result ≡ self.old.plugged }
        ensures device { self.new ≡ unplugged self.old }
    {
        let was = self.plugged;
        self.plugged = false;
        was
    }
}

/// The devices at the start.
pub fn fresh_devices(
    alloc: Global,
    devices: Vec<(u8, SimDevice)>,
) -> Result<Vec<DeviceState>, NoMemory>
    ensures devices { IfOk result (λ made. made.items ≡ map fresh_device devices.items) }
{
    let Ok(mut made) = Vec::with_capacity(alloc, devices.len()) else {
        return Err(NoMemory);
    };
    for (number, device) in devices {
        if made.push(DeviceState::fresh(number, device)).is_err() {
            return Err(NoMemory);
        }
    }
    Ok(made)
}

/// The place of the first device with a number.
pub(crate) fn place_of(devices: &[DeviceState], number: u8) -> Option<usize>
    ensures place { result ≡ position (has_device_number number) devices.now }
{
    devices.iter().position(|d| d.number == number)
}

/// The first device with a number.
fn first_of(devices: &[DeviceState], number: u8) -> Option<&DeviceState>
    ensures device { option_copied result ≡ device_of devices.now number }
{
    devices.iter().find(|d| d.number == number)
}

/// The device of a number, while it is plugged.
pub fn plugged(devices: &[DeviceState], number: u8) -> Option<&DeviceState>
    ensures device { option_copied result ≡ plugged_device devices.now number }
{
    match first_of(devices, number) {
        Some(device) if device.plugged => Some(device),
        _ => None,
    }
}

/// The first plugged device at an address.
fn first_at(devices: &[DeviceState], bus: u8, address: u8) -> Option<&DeviceState>
    ensures device { option_copied result ≡ find (is_at bus address) devices.now }
{
    devices
        .iter()
        .find(|d| d.plugged && d.bus == bus && d.address == address)
}

/// The number of the first plugged device at an address.
pub fn number_at(devices: &[DeviceState], bus: u8, address: u8) -> Option<u8>
    ensures number { result ≡ option_map (λ d. d.number) (find (is_at bus address) devices.now) }
{
    let device = first_at(devices, bus, address)?;
    Some(device.number)
}

/// Ends the claim of an interface of the device of a number.
pub fn release_interface(
    devices: &mut Vec<DeviceState>,
    number: u8,
    interface: u8,
) -> Result<(), u16>
    ensures result { result ≡ release_result devices.old.items number }
    ensures devices { devices.new.items ≡ after_release devices.old.items number interface }
{
    let Some(at) = place_of(devices, number) else {
        return Err(errno::NODEV);
    };
    let device = &mut devices[at];
    device.release(interface)
}

/// Pulls a device out. It answers whether a plugged device had the number.
pub fn unplug_device(devices: &mut Vec<DeviceState>, number: u8) -> bool
    ensures was { result ≡ is_some (plugged_device devices.old.items number) }
    ensures devices { devices.new.items ≡ devices_unplugged devices.old.items number }
{
    let Some(at) = place_of(devices, number) else {
        return false;
    };
    let device = &mut devices[at];
    device.unplug()
}
