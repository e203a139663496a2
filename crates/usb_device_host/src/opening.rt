//! A device is opened at its bus and address.

ghost use Rattle.std.specs.Prelude.{◌≡◌, ◌-◌, ◌^◌, length, IsSome, OnOk, OnErr, IfOk, IfErr};
ghost use Rattle.std.specs.Option.{ForSome};
ghost use Rattle.usb_desc.specs.Configurations as spec;
ghost use Rattle.usb_device_host.specs.HostState.{HostState};
ghost use Rattle.usb_device_host.specs.Handles.{device_cloned, device_closed};
ghost use Rattle.usb_device_host.specs.Opens.{descriptors_tried, open_tried, open_key, host_opened, with_opened};
ghost use Rattle.usb_device_host.specs.CallErrors.{Leaves};
ghost use Rattle.usb_error.specs.Outcomes.{Tried, result_map};
ghost use Rattle.usb_device_tables.specs.History.{value_at};
ghost use Rattle.usb_device_tables.specs.declared.registry.Key.{Key};

use crate::host::Host;
use usb_desc::{Configurations, DeviceDescriptor, Fail, NoMemory, concatenated};
use usb_device_ledger::OpenDevice;
use usb_device_tables::Key;
use usb_error::Error;
use usb_kernel::{Descriptors, Kernel};

/// All descriptors of a device, shared with the kernel.
#[tactic(auto, unfolding(crate::specs::Opens::descriptors_tried))]
fn read_descriptors(kernel: &mut Kernel, device: u8) -> Result<Descriptors, Fail<Error>>
    ensures tried { Tried result (descriptors_tried device kernel.old).answer }
    ensures kernel { Leaves result kernel.new
        (descriptors_tried device kernel.old).kernel kernel.old }
{
    let descriptors = match kernel.read_descriptors(device) {
        Ok(descriptors) => descriptors,
        Err(errno) => return Err(Fail::Cause(Error::read_descriptors(errno))),
    };
    match descriptors.clone() {
        Ok(descriptors) => Ok(descriptors),
        Err(NoMemory) => Err(Fail::Memory),
    }
}

/// Opens the device at a bus and an address: the kernel's open, its descriptors, the device
/// descriptor among them, and its active configuration, in this order.
#[tactic(auto, unfolding(crate::specs::Opens::open_tried))]
fn open_at(kernel: &mut Kernel, bus: u8, address: u8) -> Result<OpenDevice, Fail<Error>>
    ensures tried { Tried result (open_tried bus address kernel.old).answer }
    ensures kernel { Leaves result kernel.new
        (open_tried bus address kernel.old).kernel kernel.old }
{
    let device = match kernel.open(bus, address) {
        Ok(device) => device,
        Err(errno) => return Err(Fail::Cause(Error::open(errno))),
    };
    let descriptors = match read_descriptors(kernel, device) {
        Ok(descriptors) => descriptors,
        Err(error) => return Err(error),
    };
    let Some(device_descriptor) = DeviceDescriptor::new(descriptors.as_slice()) else {
        return Err(Fail::Cause(Error::invalid_device_descriptor()));
    };
    match kernel.configuration(device) {
        Ok(configuration) => Ok(OpenDevice {
            device,
            configuration,
            device_descriptor,
            descriptors,
            handles: 1,
            interfaces: 0,
        }),
        Err(_) => Err(Fail::Cause(Error::configuration())),
    }
}

impl Host {
    /// Opens the first plugged device at an address of a bus, which has the next key and one
    /// handle. The kernel opens it, then gives its descriptors, of which the first must be a device
    /// descriptor (USB 2.0, section 9.6.1), and then its active configuration. What is refused
    /// first is the error, and nothing is asked behind it. Each of the three that is asked uses up
    /// the refusal that is armed for it. Where memory is wanting nothing has changed.
    pub fn open_device(&mut self, bus: u8, address: u8) -> Result<Key, Fail<Error>>
        ensures tried { Tried (result_map (λ (key : Key). key.serial) result)
            (open_key self.old bus address) }
        ensures host { Leaves result self.new (host_opened self.old bus address) self.old }
    {
        match open_at(&mut self.kernel, bus, address) {
            Ok(opened) => self.keep_device(opened),
            Err(error) => Err(error),
        }
    }

    /// Keeps an open device under the next key.
    fn keep_device(&mut self, opened: OpenDevice) -> Result<Key, Fail<Error>>
        ensures key { IfOk result (λ key. key.serial ≡ length self.old.devices) }
        ensures ok { OnOk result (self.new ≡ with_opened self.old opened) }
        ensures err { OnErr result (self.new ≡ self.old) }
        ensures memory { IfErr result (λ error. error ≡ Fail.Memory) }
    {
        match self.devices.open(opened) {
            Ok(key) => Ok(key),
            Err(NoMemory) => Err(Fail::Memory),
        }
    }

    /// One more handle of an open device is open. It takes no memory: want of memory is the answer
    /// only where the count of its handles is at its end.
    pub fn clone_device(&mut self, device: Key) -> Result<(), NoMemory>
        ensures ok { OnOk result (self.new ≡ device_cloned self.old device.serial) }
        ensures err { OnErr result (self.new ≡ self.old) }
        ensures full { OnErr result (ForSome (value_at self.old.devices device.serial) (λ o.
            o.handles ≡ 2 ^ 64 - 1)) }
    {
        self.devices.add_handle(device)
    }

    /// A handle of an open device is closed. Where no handle of it and none of an interface of it
    /// is left, what the host keeps of it goes. The kernel isn't told: it keeps nothing of who
    /// opened a device.
    pub fn close_device(&mut self, device: Key)
        ensures closed { self.new ≡ device_closed self.old device.serial }
    {
        self.devices.close_handle(device);
    }

    /// The device descriptor of an open device.
    pub fn device_descriptor(&self, device: Key) -> &DeviceDescriptor
        requires device { IsSome (value_at self.now.devices device.serial) }
        ensures descriptor { ForSome (value_at self.now.devices device.serial) (λ o.
            result.now ≡ o.device_descriptor) }
    {
        let opened = self.devices.get(device);
        &opened.device_descriptor
    }

    /// All descriptors that an open device gave, of which the first is the device descriptor.
    pub fn descriptors(&self, device: Key) -> &[u8]
        requires device { IsSome (value_at self.now.devices device.serial) }
        ensures descriptors { ForSome (value_at self.now.devices device.serial) (λ o.
            result.now ≡ o.descriptors) }
    {
        let opened = self.devices.get(device);
        opened.descriptors.as_slice()
    }

    /// The configurations of an open device, in the order in which it gave them.
    pub fn configurations(&self, device: Key) -> Configurations<'_>
        requires device { IsSome (value_at self.now.devices device.serial) }
        ensures configurations { ForSome (value_at self.now.devices device.serial) (λ o.
            result ≡ spec.configurations o.descriptors) }
    {
        let opened = self.devices.get(device);
        configurations_in(opened.descriptors.as_slice())
    }
}

/// The configurations that stand behind the device descriptor.
fn configurations_in(bytes: &[u8]) -> Configurations<'_>
    ensures configurations { result ≡ spec.configurations bytes.now }
{
    if bytes.len() < 18 {
        return concatenated(&[]);
    }
    let (_device, behind) = bytes.split_at(18);
    concatenated(behind)
}
