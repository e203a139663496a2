//! Endpoints of claimed interfaces are opened.

ghost use Rattle.std.specs.Prelude.{◌≡◌, ◌<◌, ◌^◌, length, set, OnOk, OnErr, IfOk, IsSome};
ghost use Rattle.std.specs.Option.{ForSome, option_copied};
ghost use Rattle.usb_desc.specs.Fields.{direction_of_address};
ghost use Rattle.usb_kernel_devices.specs.declared.step.KernelCall.{KernelCall};
ghost use Rattle.usb_kernel_devices.specs.Claims.{no_rules};
ghost use Rattle.usb_kernel_devices.specs.Calls.{same};
ghost use Rattle.usb_kernel.specs.Calls.{called};
ghost use Rattle.usb_device_ledger.specs.Entries.{ClaimedInterface};
ghost use Rattle.usb_device_tables.specs.History.{value_at};
ghost use Rattle.usb_device_host.specs.HostState.{HostState};
ghost use Rattle.usb_device_ledger.specs.OwnerRows.{claim_state};
ghost use Rattle.usb_device_host.specs.EndpointRefusals.{endpoint_tried};
ghost use Rattle.usb_device_host.specs.EndpointOpens.{active_value, host_asked, endpoint_of_setting, host_tries, with_endpoint, endpoint_route, maximum_tried};
ghost use Rattle.usb_error.specs.Outcomes.{Tried};

use crate::host::Host;
use usb_desc::{Direction, EndpointDescriptor, Fail, TransferType, find_configuration};
use usb_device_endpoint::Route;
use usb_device_ledger::OpenDevice;
use usb_device_tables::Key;
use usb_error::Error;
use usb_kernel::Kernel;

/// The descriptor of an endpoint of an interface in a setting, in the configuration that the open
/// device keeps.
#[tactic(auto, unfolding(crate::specs::EndpointOpens::endpoint_of_setting))]
fn find_endpoint(
    opened: &OpenDevice,
    number: u8,
    setting: u8,
    address: u8,
) -> Option<EndpointDescriptor<'_>>
    ensures value { result ≡ endpoint_of_setting opened.now number setting address }
{
    let configuration = find_configuration(opened.descriptors.as_slice(), opened.configuration)?;
    let setting = configuration.find_alt_setting(number, setting)?;
    setting.find_endpoint(address)
}

/// The maximum packet size of an endpoint that may be opened, or why it may not.
fn maximum_of(
    found: Option<EndpointDescriptor<'_>>,
    address: u8,
    kind: TransferType,
    direction: Direction,
    is_used: bool,
) -> Result<usize, Error>
    ensures tried { result ≡ endpoint_tried found.entry address kind direction is_used }
    ensures small { IfOk result (λ maximum. maximum < 2 ^ 11) }
    ensures direction { OnOk result (direction_of_address address ≡ direction) }
{
    let Some(endpoint) = found else {
        return Err(Error::no_endpoint());
    };
    if Direction::from_address(address) != direction {
        return Err(Error::wrong_direction());
    }
    if endpoint.transfer_type() != kind {
        return Err(Error::wrong_type());
    }
    if endpoint.max_packet_size() == 0 {
        return Err(Error::no_packet_size());
    }
    if is_used {
        return Err(Error::endpoint_in_use());
    }
    Ok(endpoint.max_packet_size())
}

/// The value of the active configuration: the kernel's, or where the kernel refuses the one that
/// the open device keeps.
fn active_value(kernel: &mut Kernel, opened: &OpenDevice) -> u8
    ensures value { result ≡ active_value kernel.old opened.now }
    ensures kernel { kernel.new
        ≡ called kernel.old opened.now.device KernelCall.GetConfig no_rules same }
{
    match kernel.configuration(opened.device) {
        Ok(value) => value,
        Err(_) => opened.configuration,
    }
}

impl Host {
    /// Asks the kernel for the value of a device's active configuration (USB 2.0, section 9.4.2),
    /// which uses up the refusal that is armed for it. The open device keeps what the kernel gives,
    /// and where the kernel refuses it keeps the value that it had.
    pub fn ask_configuration(&mut self, device: Key)
        requires device { IsSome (value_at self.old.devices device.serial) }
        ensures asked { self.new ≡ host_asked self.old device.serial }
    {
        let value = active_value(&mut self.kernel, self.devices.get(device));
        self.devices.set_configuration(device, value);
    }

    /// Asks for that of the device of a claimed interface, as `ask_configuration`.
    pub fn ask_configuration_of(&mut self, interface: Key)
        requires interface { IsSome (value_at self.old.interfaces interface.serial) }
        requires device { ForSome (value_at self.old.interfaces interface.serial) (λ c.
            IsSome (value_at self.old.devices c.opened)) }
        ensures asked { ForSome (value_at self.old.interfaces interface.serial) (λ c.
            self.new ≡ host_asked self.old c.opened) }
    {
        let opened = self.ledger.opened(interface);
        self.ask_configuration(opened);
    }

    /// The maximum packet size of an endpoint that may be opened, or why it may not.
    fn try_endpoint(
        &self,
        interface: Key,
        address: u8,
        kind: TransferType,
        direction: Direction,
    ) -> Result<usize, Error>
        requires interface { IsSome (value_at self.now.interfaces interface.serial) }
        requires device { ForSome (value_at self.now.interfaces interface.serial) (λ c.
            IsSome (value_at self.now.devices c.opened)) }
        ensures tried { ForSome (value_at self.now.interfaces interface.serial) (λ c.
            result ≡ host_tries self.now interface.serial c address kind direction) }
        ensures small { IfOk result (λ maximum. maximum < 2 ^ 11) }
        ensures direction { OnOk result (direction_of_address address ≡ direction) }
    {
        let claim = self.ledger.interface(interface);
        let is_used = self.ledger.is_used(interface, address);
        let opened = self.devices.get(claim.opened);
        let found = find_endpoint(opened, claim.number, claim.setting, address);
        maximum_of(found, address, kind, direction, is_used)
    }

    /// Opens an endpoint (USB 2.0, section 9.6.6) of a claimed interface in its current alternate
    /// setting. It has the next key. The kernel is asked for the active configuration first, which
    /// uses up the refusal that is armed for it; the open device keeps what it gives, also where
    /// the endpoint is not opened.
    ///
    /// # Errors
    ///
    /// The first of these: no such endpoint, its direction or its type is another, its maximum
    /// packet size is 0, its bit is in use, memory is wanting. Nothing else has changed then.
    pub fn open_endpoint(
        &mut self,
        interface: Key,
        address: u8,
        kind: TransferType,
        direction: Direction,
    ) -> Result<Route, Fail<Error>>
        requires interface { IsSome (value_at self.old.interfaces interface.serial) }
        requires device { ForSome (value_at self.old.interfaces interface.serial) (λ c.
            IsSome (value_at self.old.devices c.opened)) }
        ensures tried { ForSome (value_at self.old.interfaces interface.serial) (λ c.
            Tried (maximum_tried result)
            (host_tries (host_asked self.old c.opened) interface.serial c address kind direction)) }
        ensures packets { IfOk result (λ route. 0 < route.maximum) }
        ensures small { IfOk result (λ route. route.maximum < 2 ^ 11) }
        ensures direction { OnOk result (direction_of_address address ≡ direction) }
        ensures route { ForSome (value_at self.old.interfaces interface.serial) (λ c.
            IfOk result (λ route.
            route ≡ endpoint_route c address kind route.maximum (length self.old.endpoints))) }
        ensures ok { ForSome (value_at self.old.interfaces interface.serial) (λ c.
            OnOk result (self.new ≡ with_endpoint (host_asked self.old c.opened)
            interface.serial address)) }
        ensures err { ForSome (value_at self.old.interfaces interface.serial) (λ c.
            OnErr result (self.new ≡ host_asked self.old c.opened)) }
    {
        let device = self.ledger.device(interface);
        let opened = self.ledger.opened(interface);
        self.ask_configuration(opened);
        let maximum = match self.try_endpoint(interface, address, kind, direction) {
            Ok(maximum) => maximum,
            Err(error) => return Err(Fail::Cause(error)),
        };
        let Ok(key) = self.ledger.open_endpoint(interface, address) else {
            return Err(Fail::Memory);
        };
        Ok(Route {
            device,
            endpoint: address,
            kind,
            maximum,
            key,
        })
    }
}
