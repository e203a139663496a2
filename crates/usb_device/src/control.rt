//! Control transfers of devices and of claimed interfaces: USB 2.0, section 9.3.

ghost use Rattle.std.specs.Prelude.{◌≡◌, ◌<◌, ◌^◌, [], length, IfOk, OnOk, OnErr};
ghost use Rattle.std.specs.Option.{ForSome};
ghost use Rattle.usb_desc.specs.declared.types.TransferType.TheVariants.{Control};
ghost use Rattle.usb_device_tables.specs.History.{value_at};
ghost use Rattle.usb_xfer.specs.Transfers.{IsRequest, request_in, request_out};
ghost use Rattle.usb_error.specs.Outcomes.{result_map};
ghost use Rattle.usb_device_host.specs.HandleStates.{StandsDevice, StandsInterface};
ghost use Rattle.usb_device.specs.KeptHandles.{HandlesStand};
ghost use Rattle.usb_device_host.specs.CallErrors.{Leaves};
ghost use Rattle.usb_device_host.specs.Controls.{request_started};
ghost use Rattle.usb_device.specs.Futures.{StandsFuture, fresh_future};
ghost use Rattle.usb_device.specs.ControlCalls.{controlled, control_answered, Answers};

use crate::device::{Device, Interface};
use crate::future::TransferFuture;
use usb_desc::{ControlIn, ControlOut, Direction, Fail, NoMemory};
use usb_device_host::Host;
use usb_xfer::{TransferData, TransferError};

/// The future of a control transfer that is handed in to a device.
fn start(
    host: &mut Host,
    device: u8,
    request: TransferData,
    timeout: u64,
) -> Result<TransferFuture, NoMemory>
    requires request { IsRequest request }
    requires kind { request.kind ≡ Control }
    ensures future { IfOk result (λ f. f ≡ fresh_future host.old request timeout) }
    ensures ok { OnOk result (host.new ≡ request_started host.old device request timeout) }
    ensures err { OnErr result (host.new ≡ host.old) }
    ensures stands { IfOk result (StandsFuture host.new) }
    ensures handles { HandlesStand host.old host.new }
{
    let direction = Direction::from_address(request.endpoint);
    let started = host.start_control(device, request, timeout)?;
    Ok(TransferFuture::new(started, direction))
}

/// Hands a control transfer in to a device, and waits for its answer.
fn finish(
    host: &mut Host,
    device: u8,
    request: TransferData,
    timeout: u64,
) -> Result<Vec<u8>, Fail<TransferError>>
    requires request { IsRequest request }
    requires kind { request.kind ≡ Control }
    ensures answer { Answers (result_map (λ bytes. bytes.items) result)
        (control_answered host.old device request timeout) }
    ensures host { Leaves result host.new (controlled host.old device request timeout) host.old }
    ensures handles { HandlesStand host.old host.new }
{
    let future = match start(host, device, request, timeout) {
        Ok(future) => future,
        Err(NoMemory) => return Err(Fail::Memory),
    };
    match future.wait(host) {
        Ok(bytes) => Ok(bytes),
        Err(error) => Err(Fail::Cause(error)),
    }
}

impl Device {
    /// Starts a control transfer on the device's endpoint 0 whose data come from the device (USB
    /// 2.0, section 9.3). Its deadline is `timeout` nanoseconds away, of which those of a day count
    /// at most (`deadline_after`, Timers.antt of usb_kernel): the first turn of the kernel's timer
    /// from then on discards it, if it is unfinished. An `Err` is want of memory, and then nothing
    /// has changed.
    pub fn start_control_in(
        &self,
        host: &mut Host,
        setup: ControlIn,
        timeout: u64,
    ) -> Result<TransferFuture, NoMemory>
        requires stands { StandsDevice host.old self.now }
        ensures future { IfOk result (λ f. f ≡ fresh_future host.old (request_in setup) timeout) }
        ensures ok { ForSome (value_at host.old.devices self.now) (λ o.
            OnOk result (host.new ≡ request_started host.old o.device (request_in setup) timeout)) }
        ensures err { OnErr result (host.new ≡ host.old) }
        ensures future_stands { IfOk result (StandsFuture host.new) }
        ensures stands { StandsDevice host.new self.now }
        ensures handles { HandlesStand host.old host.new }
    {
        let request = TransferData::new_control_in(host.allocator(), setup)?;
        let device = self.device_number(host);
        start(host, device, request, timeout)
    }

    /// Starts a control transfer on the device's endpoint 0 that sends data, of which there are at
    /// most 65535 bytes, as `start_control_in`.
    pub fn start_control_out(
        &self,
        host: &mut Host,
        setup: ControlOut<'_>,
        timeout: u64,
    ) -> Result<TransferFuture, NoMemory>
        requires stands { StandsDevice host.old self.now }
        requires short { length setup.bytes.now < 2 ^ 16 }
        ensures future { IfOk result (λ f.
            f ≡ fresh_future host.old (request_out setup.entry) timeout) }
        ensures ok { ForSome (value_at host.old.devices self.now) (λ o.
            OnOk result (host.new
            ≡ request_started host.old o.device (request_out setup.entry) timeout)) }
        ensures err { OnErr result (host.new ≡ host.old) }
        ensures future_stands { IfOk result (StandsFuture host.new) }
        ensures stands { StandsDevice host.new self.now }
        ensures handles { HandlesStand host.old host.new }
    {
        let request = TransferData::new_control_out(host.allocator(), setup)?;
        let device = self.device_number(host);
        start(host, device, request, timeout)
    }

    /// A control transfer on the device's endpoint 0 whose data come from the device, started and
    /// awaited. Where memory is wanting nothing has changed.
    ///
    /// # Errors
    ///
    /// The status of the transfer, where that is one.
    pub fn control_in(
        &self,
        host: &mut Host,
        setup: ControlIn,
        timeout: u64,
    ) -> Result<Vec<u8>, Fail<TransferError>>
        requires stands { StandsDevice host.old self.now }
        ensures answer { ForSome (value_at host.old.devices self.now) (λ o.
            Answers (result_map (λ bytes. bytes.items) result)
            (control_answered host.old o.device (request_in setup) timeout)) }
        ensures host { ForSome (value_at host.old.devices self.now) (λ o.
            Leaves result host.new (controlled host.old o.device (request_in setup) timeout)
            host.old) }
        ensures stands { StandsDevice host.new self.now }
        ensures handles { HandlesStand host.old host.new }
    {
        let Ok(request) = TransferData::new_control_in(host.allocator(), setup) else {
            return Err(Fail::Memory);
        };
        let device = self.device_number(host);
        finish(host, device, request, timeout)
    }

    /// A control transfer on the device's endpoint 0 that sends data, of which there are at most
    /// 65535 bytes, started and awaited. Where memory is wanting nothing has changed.
    ///
    /// # Errors
    ///
    /// The status of the transfer, where that is one.
    pub fn control_out(
        &self,
        host: &mut Host,
        setup: ControlOut<'_>,
        timeout: u64,
    ) -> Result<(), Fail<TransferError>>
        requires stands { StandsDevice host.old self.now }
        requires short { length setup.bytes.now < 2 ^ 16 }
        ensures answer { ForSome (value_at host.old.devices self.now) (λ o.
            Answers (result_map (λ _. []) result)
            (control_answered host.old o.device (request_out setup.entry) timeout)) }
        ensures host { ForSome (value_at host.old.devices self.now) (λ o.
            Leaves result host.new
            (controlled host.old o.device (request_out setup.entry) timeout) host.old) }
        ensures stands { StandsDevice host.new self.now }
        ensures handles { HandlesStand host.old host.new }
    {
        let Ok(request) = TransferData::new_control_out(host.allocator(), setup) else {
            return Err(Fail::Memory);
        };
        let device = self.device_number(host);
        match finish(host, device, request, timeout) {
            Ok(_) => Ok(()),
            Err(error) => Err(error),
        }
    }
}

impl Interface {
    /// Starts a control transfer on the endpoint 0 of the interface's device whose data come from
    /// the device (USB 2.0, section 9.3). Its deadline is `timeout` nanoseconds away, of which those
    /// of a day count at most (`deadline_after`, Timers.antt of usb_kernel): the first turn of the
    /// kernel's timer from then on discards it, if it is unfinished. An `Err` is want of memory, and
    /// then nothing has changed.
    pub fn start_control_in(
        &self,
        host: &mut Host,
        setup: ControlIn,
        timeout: u64,
    ) -> Result<TransferFuture, NoMemory>
        requires stands { StandsInterface host.old self.now }
        ensures future { IfOk result (λ f. f ≡ fresh_future host.old (request_in setup) timeout) }
        ensures ok { ForSome (value_at host.old.interfaces self.now.key) (λ c.
            OnOk result (host.new ≡ request_started host.old c.device (request_in setup) timeout)) }
        ensures err { OnErr result (host.new ≡ host.old) }
        ensures future_stands { IfOk result (StandsFuture host.new) }
        ensures stands { StandsInterface host.new self.now }
        ensures handles { HandlesStand host.old host.new }
    {
        let request = TransferData::new_control_in(host.allocator(), setup)?;
        let device = self.device_number(host);
        start(host, device, request, timeout)
    }

    /// Starts a control transfer on the endpoint 0 of the interface's device that sends data, of
    /// which there are at most 65535 bytes, as `start_control_in`.
    pub fn start_control_out(
        &self,
        host: &mut Host,
        setup: ControlOut<'_>,
        timeout: u64,
    ) -> Result<TransferFuture, NoMemory>
        requires stands { StandsInterface host.old self.now }
        requires short { length setup.bytes.now < 2 ^ 16 }
        ensures future { IfOk result (λ f.
            f ≡ fresh_future host.old (request_out setup.entry) timeout) }
        ensures ok { ForSome (value_at host.old.interfaces self.now.key) (λ c.
            OnOk result (host.new
            ≡ request_started host.old c.device (request_out setup.entry) timeout)) }
        ensures err { OnErr result (host.new ≡ host.old) }
        ensures future_stands { IfOk result (StandsFuture host.new) }
        ensures stands { StandsInterface host.new self.now }
        ensures handles { HandlesStand host.old host.new }
    {
        let request = TransferData::new_control_out(host.allocator(), setup)?;
        let device = self.device_number(host);
        start(host, device, request, timeout)
    }

    /// A control transfer on the endpoint 0 of the interface's device whose data come from the
    /// device, started and awaited. Where memory is wanting nothing has changed.
    ///
    /// # Errors
    ///
    /// The status of the transfer, where that is one.
    pub fn control_in(
        &self,
        host: &mut Host,
        setup: ControlIn,
        timeout: u64,
    ) -> Result<Vec<u8>, Fail<TransferError>>
        requires stands { StandsInterface host.old self.now }
        ensures answer { ForSome (value_at host.old.interfaces self.now.key) (λ c.
            Answers (result_map (λ bytes. bytes.items) result)
            (control_answered host.old c.device (request_in setup) timeout)) }
        ensures host { ForSome (value_at host.old.interfaces self.now.key) (λ c.
            Leaves result host.new (controlled host.old c.device (request_in setup) timeout)
            host.old) }
        ensures stands { StandsInterface host.new self.now }
        ensures handles { HandlesStand host.old host.new }
    {
        let Ok(request) = TransferData::new_control_in(host.allocator(), setup) else {
            return Err(Fail::Memory);
        };
        let device = self.device_number(host);
        finish(host, device, request, timeout)
    }

    /// A control transfer on the endpoint 0 of the interface's device that sends data, of which
    /// there are at most 65535 bytes, started and awaited. Where memory is wanting nothing has
    /// changed.
    ///
    /// # Errors
    ///
    /// The status of the transfer, where that is one.
    pub fn control_out(
        &self,
        host: &mut Host,
        setup: ControlOut<'_>,
        timeout: u64,
    ) -> Result<(), Fail<TransferError>>
        requires stands { StandsInterface host.old self.now }
        requires short { length setup.bytes.now < 2 ^ 16 }
        ensures answer { ForSome (value_at host.old.interfaces self.now.key) (λ c.
            Answers (result_map (λ _. []) result)
            (control_answered host.old c.device (request_out setup.entry) timeout)) }
        ensures host { ForSome (value_at host.old.interfaces self.now.key) (λ c.
            Leaves result host.new
            (controlled host.old c.device (request_out setup.entry) timeout) host.old) }
        ensures stands { StandsInterface host.new self.now }
        ensures handles { HandlesStand host.old host.new }
    {
        let Ok(request) = TransferData::new_control_out(host.allocator(), setup) else {
            return Err(Fail::Memory);
        };
        let device = self.device_number(host);
        match finish(host, device, request, timeout) {
            Ok(_) => Ok(()),
            Err(error) => Err(error),
        }
    }
}
