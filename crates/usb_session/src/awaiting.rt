//! `fin`, `fout`, `fpoll` and `fwait`: control transfers on their way.

ghost use Rattle.std.specs.Prelude.{◌≡◌, ◌≤◌, ◌<◌, ◌+◌, ◌^◌, length, IfOk, OnOk, OnErr};
ghost use Rattle.std.specs.Option.{ForSome};
ghost use Rattle.usb_kernel.specs.Extends.{Extends};
ghost use Rattle.usb_kernel.specs.Tickets.{tickets};
ghost use Rattle.usb_device.specs.Futures.{StandsFuture};
ghost use Rattle.usb_session_calls.specs.Controls.{request_for, request_with};
ghost use Rattle.usb_session.specs.Futures.{start_answer, on_future};
ghost use Rattle.usb_session_calls.specs.Answered.{Answers};
ghost use Rattle.usb_session_calls.specs.TargetCalls.{DevicesStand, InterfacesStand, number_of_target, started_host, started_future};

use crate::session::Session;
use futures::task::Poll;
use usb_desc::NoMemory;
use usb_device::{Device, Host, Interface, TransferFuture};
use usb_script_lines::{ControlData, ControlTarget, Name, Setup, Steps, Timeout};
use usb_session_calls::{FutureCall, bars_control, is_free, open_at, put_at, take_at};
use usb_session_text::{write_condition, write_ok, write_pending, write_received};

/// Starts to ask a device or an interface for so many bytes, where it is open.
fn start_in_open(
    devices: &[Option<Device>],
    interfaces: &[Option<Interface>],
    host: &mut Host,
    target: ControlTarget,
    setup: Setup,
    wanted: u16,
    timeout: Timeout,
) -> Result<Option<TransferFuture>, NoMemory>
    requires devices { DevicesStand host.old devices.now }
    requires interfaces { InterfacesStand host.old interfaces.now }
    ensures future { IfOk result (λ future. future
        ≡ started_future host.old (request_for setup wanted) timeout
        (number_of_target host.old devices.now interfaces.now target)) }
    ensures ok { OnOk result (host.new ≡ started_host host.old (request_for setup wanted) timeout
        (number_of_target host.old devices.now interfaces.now target)) }
    ensures err { OnErr result (host.new ≡ host.old) }
    ensures stands { IfOk result (λ future. ForSome future (StandsFuture host.new)) }
{
    let request = setup.control_in(wanted);
    match target {
        ControlTarget::Device(name) => {
            let Some(device) = open_at(devices, name.number()) else {
                return Ok(None);
            };
            let future = device.start_control_in(host, request, timeout.nanoseconds())?;
            Ok(Some(future))
        }
        ControlTarget::Interface(name) => {
            let Some(interface) = open_at(interfaces, name.number()) else {
                return Ok(None);
            };
            let future = interface.start_control_in(host, request, timeout.nanoseconds())?;
            Ok(Some(future))
        }
    }
}

/// Starts to send these bytes to a device or to an interface, where it is open.
fn start_out_open(
    devices: &[Option<Device>],
    interfaces: &[Option<Interface>],
    host: &mut Host,
    target: ControlTarget,
    setup: Setup,
    bytes: &[u8],
    timeout: Timeout,
) -> Result<Option<TransferFuture>, NoMemory>
    requires devices { DevicesStand host.old devices.now }
    requires interfaces { InterfacesStand host.old interfaces.now }
    requires short { length bytes.now < 2 ^ 16 }
    ensures future { IfOk result (λ future. future
        ≡ started_future host.old (request_with setup bytes.now) timeout
        (number_of_target host.old devices.now interfaces.now target)) }
    ensures ok { OnOk result (host.new ≡ started_host host.old (request_with setup bytes.now)
        timeout (number_of_target host.old devices.now interfaces.now target)) }
    ensures err { OnErr result (host.new ≡ host.old) }
    ensures stands { IfOk result (λ future. ForSome future (StandsFuture host.new)) }
{
    let request = setup.control_out(bytes);
    match target {
        ControlTarget::Device(name) => {
            let Some(device) = open_at(devices, name.number()) else {
                return Ok(None);
            };
            let future = device.start_control_out(host, request, timeout.nanoseconds())?;
            Ok(Some(future))
        }
        ControlTarget::Interface(name) => {
            let Some(interface) = open_at(interfaces, name.number()) else {
                return Ok(None);
            };
            let future = interface.start_control_out(host, request, timeout.nanoseconds())?;
            Ok(Some(future))
        }
    }
}

impl Session {
    /// `fin`: a device is asked for so many bytes, and the future is open under a name that is free.
    pub(crate) fn start_control_in(
        &mut self,
        line: &mut String,
        name: Name,
        target: ControlTarget,
        setup: Setup,
        wanted: u16,
        timeout: Timeout,
    ) -> Result<(), NoMemory>
        ensures answered { Answers self.old self.new line.old line.new result
            (λ state. start_answer state name target (request_for setup wanted) timeout) }
        ensures spare { self.new.host.kernel.spare ≡ self.old.host.kernel.spare }
        ensures later { Extends self.old.host.kernel.past self.new.host.kernel.past }
    {
        if bars_control(&self.host) {
            return write_condition(line);
        }
        if !is_free(&self.futures, name.number()) {
            return write_condition(line);
        }
        let Some(future) = start_in_open(
            &self.devices,
            &self.interfaces,
            &mut self.host,
            target,
            setup,
            wanted,
            timeout,
        )?
        else {
            return write_condition(line);
        };
        put_at(&mut self.futures, name.number(), future);
        write_ok(line)
    }

    /// `fout`: these bytes are sent to a device, and the future is open under a name that is free.
    pub(crate) fn start_control_out(
        &mut self,
        line: &mut String,
        name: Name,
        target: ControlTarget,
        setup: Setup,
        bytes: ControlData,
        timeout: Timeout,
    ) -> Result<(), NoMemory>
        ensures answered { Answers self.old self.new line.old line.new result
            (λ state. start_answer state name target (request_with setup bytes) timeout) }
        ensures spare { self.new.host.kernel.spare ≡ self.old.host.kernel.spare }
        ensures later { Extends self.old.host.kernel.past self.new.host.kernel.past }
    {
        if bars_control(&self.host) {
            return write_condition(line);
        }
        if !is_free(&self.futures, name.number()) {
            return write_condition(line);
        }
        let Some(future) = start_out_open(
            &self.devices,
            &self.interfaces,
            &mut self.host,
            target,
            setup,
            bytes.as_slice(),
            timeout,
        )?
        else {
            return write_condition(line);
        };
        put_at(&mut self.futures, name.number(), future);
        write_ok(line)
    }

    /// `fpoll`: the answer of a future is taken, where its transfer is reaped, and its name is free.
    pub(crate) fn poll_future(&mut self, line: &mut String, name: Name) -> Result<(), NoMemory>
        ensures answered { Answers self.old self.new line.old line.new result
            (λ state. on_future state name FutureCall.Poll) }
        ensures spare { self.new.host.kernel.spare ≡ self.old.host.kernel.spare }
        ensures later { Extends self.old.host.kernel.past self.new.host.kernel.past }
    {
        let number = name.number();
        let Some(mut future) = take_at(&mut self.futures, number) else {
            return write_condition(line);
        };
        let Poll::Ready(answer) = future.poll(&mut self.host) else {
            put_at(&mut self.futures, number, future);
            return write_pending(line);
        };
        future.close(&mut self.host);
        write_received(line, &answer)
    }

    /// `fwait`: the answer of a future is waited for and taken, and its name is free. The steps are
    /// applied meanwhile, and those that are left right after it.
    pub(crate) fn wait_future(
        &mut self,
        line: &mut String,
        name: Name,
        steps: Steps,
    ) -> Result<(), NoMemory>
        requires room { length steps ≤ self.old.host.kernel.spare }
        ensures answered { Answers self.old self.new line.old line.new result
            (λ state. on_future state name (FutureCall.Wait steps)) }
        ensures spare { self.new.host.kernel.spare + length steps ≡ self.old.host.kernel.spare }
        ensures later { Extends self.old.host.kernel.past self.new.host.kernel.past }
    {
        self.host.lend_steps(steps.into_vec());
        let Some(future) = take_at(&mut self.futures, name.number()) else {
            self.host.rest();
            return write_condition(line);
        };
        let answer = future.wait(&mut self.host);
        self.host.rest();
        write_received(line, &answer)
    }
}
