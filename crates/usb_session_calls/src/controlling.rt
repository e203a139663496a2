//! `ctlin` and `ctlout`: a control transfer of a device or of an interface.

ghost use Rattle.std.specs.Prelude.{◌≡◌, ◌<◌, ◌^◌, length, IfOk};
ghost use Rattle.usb_kernel.specs.Tickets.{tickets};
ghost use Rattle.usb_error.specs.Outcomes.{result_map};
ghost use Rattle.usb_device.specs.ControlCalls.{controlled, control_answered};
ghost use Rattle.usb_session_text.specs.Controls.{received_line, sent_line};
ghost use Rattle.usb_session_calls.specs.Controls.{bars_control, request_for, request_with, came_line};
ghost use Rattle.usb_session_calls.specs.TargetCalls.{DevicesStand, InterfacesStand, KeepsHandles, TargetAnswers, number_of_target, as_tried};

use crate::open_at;
use usb_desc::{Fail, NoMemory};
use usb_device::{Device, Host, Interface};
use usb_script_lines::{ControlTarget, Setup, Timeout};
use usb_session_streams::MOST_UNREAPED;
use usb_session_text::{write_condition, write_received, write_sent};

/// Whether a control transfer is barred: too many tickets are unreaped.
pub fn bars_control(host: &Host) -> bool
    ensures barred { result ≡ bars_control host.now.kernel.past }
    ensures count { length host.now.tickets ≡ length (tickets host.now.kernel.past) }
{
    let _count = host.tickets();
    host.kernel().unreaped() >= MOST_UNREAPED
}

/// What a call answered, unless it lacked memory.
pub fn answer_of<T, E>(tried: Result<T, Fail<E>>) -> Result<Result<T, E>, NoMemory>
    ensures answer { IfOk result (λ answer. tried ≡ as_tried answer) }
{
    match tried {
        Ok(value) => Ok(Ok(value)),
        Err(Fail::Cause(error)) => Ok(Err(error)),
        Err(Fail::Memory) => Err(NoMemory),
    }
}

/// Asks a device or an interface that is open for so many bytes.
pub(crate) fn control_in_open(
    devices: &[Option<Device>],
    interfaces: &[Option<Interface>],
    host: &mut Host,
    line: &mut String,
    target: ControlTarget,
    setup: Setup,
    wanted: u16,
    timeout: Timeout,
) -> Result<(), NoMemory>
    requires devices { DevicesStand host.old devices.now }
    requires interfaces { InterfacesStand host.old interfaces.now }
    ensures keeps { KeepsHandles host.old host.new }
    ensures answered { TargetAnswers host.old host.new line.old line.new result
        (λ h d. controlled h d (request_for setup wanted) timeout)
        (λ h d. came_line received_line (control_answered h d (request_for setup wanted) timeout))
        (number_of_target host.old devices.now interfaces.now target) }
{
    if bars_control(host) {
        return write_condition(line);
    }
    let request = setup.control_in(wanted);
    match target {
        ControlTarget::Device(name) => {
            let Some(device) = open_at(devices, name.number()) else {
                return write_condition(line);
            };
            let tried = device.control_in(host, request, timeout.nanoseconds());
            write_received(line, &answer_of(tried)?)
        }
        ControlTarget::Interface(name) => {
            let Some(interface) = open_at(interfaces, name.number()) else {
                return write_condition(line);
            };
            let tried = interface.control_in(host, request, timeout.nanoseconds());
            write_received(line, &answer_of(tried)?)
        }
    }
}

/// Sends these bytes to a device or to an interface that is open.
pub(crate) fn control_out_open(
    devices: &[Option<Device>],
    interfaces: &[Option<Interface>],
    host: &mut Host,
    line: &mut String,
    target: ControlTarget,
    setup: Setup,
    bytes: &[u8],
    timeout: Timeout,
) -> Result<(), NoMemory>
    requires devices { DevicesStand host.old devices.now }
    requires interfaces { InterfacesStand host.old interfaces.now }
    requires short { length bytes.now < 2 ^ 16 }
    ensures keeps { KeepsHandles host.old host.new }
    ensures answered { TargetAnswers host.old host.new line.old line.new result
        (λ h d. controlled h d (request_with setup bytes.now) timeout)
        (λ h d. came_line (λ r. sent_line (result_map (λ _. tt) r))
        (control_answered h d (request_with setup bytes.now) timeout))
        (number_of_target host.old devices.now interfaces.now target) }
{
    if bars_control(host) {
        return write_condition(line);
    }
    let request = setup.control_out(bytes);
    match target {
        ControlTarget::Device(name) => {
            let Some(device) = open_at(devices, name.number()) else {
                return write_condition(line);
            };
            let tried = device.control_out(host, request, timeout.nanoseconds());
            write_sent(line, &answer_of(tried)?)
        }
        ControlTarget::Interface(name) => {
            let Some(interface) = open_at(interfaces, name.number()) else {
                return write_condition(line);
            };
            let tried = interface.control_out(host, request, timeout.nanoseconds());
            write_sent(line, &answer_of(tried)?)
        }
    }
}
