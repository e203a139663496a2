//! `claim` and `detachclaim`: an interface of an open device is claimed.

ghost use Rattle.std.specs.Prelude.{◌≡◌, OnOk, IfOk, string_bytes};
ghost use Rattle.usb_kernel.specs.Extends.{Extends};
ghost use Rattle.usb_device_host.specs.HandleStates.{StandsDevice, StandsInterface};
ghost use Rattle.usb_device.specs.HandleCalls.{ClaimsInterface};
ghost use Rattle.usb_session_calls.specs.State.{State};
ghost use Rattle.usb_session_calls.specs.Answered.{Answers};
ghost use Rattle.usb_session.specs.Claims.{claim_answer};

use crate::session::Session;
use usb_desc::{Fail, NoMemory};
use usb_device::{Device, Host, Interface};
use usb_error::Error;
use usb_script_lines::Name;
use usb_session_calls::{is_free, open_at, put_at};
use usb_session_text::{write_condition, write_error, write_ok};

/// Claims an interface of a device, with its driver detached and noted, or as it is.
fn claim_of(
    host: &mut Host,
    device: &Device,
    number: u8,
    reattach: bool,
) -> Result<Interface, Fail<Error>>
    requires stands { StandsDevice host.old device.now }
    ensures claims { ClaimsInterface host.old host.new device.now number reattach result }
    ensures stands { IfOk result (StandsInterface host.new) }
{
    if reattach {
        device.detach_and_claim_interface(host, number)
    } else {
        device.claim_interface(host, number)
    }
}

impl Session {
    /// `claim` and `detachclaim`: an interface of an open device is claimed under a name that is
    /// free.
    pub(crate) fn claim(
        &mut self,
        line: &mut String,
        device: Name,
        number: u8,
        name: Name,
        reattach: bool,
    ) -> Result<(), NoMemory>
        ensures answered { Answers self.old self.new line.old line.new result
            (λ state. claim_answer state device number name reattach) }
        ensures spare { self.new.host.kernel.spare ≡ self.old.host.kernel.spare }
        ensures later { Extends self.old.host.kernel.past self.new.host.kernel.past }
    {
        let Some(device) = open_at(&self.devices, device.number()) else {
            return write_condition(line);
        };
        if !is_free(&self.interfaces, name.number()) {
            return write_condition(line);
        }
        match claim_of(&mut self.host, device, number, reattach) {
            Ok(interface) => {
                put_at(&mut self.interfaces, name.number(), interface);
                write_ok(line)
            }
            Err(Fail::Cause(error)) => write_error(line, &error),
            Err(Fail::Memory) => Err(NoMemory),
        }
    }
}
