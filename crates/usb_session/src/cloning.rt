//! `clone`: one more handle of an open device, or of a claimed interface.

ghost use Rattle.std.specs.Prelude.{◌≡◌, OnOk, string_bytes};
ghost use Rattle.usb_kernel.specs.Extends.{Extends};
ghost use Rattle.usb_session_calls.specs.State.{State};
ghost use Rattle.usb_session_calls.specs.Answered.{Answers};
ghost use Rattle.usb_session_calls.specs.Clones.{clone_device_answer, clone_interface_answer};

use crate::session::Session;
use usb_desc::NoMemory;
use usb_script_lines::Name;
use usb_session_calls::{is_free, open_at, put_at};
use usb_session_text::{write_condition, write_ok};

impl Session {
    /// `clone`: one more handle of an open device, under a name that is free.
    pub(crate) fn clone_device(
        &mut self,
        line: &mut String,
        name: Name,
        device: Name,
    ) -> Result<(), NoMemory>
        ensures answered { Answers self.old self.new line.old line.new result
            (λ state. clone_device_answer state name device) }
        ensures spare { self.new.host.kernel.spare ≡ self.old.host.kernel.spare }
        ensures later { Extends self.old.host.kernel.past self.new.host.kernel.past }
    {
        let Some(device) = open_at(&self.devices, device.number()) else {
            return write_condition(line);
        };
        if !is_free(&self.devices, name.number()) {
            return write_condition(line);
        }
        let clone = device.clone_on(&mut self.host)?;
        put_at(&mut self.devices, name.number(), clone);
        write_ok(line)
    }

    /// `clone`: one more handle of a claimed interface, under a name that is free.
    pub(crate) fn clone_interface(
        &mut self,
        line: &mut String,
        name: Name,
        interface: Name,
    ) -> Result<(), NoMemory>
        ensures answered { Answers self.old self.new line.old line.new result
            (λ state. clone_interface_answer state name interface) }
        ensures spare { self.new.host.kernel.spare ≡ self.old.host.kernel.spare }
        ensures later { Extends self.old.host.kernel.past self.new.host.kernel.past }
    {
        let Some(interface) = open_at(&self.interfaces, interface.number()) else {
            return write_condition(line);
        };
        if !is_free(&self.interfaces, name.number()) {
            return write_condition(line);
        }
        let clone = interface.clone_on(&mut self.host)?;
        put_at(&mut self.interfaces, name.number(), clone);
        write_ok(line)
    }
}
