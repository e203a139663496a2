//! `open` and `openpath`: a device is opened at its bus and address.

ghost use Rattle.std.specs.Prelude.{◌≡◌, true};
ghost use Rattle.usb_kernel.specs.Extends.{Extends};
ghost use Rattle.usb_session_calls.specs.State.{State};
ghost use Rattle.usb_session_calls.specs.Answered.{Answers};
ghost use Rattle.usb_session_calls.specs.Names.{is_free};
ghost use Rattle.usb_session.specs.Opens.{open_answer, open_path_answer};

use crate::session::Session;
use usb_desc::{Fail, NoMemory};
use usb_device::Device;
use usb_enum::DeviceInfo;
use usb_script_lines::{Name, Path};
use usb_session_calls::{is_free, put_at};
use usb_session_text::{write_condition, write_error, write_ok};
use usb_session_tree::{probe_at, write_sysfs_error};

impl Session {
    /// `open`: the first plugged device at an address of a bus is opened under a name that is free.
    pub(crate) fn open(
        &mut self,
        line: &mut String,
        name: Name,
        bus: u8,
        address: u8,
    ) -> Result<(), NoMemory>
        ensures answered { Answers self.old self.new line.old line.new result
            (λ state. open_answer state name bus address) }
        ensures spare { self.new.host.kernel.spare ≡ self.old.host.kernel.spare }
        ensures later { Extends self.old.host.kernel.past self.new.host.kernel.past }
    {
        if !is_free(&self.devices, name.number()) {
            return write_condition(line);
        }
        match Device::open_at(&mut self.host, bus, address) {
            Ok(device) => {
                put_at(&mut self.devices, name.number(), device);
                write_ok(line)
            }
            Err(Fail::Cause(error)) => write_error(line, &error),
            Err(Fail::Memory) => Err(NoMemory),
        }
    }

    /// A device that was found is opened under a name that is free.
    fn open_found(
        &mut self,
        line: &mut String,
        name: Name,
        found: &DeviceInfo,
    ) -> Result<(), NoMemory>
        requires free { is_free self.old.devices name ≡ true }
        ensures answered { Answers self.old self.new line.old line.new result
            (λ state. open_answer state name
            found.now.numbers.busnum found.now.numbers.address) }
        ensures spare { self.new.host.kernel.spare ≡ self.old.host.kernel.spare }
        ensures later { Extends self.old.host.kernel.past self.new.host.kernel.past }
    {
        match found.open(&mut self.host) {
            Ok(device) => {
                put_at(&mut self.devices, name.number(), device);
                write_ok(line)
            }
            Err(Fail::Cause(error)) => write_error(line, &error),
            Err(Fail::Memory) => Err(NoMemory),
        }
    }

    /// `openpath`: the device that a folder tells of is opened under a name that is free, or the
    /// attribute that gave no value is told.
    pub(crate) fn open_path(
        &mut self,
        line: &mut String,
        name: Name,
        path: &Path,
    ) -> Result<(), NoMemory>
        ensures answered { Answers self.old self.new line.old line.new result
            (λ state. open_path_answer state name path.now) }
        ensures spare { self.new.host.kernel.spare ≡ self.old.host.kernel.spare }
        ensures later { Extends self.old.host.kernel.past self.new.host.kernel.past }
    {
        if !is_free(&self.devices, name.number()) {
            return write_condition(line);
        }
        match probe_at(*line.allocator(), &self.tree, path) {
            Ok(found) => self.open_found(line, name, &found),
            Err(Fail::Cause(error)) => write_sysfs_error(line, &error),
            Err(Fail::Memory) => Err(NoMemory),
        }
    }
}
