//! `probe` and `match`: what a folder of the tree tells of a device.

ghost use Rattle.usb_session_calls.specs.Answered.{Answers};
ghost use Rattle.usb_session.specs.Probes.{probe_answer, match_answer};

use crate::session::Session;
use usb_desc::{Fail, NoMemory};
use usb_script_lines::{Path, Selector};
use usb_session_tree::{match_at, probe_at, write_info, write_match, write_sysfs_error};

impl Session {
    /// `probe`: what the folder tells of a device, or the attribute that gave no value.
    pub(crate) fn probe(&self, line: &mut String, path: &Path) -> Result<(), NoMemory>
        ensures answered { Answers self.now self.now line.old line.new result
            (λ state. probe_answer state path.now) }
    {
        match probe_at(*line.allocator(), &self.tree, path) {
            Ok(device) => write_info(line, &device),
            Err(Fail::Cause(error)) => write_sysfs_error(line, &error),
            Err(Fail::Memory) => Err(NoMemory),
        }
    }

    /// `match`: whether the device of the folder is one that is looked for, or the attribute that
    /// gave no value.
    pub(crate) fn match_device(
        &self,
        line: &mut String,
        path: &Path,
        selector: &Selector,
    ) -> Result<(), NoMemory>
        ensures answered { Answers self.now self.now line.old line.new result
            (λ state. match_answer state path.now selector.now) }
    {
        match match_at(*line.allocator(), &self.tree, path, selector) {
            Ok(is_match) => write_match(line, is_match),
            Err(Fail::Cause(error)) => write_sysfs_error(line, &error),
            Err(Fail::Memory) => Err(NoMemory),
        }
    }
}
