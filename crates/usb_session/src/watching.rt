//! `hotplug`: the next packet of udev is looked at.

ghost use Rattle.std.specs.Prelude.{◌≡◌};
ghost use Rattle.usb_kernel.specs.Extends.{Extends};
ghost use Rattle.usb_session_calls.specs.Answered.{Answers};
ghost use Rattle.usb_session.specs.Hotplugs.{hotplug_answer};

use crate::session::Session;
use usb_desc::NoMemory;
use usb_session_tree::write_hotplug;

impl Session {
    /// `hotplug`: a device that came or went, by the next packet of udev, if there is one.
    pub(crate) fn hotplug(&mut self, line: &mut String) -> Result<(), NoMemory>
        ensures answered { Answers self.old self.new line.old line.new result hotplug_answer }
        ensures spare { self.new.host.kernel.spare ≡ self.old.host.kernel.spare }
        ensures later { Extends self.old.host.kernel.past self.new.host.kernel.past }
    {
        let event = self.watch.poll_next(&self.tree)?;
        write_hotplug(line, &event)
    }
}
