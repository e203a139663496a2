//! The steps of a line: they are put into the host, which applies them in order.

ghost use Rattle.std.specs.Prelude.{◌≡◌, ◌≤◌, ◌+◌, length};
ghost use Rattle.usb_kernel.specs.Extends.{Extends};
ghost use Rattle.usb_session_calls.specs.State.{State};
ghost use Rattle.usb_session_calls.specs.Steps.{stepped_all};
ghost use Rattle.usb_session_calls.specs.Relation.{Represents};

use crate::session::Session;
use usb_script_lines::Steps;

impl Session {
    /// Applies the steps of a line that has no call, in order.
    pub(crate) fn step_all(&mut self, steps: Steps)
        requires room { length steps ≤ self.old.host.kernel.spare }
        ensures stands { (state : State) → Represents self.old state →
            Represents self.new (stepped_all state steps) }
        ensures spare { self.new.host.kernel.spare + length steps ≡ self.old.host.kernel.spare }
        ensures later { Extends self.old.host.kernel.past self.new.host.kernel.past }
    {
        self.host.lend_steps(steps.into_vec());
        self.host.rest();
    }
}
