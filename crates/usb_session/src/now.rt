//! `now`: the time on the clock.

ghost use Rattle.std.specs.Prelude.{◌≡◌, OnOk, string_bytes};
ghost use Rattle.usb_session_calls.specs.State.{State};
ghost use Rattle.usb_session_calls.specs.Answered.{Answers};
ghost use Rattle.usb_session_text.specs.Completions.{now_line};
ghost use Rattle.usb_session_calls.specs.Answer.{answer_with};

use crate::session::Session;
use usb_desc::NoMemory;
use usb_session_text::write_now;

impl Session {
    /// `now`: the time on the kernel's clock.
    pub(crate) fn now(&self, line: &mut String) -> Result<(), NoMemory>
        ensures answered { Answers self.now self.now line.old line.new result
            (λ state. answer_with state (now_line state.host.kernel.clock)) }
    {
        write_now(line, self.host.kernel().now())
    }
}
