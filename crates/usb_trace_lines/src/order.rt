//! The order of the lines of a trace.

ghost use Rattle.std.specs.Prelude.{◌≡◌};
ghost use Rattle.usb_trace_lines.specs.Order.{next_phase};

use crate::line::TraceLine;

/// Where a trace stands: before its first line, among its events, among its fates, or behind its
/// last line.
#[derive(Clone, Copy, PartialEq, Eq)]
pub enum Phase {
    Start,
    Events,
    Fates,
    End,
}

impl Phase {
    /// Where it stands behind one line more, if that may stand there.
    pub fn behind(self, line: &TraceLine) -> Option<Phase>
        ensures phase { result ≡ next_phase self line.now }
    {
        match (self, line) {
            (Phase::Start, TraceLine::First) => Some(Phase::Events),
            (Phase::Events, TraceLine::Event(_)) => Some(Phase::Events),
            (Phase::Events, TraceLine::Fate(_)) => Some(Phase::Fates),
            (Phase::Fates, TraceLine::Fate(_)) => Some(Phase::Fates),
            (Phase::Events, TraceLine::Last) => Some(Phase::End),
            (Phase::Fates, TraceLine::Last) => Some(Phase::End),
            _ => None,
        }
    }
}
