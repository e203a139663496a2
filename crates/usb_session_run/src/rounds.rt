//! The word `disk`: rounds of commands at a disk, and their line.

ghost use Rattle.std.specs.Prelude.{◌≡◌, ◌≤◌, IfOk, IsErrOf, string_bytes};
ghost use Rattle.usb_session_run.specs.Causes.{FailedLast};
ghost use Rattle.usb_session_run.specs.Disk.{tally_line, disk_line};
ghost use Rattle.usb_session_run.specs.OneLine.{WroteLine};

use crate::outside::Sink;
use crate::writing::offer;
use std::alloc::{AllocError, Global};
use usb_bot_rounds::{Tally, run_rounds};
use usb_script::SessionError;

/// The line of rounds.
#[tactic(auto, unfolding(crate::specs::Disk::tally_line))]
fn tally_line(alloc: Global, n: u32, tally: Tally) -> Result<String, AllocError>
    ensures text { IfOk result (λ line. string_bytes line ≡ tally_line n tally) }
{
    let Tally {
        writes,
        reads,
        failed,
        sum,
    } = tally;
    format!(in alloc; "disk {n} writes {writes} reads {reads} failed {failed} sum {sum}\n")
}

/// Runs n rounds of commands at a new disk, and writes the line of their tally.
pub(crate) fn run_disk<K: Sink>(alloc: Global, n: u32, sink: &mut K) -> Result<(), SessionError>
    requires few { n ≤ 500 }
    ensures wrote { WroteLine (disk_line n) (K.written sink.old) (K.written sink.new)
        (K.faults sink.old) (K.faults sink.new) result }
    // After a write that failed nothing more is offered to the sink.
    ensures stops { IsErrOf result SessionError.WriteFault →
        FailedLast (K.faults sink.old) (K.faults sink.new) (K.has_failed sink.new) }
{
    let Ok(tally) = run_rounds(alloc, n) else {
        return Err(SessionError::Memory);
    };
    let Ok(line) = tally_line(alloc, n, tally) else {
        return Err(SessionError::Memory);
    };
    match offer(sink, line.as_bytes()) {
        Ok(()) => Ok(()),
        Err(_) => Err(SessionError::WriteFault),
    }
}
