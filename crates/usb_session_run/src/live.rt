//! The word `live`: a run on two threads, and its line.

ghost use Rattle.std.specs.Prelude.{◌≡◌, IfOk, IsErrOf, string_bytes};
ghost use Rattle.usb_session_run.specs.Causes.{FailedLast};
ghost use Rattle.usb_session_run.specs.Live.{run_line, live_line};
ghost use Rattle.usb_session_run.specs.OneLine.{WroteLine};

use crate::outside::Sink;
use crate::writing::offer;
use std::alloc::{AllocError, Global};
use std::sync::Wait;
use std::thread::Threads;
use usb_live::{Gate, Seen, live_run};
use usb_script::SessionError;

/// The line of a run.
#[tactic(auto, unfolding(crate::specs::Live::run_line))]
fn run_line(
    alloc: Global,
    n: u32,
    submitted: u64,
    taken: u64,
    dropped: u64,
    reclaimed: u64,
) -> Result<String, AllocError>
    ensures text { IfOk result
        (λ line. string_bytes line ≡ run_line n submitted taken dropped reclaimed) }
{
    format!(in alloc;
        "live {n} submitted {submitted} taken {taken} dropped {dropped} reclaimed {reclaimed}\n"
    )
}

/// Runs n transfers on two threads, and writes the line of its tallies.
pub(crate) fn live<R: Threads + Wait + Sync, K: Sink, G: Gate + Send>(
    rt: &R,
    alloc: Global,
    n: u32,
    sink: &mut K,
    gate: G,
    seen: &Seen,
) -> Result<(), SessionError>
    ensures wrote { WroteLine (live_line n) (K.written sink.old) (K.written sink.new)
        (K.faults sink.old) (K.faults sink.new) result }
    // After a write that failed nothing more is offered to the sink.
    ensures stops { IsErrOf result SessionError.WriteFault →
        FailedLast (K.faults sink.old) (K.faults sink.new) (K.has_failed sink.new) }
{
    let Ok(run) = live_run(rt, alloc, n, gate, seen, None) else {
        return Err(SessionError::Memory);
    };
    let Ok(line) = run_line(
        alloc,
        n,
        run.submitted,
        run.taken,
        run.dropped,
        run.reclaimed,
    ) else {
        return Err(SessionError::Memory);
    };
    match offer(sink, line.as_bytes()) {
        Ok(()) => Ok(()),
        Err(_) => Err(SessionError::WriteFault),
    }
}
