//! The word `check`: a trace that is read and checked, and the line of its verdict.

ghost use Rattle.std.specs.Prelude.{◌≡◌, IfOk, IfErr, OnOk, IsErrOf, string_bytes};
ghost use Rattle.usb_session_run.specs.Causes.{FailedLast, RoseByOne, TookAtMost, EndsReading};
ghost use Rattle.usb_session_run.specs.Checks.{verdict_line, ReadVerdict, HasNoVerdict, IsChecked, IsUnchecked};
ghost use Rattle.usb_session_run.specs.Session.{streams};

use crate::outside::{Sink, Source};
use crate::reading::read_whole;
use crate::writing::offer;
use std::alloc::{AllocError, Global};
use usb_script::SessionError;
use usb_trace::{TraceError, Verdict, check_trace};

/// How many bytes a text has at most that is checked.
const MAX_TEXT: usize = 16777216;

/// The line of a verdict.
fn verdict_line(alloc: Global, verdict: Verdict) -> Result<String, AllocError>
    ensures text { IfOk result (λ line. string_bytes line ≡ verdict_line verdict) }
{
    match verdict {
        Verdict::Yes => String::from_str(alloc, "yes\n"),
        Verdict::No { line } => format!(in alloc; "no {line}\n"),
    }
}

/// Reads a text to its end, at most 2^24 + 1 bytes, and gives the verdict on it.
fn check_source<S: Source>(alloc: Global, source: &mut S) -> Result<Verdict, SessionError>
    requires goes_on { ¬ (S.has_ended source.old) }
    ensures ok { IfOk result (ReadVerdict (S.left source.old) (S.left source.new)) }
    ensures err { IfErr result (HasNoVerdict (S.left source.old) (S.left source.new)
        (S.faults source.old) (S.faults source.new)) }
    ensures stops { IsErrOf result SessionError.ReadFault →
        FailedLast (S.faults source.old) (S.faults source.new) (S.has_failed source.new) }
    ensures ends { EndsReading (S.has_ended source.new) result }
    ensures most { TookAtMost 16777217 (S.left source.old) (S.left source.new) }
    ensures spares { IsErrOf result SessionError.ReadFault →
        TookAtMost 16777216 (S.left source.old) (S.left source.new) }
{
    let text = read_whole(alloc, source, MAX_TEXT)?;
    match check_trace(alloc, text.as_slice()) {
        Ok(verdict) => Ok(verdict),
        Err(TraceError::Malformed { line }) => Err(SessionError::Malformed { line }),
        Err(TraceError::Memory) => Err(SessionError::Memory),
    }
}

/// Reads a text to its end, at most 2^24 + 1 bytes, and writes the line of the verdict on it.
/// Nothing is written before the whole text was read and checked.
pub(crate) fn check<S: Source, K: Sink>(
    alloc: Global,
    source: &mut S,
    sink: &mut K,
) -> Result<Verdict, SessionError>
    requires goes_on { ¬ (S.has_ended source.old) }
    ensures ok { IfOk result (IsChecked
        (streams S.left S.faults K.written K.faults source.old sink.old)
        (streams S.left S.faults K.written K.faults source.new sink.new)) }
    ensures err { IfErr result (IsUnchecked
        (streams S.left S.faults K.written K.faults source.old sink.old)
        (streams S.left S.faults K.written K.faults source.new sink.new)) }
    ensures stops { IsErrOf result SessionError.ReadFault →
        FailedLast (S.faults source.old) (S.faults source.new) (S.has_failed source.new) }
    ensures ends { EndsReading (S.has_ended source.new) result }
    ensures most { TookAtMost 16777217 (S.left source.old) (S.left source.new) }
    ensures spares { IsErrOf result SessionError.ReadFault →
        TookAtMost 16777216 (S.left source.old) (S.left source.new) }
    ensures once { IsErrOf result SessionError.WriteFault →
        RoseByOne (K.faults sink.old) (K.faults sink.new) }
    ensures stops_writing { IsErrOf result SessionError.WriteFault →
        FailedLast (K.faults sink.old) (K.faults sink.new) (K.has_failed sink.new) }
    ensures quiet { OnOk result (K.faults sink.new ≡ K.faults sink.old) }
{
    let verdict = check_source(alloc, source)?;
    let Ok(line) = verdict_line(alloc, verdict) else {
        return Err(SessionError::Memory);
    };
    match offer(sink, line.as_bytes()) {
        Ok(()) => Ok(verdict),
        Err(_) => Err(SessionError::WriteFault),
    }
}
