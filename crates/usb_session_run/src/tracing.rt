//! The word `trace`: a script that is run, and the trace of its journal.

ghost use Rattle.std.specs.Prelude.{◌≡◌, ◌≤◌, ◌+◌, ◌++◌, ◌∷◌, [], length, reverse, vec_capacity, IfOk, IfErr, OnOk, OnErr, IsErrOf};
ghost use Rattle.std.specs.List.{All};
ghost use Rattle.std.specs.Io.KnownBytes.{Appends, Keeps};
ghost use Rattle.usb_kernel.specs.Legal.{IsLawful};
ghost use Rattle.usb_session.specs.Output.{final_host};
ghost use Rattle.usb_trace_lines.specs.Directions.{IsDirected};
ghost use Rattle.usb_trace_lines.specs.Forms.{IsSized};
ghost use Rattle.usb_trace_lines.specs.Texts.{trace};
ghost use Rattle.usb_trace_lines.specs.Written.{LinesState, begun_with, ended_line, HasWritten, HasStopped};
ghost use Rattle.usb_trace.specs.Verdicts.{IsTrace};
ghost use Rattle.usb_session_run.specs.Causes.{CountsFaults, FailedLast, Rose, RoseByOne, TookAtMost, EndsReading, WrotePart, IsWritingError};
ghost use Rattle.usb_session_run.specs.Session.{streams};
ghost use Rattle.usb_session_run.specs.Traces.{IsTraced, IsUntraced, WroteTrace};

use crate::outside::{Failed, Sink, Source};
use crate::reading::read_whole;
use crate::run::{Ran, run_script};
use crate::sure::SureSink;
use crate::writing::offer;
use std::alloc::{AllocError, Global};
use usb_kernel::Kernel;
use usb_script::{MAX_SCRIPT, Script, SessionError, parse_script};
use usb_trace::{Failed as LinesFailed, Lines, MAX_LINE, typed_is_trace, write_trace};

/// A line that is begun, with room for the longest and its LF.
#[derive(Drop)]
struct LineBuffer {
    bytes: Vec<u8>,
    ghost room: { 140001 ≤ vec_capacity bytes },
    ghost few: { length bytes.items ≤ 140000 },
}

impl LineBuffer {
    /// One with no byte in it.
    fn new(alloc: Global) -> Result<LineBuffer, AllocError>
        ensures empty { IfOk result (λ line. line.bytes.items ≡ []) }
    {
        let bytes = Vec::with_capacity(alloc, MAX_LINE + 1)?;
        Ok(LineBuffer { bytes })
    }

    /// Appends bytes.
    fn put(&mut self, bytes: &[u8])
        requires room { length self.old.bytes.items + length bytes.now ≤ 140000 }
        ensures more { self.new.bytes.items ≡ self.old.bytes.items ++ bytes.now }
    {
        let _ = self.bytes.extend_from_slice(bytes);
    }

    /// Writes the line with its LF to a sink, in one piece and again what that did not take, and
    /// begins an empty one.
    fn write<K: Sink>(&mut self, sink: &mut K) -> Result<(), Failed>
        ensures ok { OnOk result (Appends (K.written sink.old) (K.written sink.new)
            (self.old.bytes.items ++ 10 ∷ [])) }
        ensures part { OnErr result (WrotePart (K.written sink.old) (K.written sink.new)
            (self.old.bytes.items ++ 10 ∷ [])) }
        ensures cause { CountsFaults (K.faults sink.old) (K.faults sink.new) result }
        ensures stops { OnErr result
            (FailedLast (K.faults sink.old) (K.faults sink.new) (K.has_failed sink.new)) }
        ensures empty { self.new.bytes.items ≡ [] }
    {
        let _ = self.bytes.push(b'\n');
        let written = offer(sink, self.bytes.as_slice());
        self.bytes.clear();
        written
    }
}

/// A sink that lines are written to, and the line that is begun.
#[derive(Drop)]
struct SinkLines<'a, K: Sink> {
    sink: &'a mut K,
    line: &'a mut LineBuffer,
}

impl<'a, K: Sink> Lines for SinkLines<'a, K> {
    ghost state = { λ lines. record {
      written = K.written lines.sink.now;
      begun = lines.line.now.bytes.items;
      faults = K.faults lines.sink.now;
      outlet = lines.sink.ghost_name;
    } };

    ghost has_failed = { λ lines. K.has_failed lines.sink.now };

    fn put(&mut self, bytes: &[u8]) {
        self.line.put(bytes);
    }

    fn line(&mut self) -> Result<(), LinesFailed> {
        match self.line.write(self.sink) {
            Ok(()) => Ok(()),
            Err(Failed) => Err(LinesFailed),
        }
    }
}

/// Writes the trace of a kernel's journal to a sink, each line in one piece and again what the sink
/// did not take. The room for a line is made first.
fn write_journal<K: Sink>(alloc: Global, kernel: &Kernel, sink: &mut K) -> Result<(), SessionError>
    requires sized { All IsSized (reverse kernel.now.past) }
    ensures ok { OnOk result
        (Appends (K.written sink.old) (K.written sink.new) (trace kernel.now.past)) }
    ensures part { IsErrOf result SessionError.WriteFault →
        WrotePart (K.written sink.old) (K.written sink.new) (trace kernel.now.past) }
    ensures memory { IsErrOf result SessionError.Memory → sink.new ≡ sink.old }
    ensures stops { IsErrOf result SessionError.WriteFault →
        FailedLast (K.faults sink.old) (K.faults sink.new) (K.has_failed sink.new) }
    ensures quiet { OnOk result (K.faults sink.new ≡ K.faults sink.old) }
    ensures only { IfErr result IsWritingError }
    ensures right { OnOk result
        (All IsDirected kernel.now.past → IsTrace (trace kernel.now.past)) }
{
    let Ok(mut line) = LineBuffer::new(alloc) else {
        return Err(SessionError::Memory);
    };
    let mut lines = SinkLines {
        sink,
        line: &mut line,
    };
    match write_trace(kernel, &mut lines) {
        Ok(()) => {
            typed_is_trace(kernel);
            Ok(())
        }
        Err(_) => Err(SessionError::WriteFault),
    }
}

/// Runs a script, lets its answers go, and hands back the kernel that it ran on.
fn run_unheard(alloc: Global, script: Script) -> Result<Kernel, SessionError>
    ensures kernel { IfOk result (λ kernel. kernel ≡ (final_host script).kernel) }
    ensures lawful { IfOk result (λ kernel. IsLawful kernel.past) }
    ensures only { IfErr result (λ e. e ≡ SessionError.Memory) }
{
    let Ran { result, kernel } = run_script(alloc, script, &mut SureSink::new());
    match (result, kernel) {
        (Ok(_), Some(kernel)) => Ok(kernel),
        _ => Err(SessionError::Memory),
    }
}

/// Reads a script to its end, at most 2^20 + 1 bytes, runs it, and writes the trace of the last
/// journal. Nothing is written before the whole script was run.
pub(crate) fn trace<S: Source, K: Sink>(
    alloc: Global,
    source: &mut S,
    sink: &mut K,
) -> Result<(), SessionError>
    requires goes_on { ¬ (S.has_ended source.old) }
    ensures ok { OnOk result (IsTraced
        (streams S.left S.faults K.written K.faults source.old sink.old)
        (streams S.left S.faults K.written K.faults source.new sink.new)) }
    ensures err { IfErr result (IsUntraced
        (streams S.left S.faults K.written K.faults source.old sink.old)
        (streams S.left S.faults K.written K.faults source.new sink.new)) }
    ensures stops { IsErrOf result SessionError.ReadFault →
        FailedLast (S.faults source.old) (S.faults source.new) (S.has_failed source.new) }
    ensures ends { EndsReading (S.has_ended source.new) result }
    ensures most { TookAtMost 1048577 (S.left source.old) (S.left source.new) }
    ensures spares { IsErrOf result SessionError.ReadFault →
        TookAtMost 1048576 (S.left source.old) (S.left source.new) }
    ensures once { IsErrOf result SessionError.WriteFault →
        RoseByOne (K.faults sink.old) (K.faults sink.new) }
    ensures stops_writing { IsErrOf result SessionError.WriteFault →
        FailedLast (K.faults sink.old) (K.faults sink.new) (K.has_failed sink.new) }
    ensures quiet { OnOk result (K.faults sink.new ≡ K.faults sink.old) }
    // What was written is the trace of a journal in which each event acts.
    ensures right { OnOk result (WroteTrace (K.written sink.old) (K.written sink.new)) }
{
    let bytes = read_whole(alloc, source, MAX_SCRIPT)?;
    let script = parse_script(alloc, bytes.as_slice())?;
    let kernel = run_unheard(alloc, script)?;
    write_journal(alloc, &kernel, sink)
}
