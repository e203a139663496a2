//! The word `generate`: a run of a generated script, and its line.

ghost use Rattle.std.specs.Prelude.{◌≡◌, ◌≤◌, ◌++◌, IfOk, IfErr, OnOk, IsErrOf, string_bytes};
ghost use Rattle.usb_session_run.specs.Causes.{FailedLast};
ghost use Rattle.usb_session_run.specs.Generate.{counted, summary_line, generate_line};
ghost use Rattle.usb_session_run.specs.OneLine.{WroteLine};

use crate::outside::Sink;
use crate::run::run_session;
use crate::sure::{SureSink, SureSource};
use crate::writing::offer;
use itoa::Buffer;
use std::alloc::Global;
use usb_desc::NoMemory;
use usb_script::SessionError;
use usb_session::Summary;

/// Appends a word, and a number behind it.
fn push_count(line: &mut String, word: &str, count: u64) -> Result<(), NoMemory>
    ensures text { OnOk result
        (string_bytes line.new ≡ string_bytes line.old ++ counted word.now count) }
{
    line.push_str(word)?;
    line.push_str(Buffer::new().format(count))?;
    Ok(())
}

/// The line of a script's summary.
#[tactic(auto, unfolding(crate::specs::Generate::summary_line))]
fn summary_line(alloc: Global, n: u32, summary: &Summary) -> Result<String, NoMemory>
    ensures text { IfOk result (λ line. string_bytes line ≡ summary_line n summary.now) }
{
    let mut line = String::new(alloc);
    push_count(&mut line, "generate ", u64::from(n))?;
    push_count(&mut line, " calls ", u64::from(summary.calls))?;
    push_count(&mut line, " tickets ", summary.tickets)?;
    push_count(&mut line, " taken ", summary.taken)?;
    push_count(&mut line, " dropped ", summary.dropped)?;
    push_count(&mut line, " reclaimed ", summary.reclaimed)?;
    line.push('\n')?;
    Ok(line)
}

/// Runs the generated script of n messages in memory. It only fails for want of memory.
fn run_generated(alloc: Global, n: u32) -> Result<Summary, SessionError>
    requires some { 1 ≤ n }
    requires few { n ≤ 2000 }
    ensures line { IfOk result (λ s. generate_line n ≡ summary_line n s) }
    ensures memory { IfErr result (λ e. e ≡ SessionError.Memory) }
{
    let Ok(script) = usb_script::generate(alloc, n) else {
        return Err(SessionError::Memory);
    };
    run_session(alloc, &mut SureSource::new(script), &mut SureSink::new())
}

/// Runs the generated script of n messages, and writes the line of its summary.
pub(crate) fn generate<K: Sink>(alloc: Global, n: u32, sink: &mut K) -> Result<(), SessionError>
    requires some { 1 ≤ n }
    requires few { n ≤ 2000 }
    ensures wrote { WroteLine (generate_line n) (K.written sink.old) (K.written sink.new)
        (K.faults sink.old) (K.faults sink.new) result }
    // After a write that failed nothing more is offered to the sink.
    ensures stops { IsErrOf result SessionError.WriteFault →
        FailedLast (K.faults sink.old) (K.faults sink.new) (K.has_failed sink.new) }
{
    let summary = run_generated(alloc, n)?;
    let Ok(line) = summary_line(alloc, n, &summary) else {
        return Err(SessionError::Memory);
    };
    match offer(sink, line.as_bytes()) {
        Ok(()) => Ok(()),
        Err(_) => Err(SessionError::WriteFault),
    }
}
