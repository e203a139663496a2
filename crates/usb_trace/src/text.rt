//! The whole text of a trace, read line by line.

ghost use Rattle.std.specs.Prelude.{◌≡◌, ◌≢◌, ◌≤◌, ◌<◌, ◌^◌, ◌++◌, ◌∷◌, [], ℕ, List, length, None, Err, IfOk, IfSome, OnOk, OnErr};
ghost use Rattle.usb_kernel.specs.declared.event.Event.{Event};
ghost use Rattle.usb_trace_lines.specs.declared.line.TraceLine.{TraceLine};
ghost use Rattle.usb_trace_lines.specs.Forms.{IsLineTold};
ghost use Rattle.usb_trace_lines.specs.Order.{next_phase};
ghost use Rattle.usb_trace.specs.Begins.{IsForm};
ghost use Rattle.usb_trace.specs.Fails.{FailsFirstAt};
ghost use Rattle.usb_trace.specs.Lines.{lines};
ghost use Rattle.usb_trace.specs.Read.{events_with, fates_with, IsStuck, HasLines, HasRead, HasText, HasNoEnd};
ghost use Rattle.usb_trace.specs.Replayed.{IsReplayed};

use crate::error::TraceError;
use crate::replay::Replay;
use memchr::memchr;
use std::alloc::Global;
use usb_desc::NoMemory;
use usb_script_words::LineError;
use usb_trace_lines::{FateLine, LineText, Phase, TraceLine, read_line};

/// What a text tells.
#[derive(Drop)]
pub(crate) struct TraceText {
    pub(crate) replay: Replay,
    pub(crate) fates: Vec<FateLine>,
}

/// The lines that were read so far. Their events were done again, and are not kept here.
#[derive(Drop)]
pub(crate) struct LinesRead {
    phase: Phase,
    replay: Replay,
    fates: Vec<FateLine>,
}

/// Does the event again that a line tells, or keeps the fate.
fn keep(
    alloc: Global,
    replay: &mut Replay,
    fates: &mut Vec<FateLine>,
    told: TraceLine,
) -> Result<(), LineError>
    requires replayed { (events : List Event) × IsReplayed events replay.old }
    requires told { IsLineTold told }
    ensures events { OnOk result ((events : List Event) → IsReplayed events replay.old →
        IsReplayed (events_with events told) replay.new) }
    ensures fates { OnOk result (fates.new.items ≡ fates_with fates.old.items told) }
    ensures memory { OnErr result (result ≡ Err LineError.Memory) }
{
    match told {
        TraceLine::First => Ok(()),
        TraceLine::Event(event) => match replay.add(alloc, event) {
            Ok(()) => Ok(()),
            Err(_) => Err(LineError::Memory),
        },
        TraceLine::Fate(fate) => match fates.push(fate) {
            Ok(()) => Ok(()),
            Err(_) => Err(LineError::Memory),
        },
        TraceLine::Last => Ok(()),
    }
}

impl LinesRead {
    /// No line.
    fn new(alloc: Global) -> Result<LinesRead, NoMemory>
        ensures none { IfOk result (HasLines []) }
    {
        Ok(LinesRead {
            phase: Phase::Start,
            replay: Replay::new(alloc)?,
            fates: Vec::new(alloc),
        })
    }

    /// Adds a line. It is malformed where it may not stand here.
    fn add(&mut self, alloc: Global, told: TraceLine) -> Result<(), LineError>
        requires lines { (before : List TraceLine) × HasLines before self.old }
        requires told { IsLineTold told }
        ensures more { OnOk result ((before : List TraceLine) → HasLines before self.old →
            HasLines (before ++ told ∷ []) self.new) }
        ensures stuck { result ≡ Err LineError.Malformed → next_phase self.old.phase told ≡ None }
    {
        let Some(next) = self.phase.behind(&told) else {
            return Err(LineError::Malformed);
        };
        keep(alloc, &mut self.replay, &mut self.fates, told)?;
        self.phase = next;
        Ok(())
    }

    /// What they tell, where the last line is among them.
    fn finish(self) -> Option<TraceText>
        ensures phase { IfSome result (λ text. self.phase ≡ Phase.End) }
        ensures replay { IfSome result (λ text. text.replay ≡ self.replay) }
        ensures fates { IfSome result (λ text. text.fates.items ≡ self.fates.items) }
        ensures none { result ≡ None → self.phase ≢ Phase.End }
    {
        match self.phase {
            Phase::End => Some(TraceText {
                replay: self.replay,
                fates: self.fates,
            }),
            _ => None,
        }
    }
}

/// The first line without its LF, and the bytes behind it.
fn first_line(bytes: &[u8]) -> Option<(&[u8], &[u8])>
    ensures parts { IfSome result (λ r. bytes.now ≡ (r.0.now ++ 10 ∷ []) ++ r.1.now) }
    ensures lines { IfSome result (λ r. lines bytes.now ≡ (r.0.now ++ 10 ∷ []) ∷ lines r.1.now) }
    ensures shorter { IfSome result (λ r. length r.1.now < length bytes.now) }
    ensures none { result ≡ None → HasNoEnd bytes.now }
{
    let at = memchr(b'\n', bytes)?;
    Some((&bytes[..at], &bytes[at + 1..]))
}

/// Reads one line more, which stands there without its LF. It is malformed where no trace goes on
/// so.
fn add_line<'a>(
    alloc: Global,
    words: &mut Vec<&'a [u8]>,
    text: &mut LineText,
    read: &mut LinesRead,
    bytes: &'a [u8],
) -> Result<(), LineError>
    requires lines { (before : List TraceLine) × HasLines before read.old }
    ensures read { OnOk result (HasRead read.old read.new bytes.now) }
    ensures stuck { result ≡ Err LineError.Malformed → (more : List (List ℕ)) →
        IsStuck read.old.phase ((bytes.now ++ 10 ∷ []) ∷ more) }
{
    let told = read_line(alloc, words, text, bytes)?;
    read.add(alloc, told)
}

/// What a text tells. It is malformed exactly at the first line that no text of the form of a trace
/// can have there, counted from 1.
pub(crate) fn read_text(alloc: Global, bytes: &[u8]) -> Result<TraceText, TraceError>
    requires few { length bytes.now ≤ 2 ^ 24 }
    ensures text { IfOk result (HasText bytes.now) }
    ensures malformed { (line : ℕ) → result ≡ Err (TraceError.Malformed line) →
        FailsFirstAt IsForm bytes.now line }
{
    let mut words = Vec::new(alloc);
    let (Ok(mut text), Ok(mut read)) = (LineText::new(alloc), LinesRead::new(alloc)) else {
        return Err(TraceError::Memory);
    };
    let mut rest = bytes;
    let mut line = 1u32;
    while let Some((first, behind)) = first_line(rest) {
        match add_line(alloc, &mut words, &mut text, &mut read, first) {
            Ok(()) => {}
            Err(LineError::Malformed) => return Err(TraceError::Malformed { line }),
            Err(LineError::Memory) => return Err(TraceError::Memory),
        }
        rest = behind;
        line += 1;
    }
    if !rest.is_empty() {
        return Err(TraceError::Malformed { line });
    }
    match read.finish() {
        Some(text) => Ok(text),
        None => Err(TraceError::Malformed { line }),
    }
}
