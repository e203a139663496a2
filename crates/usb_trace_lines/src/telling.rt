//! A line that is read is told again: it is of the form exactly where that gives the same text.

ghost use Rattle.std.specs.Prelude.{◌≡◌, ◌≢◌, ◌++◌, ◌∷◌, [], IfOk, IfSome, IfNone, OnOk, OnErr, IsTrue, false, Err, None};
ghost use Rattle.usb_trace_lines.specs.declared.line.TraceLine.{TraceLine};
ghost use Rattle.usb_trace_lines.specs.Forms.{IsLineTold};
ghost use Rattle.usb_trace_lines.specs.Texts.{line_text};
ghost use Rattle.usb_trace_lines.specs.Written.{HasWritten, HasStopped, ended_line, begun_with};

use crate::line::TraceLine;
use crate::lines::{Failed, Lines, MAX_LINE};
use crate::reading::line;
use crate::writing::{put_event, put_fate};
use std::alloc::Global;
use std::marker::Model;
use usb_script_words::{LineError, split_words};

/// The text of one line.
#[derive(Drop)]
pub struct LineText {
    bytes: Vec<u8>,
}

impl Model for LineText {
    ghost use Rattle.std.specs.Prelude.{ℕ, List, ◌≤◌, vec_capacity};

    ghost Value = { List ℕ };

    ghost view = { λ text. text.bytes.items };

    ghost invariant = { λ text. 140000 ≤ vec_capacity text.bytes };
}

impl LineText {
    /// An empty text, with room for a line.
    pub fn new(alloc: Global) -> Result<LineText, LineError>
        ensures empty { IfOk result (λ text. text ≡ []) }
    {
        match Vec::with_capacity(alloc, MAX_LINE) {
            Ok(bytes) => Ok(LineText { bytes }),
            Err(_) => Err(LineError::Memory),
        }
    }

    /// Begins anew.
    fn clear(&mut self)
        ensures empty { self.new ≡ [] }
    {
        self.bytes.clear();
    }

    /// Whether it reads so.
    fn reads(&self, line: &[u8]) -> bool
        ensures same { IsTrue result → self.now ≡ line.now }
        ensures other { result ≡ false → self.now ≢ line.now }
    {
        self.bytes.as_slice() == line
    }
}

impl Lines for LineText {
    ghost state = { λ text. record { written = None; begun = text; faults = 0; outlet = 0 } };

    ghost has_failed = { λ text. ⊥ };

    fn put(&mut self, bytes: &[u8]) {
        let _ = self.bytes.extend_from_slice(bytes);
    }

    fn line(&mut self) -> Result<(), Failed> {
        self.bytes.clear();
        Ok(())
    }
}

/// The text of a line, its LF aside.
fn tell(text: &mut LineText, told: &TraceLine)
    requires told { IsLineTold told.now }
    ensures text { text.new ++ 10 ∷ [] ≡ line_text told.now }
{
    text.clear();
    match told {
        TraceLine::First => text.put(b"nusb-trace 1"),
        TraceLine::Event(event) => put_event(text, event),
        TraceLine::Fate(fate) => put_fate(text, *fate),
        TraceLine::Last => text.put(b"end"),
    }
}

/// What a line tells, which stands there without its LF. It is malformed exactly where no line of a
/// trace has this text. The line is split into `words` and told again in `text`, which are room
/// that is used for one line after the other.
pub fn read_line<'a>(
    alloc: Global,
    words: &mut Vec<&'a [u8]>,
    text: &mut LineText,
    bytes: &'a [u8],
) -> Result<TraceLine, LineError>
    ensures told { IfOk result (λ told. IsLineTold told) }
    ensures text { IfOk result (λ told. bytes.now ++ 10 ∷ [] ≡ line_text told) }
    ensures malformed { result ≡ Err LineError.Malformed →
        (told : TraceLine) → IsLineTold told → bytes.now ++ 10 ∷ [] ≡ line_text told → ⊥ }
{
    split_words(bytes, words)?;
    let told = line(alloc, words.as_slice())?;
    tell(text, &told);
    if !text.reads(bytes) {
        return Err(LineError::Malformed);
    }
    Ok(told)
}
