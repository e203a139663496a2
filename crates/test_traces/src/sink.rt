//! A sink of lines that fails from a line on.

ghost use Rattle.std.specs.Prelude.{◌≡◌, ◌<◌, [], IfOk};

use std::alloc::Global;
use std::marker::Model;
use usb_desc::NoMemory;
use usb_trace_lines::{Failed, Lines, MAX_LINE};

/// The lines that were written, and how many more can be.
#[derive(Drop)]
pub struct TextSink {
    text: Vec<u8>,
    line: Vec<u8>,
    lines_left: u32,
    faults: u64,
}

impl Model for TextSink {
    ghost use Rattle.std.specs.Prelude.{◌≤◌, vec_capacity, None};
    ghost use Rattle.usb_trace_lines.specs.Written.{LinesState};

    ghost Value = { LinesState };

    ghost view = { λ sink.
        record { written = None; begun = sink.line.items; faults = sink.faults; outlet = 0 } };

    ghost invariant = { λ sink. 140000 ≤ vec_capacity sink.line };
}

impl TextSink {
    /// An empty one, for so many lines.
    pub fn new(alloc: Global, lines: u32) -> Result<TextSink, NoMemory>
        ensures empty { IfOk result (λ sink. sink.begun ≡ []) }
    {
        match Vec::with_capacity(alloc, MAX_LINE) {
            Ok(line) => Ok(TextSink {
                text: Vec::new(alloc),
                line,
                lines_left: lines,
                faults: 0,
            }),
            Err(_) => Err(NoMemory),
        }
    }

    /// What was written.
    pub fn text(&self) -> &[u8] {
        self.text.as_slice()
    }

    /// Appends the line that is begun, where one more can be written.
    fn append(&mut self) -> bool
        ensures same { self.new ≡ self.old }
    {
        if self.lines_left == 0 {
            return false;
        }
        self.lines_left -= 1;
        let appended = self.text.extend_from_slice(self.line.as_slice());
        appended.is_ok() && self.text.push(b'\n').is_ok()
    }
}

impl Lines for TextSink {
    ghost state = { λ sink. sink };

    ghost has_failed = { λ sink. 0 < sink.faults };

    fn put(&mut self, bytes: &[u8]) {
        let _ = self.line.extend_from_slice(bytes);
    }

    fn line(&mut self) -> Result<(), Failed> {
        if !self.append() {
            self.faults = self.faults.saturating_add(1);
            return Err(Failed);
        }
        self.line.clear();
        Ok(())
    }
}
