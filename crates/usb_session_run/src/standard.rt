//! Standard input and output as a source and a sink.

ghost use Rattle.std.specs.Prelude.{◌≡◌, [], IsTrue};
ghost use Rattle.std.specs.Io.Buffered.{writer_buffer};

use crate::outside::{Failed, Gathers, Sink, Source};
use std::io::{BufWriter, Read, Write};

/// A reader that counts its faults.
#[derive(Drop)]
pub struct StdSource<R: Read> {
    input: R,
    faults: u64,
    has_failed: bool,
    has_ended: bool,
}

impl<R: Read> StdSource<R> {
    /// A source of what the reader gives, of which nothing was read yet.
    pub fn new(input: R) -> StdSource<R>
        ensures input { result.input ≡ input }
        ensures faults { result.faults ≡ 0 }
        ensures goes_on { ¬ (IsTrue result.has_ended) }
    {
        StdSource {
            input,
            faults: 0,
            has_failed: false,
            has_ended: false,
        }
    }
}

impl<R: Read> Source for StdSource<R> {
    ghost left = { λ s. R.remaining s.input };

    ghost faults = { λ s. s.faults };

    ghost has_failed = { λ s. IsTrue s.has_failed };

    ghost has_ended = { λ s. IsTrue s.has_ended };

    fn read(&mut self, buf: &mut [u8]) -> Result<usize, Failed> {
        match self.input.read(buf) {
            Ok(count) => {
                self.has_failed = false;
                self.has_ended = count == 0 && !buf.is_empty();
                Ok(count)
            }
            Err(_) => {
                self.has_failed = true;
                self.faults = self.faults.saturating_add(1);
                Err(Failed)
            }
        }
    }
}

/// A writer that counts its faults. Taking nothing of a piece is a fault.
#[derive(Drop)]
pub struct StdSink<W: Write> {
    output: W,
    faults: u64,
    has_failed: bool,
}

impl<W: Write> StdSink<W> {
    pub fn new(output: W) -> StdSink<W>
        ensures output { result.output ≡ output }
        ensures faults { result.faults ≡ 0 }
    {
        StdSink {
            output,
            faults: 0,
            has_failed: false,
        }
    }
}

impl<W: Write> Sink for StdSink<W> {
    ghost written = { λ s. W.contents s.output };

    ghost faults = { λ s. s.faults };

    ghost has_failed = { λ s. IsTrue s.has_failed };

    fn write(&mut self, bytes: &[u8]) -> Result<usize, Failed> {
        match self.output.write(bytes) {
            Ok(count) if 0 < count || bytes.is_empty() => {
                self.has_failed = false;
                Ok(count)
            }
            _ => {
                self.has_failed = true;
                self.faults = self.faults.saturating_add(1);
                Err(Failed)
            }
        }
    }
}

/// What the buffer still holds is handed on by its flush.
impl<W: Write + Drop> Gathers for StdSink<BufWriter<W>> {
    ghost is_handed_on = { λ s. writer_buffer s.output ≡ [] };

    fn hand_on(&mut self) -> Result<(), Failed> {
        match self.output.flush() {
            Ok(()) => {
                self.has_failed = false;
                Ok(())
            }
            Err(_) => {
                self.has_failed = true;
                self.faults = self.faults.saturating_add(1);
                Err(Failed)
            }
        }
    }
}
