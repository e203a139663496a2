//! Where lines go.

ghost use Rattle.std.specs.Prelude.{◌≡◌, ◌+◌, ◌≤◌, length, OnOk, OnErr};
ghost use Rattle.usb_trace_lines.specs.Written.{LinesState, begun_with, ended_line, HasWritten, HasStopped};

use std::error::Error;
use std::fmt;

/// A write that failed.
#[derive(Clone, Copy, Debug, PartialEq, Eq)]
pub struct Failed;

impl fmt::Display for Failed {
    fn fmt<W: fmt::Write>(&self, f: &mut fmt::Formatter<W>) -> fmt::Result {
        f.write_str("failed")
    }
}

impl Error for Failed {}

/// The most bytes of a line, its LF aside.
pub const MAX_LINE: usize = 140_000;

/// What takes lines, each piece by piece.
pub trait Lines {
    // What was written, what is begun, how many writes failed, and where the lines go.
    ghost state: { Self → LinesState };

    // A statement: the last write failed.
    ghost has_failed: { Self → Type 0 };

    /// Appends bytes to the line that is begun, which is then no longer than [`MAX_LINE`].
    fn put(&mut self, bytes: &[u8])
        requires room { length (state self.old).begun + length bytes.now ≤ 140000 }
        ensures more { state self.new ≡ begun_with (state self.old) bytes.now };

    /// Writes the line that is begun with its LF, and begins an empty one.
    fn line(&mut self) -> Result<(), Failed>
        ensures ok { OnOk result
            (HasWritten (state self.old) (state self.new) (ended_line (state self.old))) }
        ensures err { OnErr result
            (HasStopped (state self.old) (state self.new) (ended_line (state self.old))) }
        ensures failed { OnErr result (has_failed self.new) };
}
