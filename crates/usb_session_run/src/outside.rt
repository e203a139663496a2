//! Where a script comes from, and where its answers go.

ghost use Rattle.std.specs.Prelude.{ℕ, List, ◌≡◌, ◌<◌, ◌↔◌, length, IfOk, OnOk, IsErr, IsOkAnd, Some, codes};
ghost use Rattle.std.specs.declared.option.Option.{Option};
ghost use Rattle.std.specs.Io.{ReadsAtMost, WritesAtMost};
ghost use Rattle.std.specs.Io.KnownBytes.{Keeps, ReadConsumes, WriteAppends};
ghost use Rattle.usb_session_run.specs.Causes.{CountsFaults};

use std::error::Error;
use std::fmt;

/// A call that failed.
#[derive(Clone, Copy, Debug, PartialEq, Eq)]
pub struct Failed;

impl fmt::Display for Failed {
    ghost output = { λ _. Some (codes "failed") };

    fn fmt<W: fmt::Write>(&self, f: &mut fmt::Formatter<W>) -> fmt::Result {
        f.write_str("failed")
    }
}

impl Error for Failed {}

/// Where bytes come from.
pub trait Source {
    // The bytes that reads will give from here on, where the source tells them.
    ghost left: { Self → Option (List ℕ) };

    // How many reads failed.
    ghost faults: { Self → ℕ };

    // A statement: the last read failed.
    ghost has_failed: { Self → Type 0 };

    // A statement: the last read had room, and found the end.
    ghost has_ended: { Self → Type 0 };

    // Behind the end nothing may be read.
    fn read(&mut self, buf: &mut [u8]) -> Result<usize, Failed>
        requires { ¬ (has_ended self.old) }
        ensures bound { ReadsAtMost result buf.new }
        ensures bytes { ReadConsumes (left self.old) (left self.new) result buf.new }
        ensures cause { CountsFaults (faults self.old) (faults self.new) result }
        ensures last { IsErr result ↔ has_failed self.new }
        ensures ended { has_ended self.new ↔ IsOkAnd result
            (λ n. (n ≡ 0) × (0 < length buf.new)) };
}

/// Where bytes go.
pub trait Sink {
    // The bytes taken so far, where the sink tells them.
    ghost written: { Self → Option (List ℕ) };

    // How many writes failed.
    ghost faults: { Self → ℕ };

    // A statement: the last call failed.
    ghost has_failed: { Self → Type 0 };

    fn write(&mut self, bytes: &[u8]) -> Result<usize, Failed>
        ensures bound { WritesAtMost result bytes.now }
        ensures some { 0 < length bytes.now → IfOk result (λ n. 0 < n) }
        ensures bytes { WriteAppends (written self.old) (written self.new) result bytes.now }
        ensures cause { CountsFaults (faults self.old) (faults self.new) result }
        ensures last { IsErr result ↔ has_failed self.new };
}

/// A sink that may hold bytes that it took, until it is told to hand them on.
pub trait Gathers: Sink {
    // A statement: nothing that was taken is still held.
    ghost is_handed_on: { Self → Type 0 };

    /// Hands on the bytes that were taken and are still held.
    fn hand_on(&mut self) -> Result<(), Failed>
        ensures done { OnOk result (is_handed_on self.new) }
        ensures bytes { Keeps (Self.written self.old) (Self.written self.new) }
        ensures cause { CountsFaults (Self.faults self.old) (Self.faults self.new) result }
        ensures last { IsErr result ↔ Self.has_failed self.new };
}
