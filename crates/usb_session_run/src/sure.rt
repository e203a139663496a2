//! A source and a sink that never fail.

ghost use Rattle.std.specs.Prelude.{◌≡◌, ◌<◌, ◌↔◌, [], length, Some, None, IfOk, IsOk, IsErr, IsOkAnd, IsTrue, false, min, vec_len};
ghost use Rattle.std.specs.Io.{ReadsAtMost, WritesAtMost};
ghost use Rattle.std.specs.Io.KnownBytes.{ReadConsumes, WriteAppends};
ghost use Rattle.usb_session_run.specs.Causes.{CountsFaults};

use crate::outside::{Failed, Sink, Source};
use std::marker::Model;

/// Bytes to be read, with no call that fails.
#[derive(Debug, Drop)]
pub struct SureSource {
    bytes: Vec<u8>,
    at: usize,
    has_ended: bool,
}

impl Model for SureSource {
    ghost use Rattle.std.specs.Prelude.{drop, ◌≤◌, vec_len};
    ghost use Rattle.usb_session_run.specs.Memory.{SureInput};

    ghost Value = { SureInput };

    ghost view = { λ s. record { rest = drop s.at s.bytes.items; has_ended = s.has_ended } };

    ghost invariant = { λ s. s.at ≤ vec_len s.bytes };
}

impl SureSource {
    /// A source of these bytes.
    pub fn new(bytes: Vec<u8>) -> SureSource
        ensures fresh { result ≡ record { rest = bytes.items; has_ended = false } }
    {
        SureSource {
            bytes,
            at: 0,
            has_ended: false,
        }
    }
}

impl Source for SureSource {
    ghost left = { λ s. Some s.rest };

    ghost faults = { λ s. 0 };

    ghost has_failed = { λ s. ⊥ };

    ghost has_ended = { λ s. IsTrue s.has_ended };

    fn read(&mut self, buf: &mut [u8]) -> Result<usize, Failed>
        requires { ¬ (IsTrue self.old.has_ended) }
        ensures bound { ReadsAtMost result buf.new }
        ensures bytes { ReadConsumes (Some self.old.rest) (Some self.new.rest) result buf.new }
        ensures cause { CountsFaults 0 0 result }
        ensures last { IsErr result ↔ ⊥ }
        ensures ended { IsTrue self.new.has_ended ↔ IsOkAnd result
            (λ n. (n ≡ 0) × (0 < length buf.new)) }
        ensures ok { IsOk result }
    {
        let rest = &self.bytes[self.at..];
        let len = rest.len().min(buf.len());
        buf[..len].copy_from_slice(&rest[..len]);
        self.at += len;
        self.has_ended = len == 0 && !buf.is_empty();
        Ok(len)
    }
}

/// Takes every piece, keeps nothing of it and tells no bytes.
#[derive(Clone, Copy, Debug)]
pub struct SureSink;

impl SureSink {
    /// A sink that takes every piece.
    pub fn new() -> SureSink {
        SureSink
    }
}

impl Sink for SureSink {
    ghost written = { λ s. None };

    ghost faults = { λ s. 0 };

    ghost has_failed = { λ s. ⊥ };

    fn write(&mut self, bytes: &[u8]) -> Result<usize, Failed>
        ensures bound { WritesAtMost result bytes.now }
        ensures some { 0 < length bytes.now → IfOk result (λ n. 0 < n) }
        ensures bytes { WriteAppends None None result bytes.now }
        ensures cause { CountsFaults 0 0 result }
        ensures last { IsErr result ↔ ⊥ }
        ensures whole { IfOk result (λ n. n ≡ length bytes.now) }
        ensures ok { IsOk result }
    {
        Ok(bytes.len())
    }
}
