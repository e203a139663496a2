//! A source and a sink in memory, for tests.

ghost use Rattle.std.specs.Prelude.{◌≡◌, ◌<◌, ◌↔◌, ◌⊎◌, [], length, Some, IfOk, IsErr, IsOkAnd, IsTrue, false, Contains};
ghost use Rattle.std.specs.Io.{ReadsAtMost, WritesAtMost};
ghost use Rattle.std.specs.Io.KnownBytes.{ReadConsumes, WriteAppends};
ghost use Rattle.usb_session_run.specs.Causes.{CountsFaults};
ghost use Rattle.usb_session_run.specs.Memory.{next_call};

use crate::outside::{Failed, Sink, Source};
use std::alloc::Global;
use std::marker::Model;
use usb_desc::NoMemory;

/// Bytes to be read. The calls with these numbers, counted from 1, fail.
#[derive(Debug, Drop)]
pub struct MemSource {
    bytes: Vec<u8>,
    at: usize,
    calls: u64,
    fail_at: Vec<u64>,
    faults: u64,
    has_ended: bool,
}

impl Model for MemSource {
    ghost use Rattle.std.specs.Prelude.{drop, ◌≤◌, vec_len};
    ghost use Rattle.usb_session_run.specs.Memory.{Input};

    ghost Value = { Input };

    ghost view = { λ s. record { rest = drop s.at s.bytes.items; calls = s.calls; fail_at = s.fail_at.items; faults = s.faults; has_ended = s.has_ended } };

    ghost invariant = { λ s. s.at ≤ vec_len s.bytes };
}

impl MemSource {
    pub fn new(bytes: Vec<u8>, fail_at: Vec<u64>) -> MemSource
        ensures fresh { result ≡ record {
          rest = bytes.items;
          calls = 0;
          fail_at = fail_at.items;
          faults = 0;
          has_ended = false;
        } }
    {
        MemSource {
            bytes,
            at: 0,
            calls: 0,
            fail_at,
            faults: 0,
            has_ended: false,
        }
    }
}

impl Source for MemSource {
    ghost left = { λ s. Some s.rest };

    ghost faults = { λ s. s.faults };

    ghost has_failed = { λ s. Contains s.fail_at s.calls };

    ghost has_ended = { λ s. IsTrue s.has_ended };

    // It fails exactly at the calls that were named.
    fn read(&mut self, buf: &mut [u8]) -> Result<usize, Failed>
        requires { ¬ (IsTrue self.old.has_ended) }
        ensures bound { ReadsAtMost result buf.new }
        ensures bytes { ReadConsumes (Some self.old.rest) (Some self.new.rest) result buf.new }
        ensures cause { CountsFaults self.old.faults self.new.faults result }
        ensures last { IsErr result ↔ Contains self.new.fail_at self.new.calls }
        ensures ended { IsTrue self.new.has_ended ↔ IsOkAnd result
            (λ n. (n ≡ 0) × (0 < length buf.new)) }
        ensures calls { self.new.calls ≡ next_call self.old.calls }
        ensures schedule { self.new.fail_at ≡ self.old.fail_at }
    {
        self.calls = self.calls.saturating_add(1);
        if self.fail_at.contains(&self.calls) {
            self.faults = self.faults.saturating_add(1);
            return Err(Failed);
        }
        let rest = &self.bytes[self.at..];
        let len = rest.len().min(buf.len());
        buf[..len].copy_from_slice(&rest[..len]);
        self.at += len;
        self.has_ended = len == 0 && !buf.is_empty();
        Ok(len)
    }
}

/// Takes bytes while it has room. The calls with these numbers, counted from 1, fail.
#[derive(Debug, Drop)]
pub struct MemSink {
    bytes: Vec<u8>,
    room: usize,
    calls: u64,
    fail_at: Vec<u64>,
    faults: u64,
    has_failed: bool,
}

impl Model for MemSink {
    ghost use Rattle.std.specs.Prelude.{◌≤◌, vec_len, vec_capacity};
    ghost use Rattle.usb_session_run.specs.Memory.{Output};

    ghost Value = { Output };

    ghost view = { λ s. record { bytes = s.bytes.items; room = s.room; calls = s.calls; fail_at = s.fail_at.items; faults = s.faults; has_failed = s.has_failed } };

    ghost invariant = { λ s. (vec_len s.bytes ≤ s.room) × (s.room ≤ vec_capacity s.bytes) };
}

impl MemSink {
    pub fn new(alloc: Global, room: usize, fail_at: Vec<u64>) -> Result<MemSink, NoMemory>
        ensures empty { IfOk result (λ s. s ≡ record {
          bytes = [];
          room = room;
          calls = 0;
          fail_at = fail_at.items;
          faults = 0;
          has_failed = false;
        }) }
    {
        let Ok(bytes) = Vec::with_capacity(alloc, room) else {
            return Err(NoMemory);
        };
        Ok(MemSink {
            bytes,
            room,
            calls: 0,
            fail_at,
            faults: 0,
            has_failed: false,
        })
    }

    pub fn bytes(&self) -> &[u8]
        ensures value { result.now ≡ self.now.bytes }
    {
        self.bytes.as_slice()
    }
}

impl Sink for MemSink {
    ghost written = { λ s. Some s.bytes };

    ghost faults = { λ s. s.faults };

    ghost has_failed = { λ s. IsTrue s.has_failed };

    // It fails exactly at the calls that were named, and where the room is used up.
    fn write(&mut self, bytes: &[u8]) -> Result<usize, Failed>
        ensures bound { WritesAtMost result bytes.now }
        ensures some { 0 < length bytes.now → IfOk result (λ n. 0 < n) }
        ensures bytes { WriteAppends (Some self.old.bytes) (Some self.new.bytes) result bytes.now }
        ensures cause { CountsFaults self.old.faults self.new.faults result }
        ensures last { IsErr result ↔ IsTrue self.new.has_failed }
        ensures calls { self.new.calls ≡ next_call self.old.calls }
        ensures schedule { (self.new.fail_at ≡ self.old.fail_at) × (self.new.room ≡ self.old.room) }
        ensures fails { IsErr result ↔ (Contains self.old.fail_at self.new.calls ⊎
            ((length self.old.bytes ≡ self.old.room) × (0 < length bytes.now))) }
    {
        self.calls = self.calls.saturating_add(1);
        let free = self.room - self.bytes.len();
        let is_full = free == 0 && !bytes.is_empty();
        self.has_failed = is_full || self.fail_at.contains(&self.calls);
        if self.has_failed {
            self.faults = self.faults.saturating_add(1);
            return Err(Failed);
        }
        let len = free.min(bytes.len());
        self.bytes.extend_from_slice(&bytes[..len]).unwrap();
        Ok(len)
    }
}
