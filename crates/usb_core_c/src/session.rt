//! Whole scripts, answered into a slice.

ghost use Rattle.std.specs.Prelude.{◌≡◌, ◌≢◌, ◌<◌, ◌≤◌, ◌↔◌, ◌⊎◌, [], length, take, IfOk, IfErr, IsErr, IsTrue, Some, Err, false};
ghost use Rattle.std.specs.Io.{WritesAtMost};
ghost use Rattle.std.specs.Io.KnownBytes.{WriteAppends};
ghost use Rattle.usb_script.specs.Parse.{script_of};
ghost use Rattle.usb_script.specs.declared.error.SessionError.TheVariants.{Malformed, TooLong};
ghost use Rattle.usb_session_run.specs.Causes.{CountsFaults};
ghost use Rattle.usb_core_c.specs.Answered.{IsAnswer, IsRefusal, IsWhole, IsLonger, IsStatus, summary_of};

use std::alloc::Global;
use std::marker::Model;
use usb_script::SessionError;
use usb_session::Summary;
use usb_session_run::{Failed, Sink, SureSource, run_session};

/// What a call came to.
#[repr(C)]
#[derive(Drop)]
pub struct Told {
    /// 0: answered; 3: a line is outside the grammar; 4: the script is too long; 6: `out` has no
    /// room for the answers; 7: memory was lacking.
    pub status: u8,
    /// Where the status is 3: the line, counted from 1.
    pub line: u32,
    /// Where the status is 0 or 6: how many bytes the answers have.
    pub len: usize,
    /// Where the status is 0: how many calls were answered.
    pub calls: u32,
    /// How many transfers were handed in.
    pub tickets: u64,
    /// How many of them were taken.
    pub taken: u64,
    /// How many were reaped, and then given up.
    pub dropped: u64,
    /// How many were given up, and then reaped.
    pub reclaimed: u64,
}

/// Answers, gathered in memory.
#[derive(Drop)]
pub struct Gathered {
    bytes: Vec<u8>,
    faults: u64,
    has_failed: bool,
}

impl Model for Gathered {
    ghost use Rattle.usb_core_c.specs.Gatherings.{Gathering};

    ghost Value = { Gathering };

    ghost view = { λ s. record { bytes = s.bytes.items; faults = s.faults; has_failed = s.has_failed } };
}

impl Gathered {
    fn new(alloc: Global) -> Gathered
        ensures empty { result ≡ record { bytes = []; faults = 0; has_failed = false } }
    {
        Gathered {
            bytes: Vec::new(alloc),
            faults: 0,
            has_failed: false,
        }
    }

    fn bytes(&self) -> &[u8]
        ensures value { result.now ≡ self.now.bytes }
    {
        self.bytes.as_slice()
    }
}

impl Sink for Gathered {
    ghost written = { λ s. Some s.bytes };

    ghost faults = { λ s. s.faults };

    ghost has_failed = { λ s. IsTrue s.has_failed };

    // It fails where memory is lacking.
    fn write(&mut self, bytes: &[u8]) -> Result<usize, Failed>
        ensures bound { WritesAtMost result bytes.now }
        ensures some { 0 < length bytes.now → IfOk result (λ n. 0 < n) }
        ensures bytes { WriteAppends (Some self.old.bytes) (Some self.new.bytes) result bytes.now }
        ensures cause { CountsFaults self.old.faults self.new.faults result }
        ensures last { IsErr result ↔ IsTrue self.new.has_failed }
    {
        self.has_failed = self.bytes.extend_from_slice(bytes).is_err();
        if self.has_failed {
            self.faults = self.faults.saturating_add(1);
            return Err(Failed);
        }
        Ok(bytes.len())
    }
}

/// Answers a script, and gathers the answers.
fn answer(alloc: Global, script: &[u8], sink: &mut Gathered) -> Result<Summary, SessionError>
    requires empty { sink.old.bytes ≡ [] }
    ensures ok { IfOk result (IsAnswer script.now sink.new.bytes) }
    ensures err { IfErr result (IsRefusal script.now) }
{
    let Ok(bytes) = Vec::from_slice(alloc, script) else {
        return Err(SessionError::Memory);
    };
    let mut source = SureSource::new(bytes);
    run_session(alloc, &mut source, sink)
}

/// What is told where nothing was answered.
fn refused(status: u8, line: u32) -> Told
    ensures status { result.status ≡ status }
    ensures line { result.line ≡ line }
{
    Told {
        status,
        line,
        len: 0,
        calls: 0,
        tickets: 0,
        taken: 0,
        dropped: 0,
        reclaimed: 0,
    }
}

/// Writes the answers of a session to the front of `out` where there is room for them, and tells of
/// it.
fn hand_over(summary: Summary, answers: &[u8], out: &mut [u8]) -> Told
    ensures told { summary_of result ≡ summary }
    ensures len { result.len ≡ length answers.now }
    ensures whole { result.status ≡ 0 → take (length answers.now) out.new ≡ answers.now }
    ensures longer { result.status ≡ 6 → length out.old < length answers.now }
    ensures status { (result.status ≡ 0) ⊎ (result.status ≡ 6) }
    ensures kept { result.status ≢ 0 → out.new ≡ out.old }
    ensures frame { length out.new ≡ length out.old }
{
    let len = answers.len();
    let status = if len > out.len() {
        6
    } else {
        out[..len].copy_from_slice(answers);
        0
    };
    Told {
        status,
        line: 0,
        len,
        calls: summary.calls,
        tickets: summary.tickets,
        taken: summary.taken,
        dropped: summary.dropped,
        reclaimed: summary.reclaimed,
    }
}

/// Answers a whole script, as `nusb_sim` does, and writes the answers and the fates to the front of
/// `out`. Where there is no room for all of them nothing is written, and `told` has the length that
/// they need.
#[unsafe(no_mangle)]
pub extern "C" fn usb_core_answer(alloc: Global, script: &[u8], out: &mut [u8], told: &mut Told)
    ensures whole { told.new.status ≡ 0 → IsWhole script.now out.new told.new }
    ensures malformed { told.new.status ≡ 3 → script_of script.now ≡ Err (Malformed told.new.line) }
    ensures long { told.new.status ≡ 4 → script_of script.now ≡ Err TooLong }
    ensures longer { told.new.status ≡ 6 → IsLonger script.now (length out.old) told.new.len }
    ensures status { IsStatus told.new.status }
    ensures kept { told.new.status ≢ 0 → out.new ≡ out.old }
    ensures frame { length out.new ≡ length out.old }
{
    let mut sink = Gathered::new(alloc);
    *told = match answer(alloc, script, &mut sink) {
        Ok(summary) => hand_over(summary, sink.bytes(), out),
        Err(SessionError::Malformed { line }) => refused(3, line),
        Err(SessionError::TooLong) => refused(4, 0),
        Err(_) => refused(7, 0),
    };
}
