//! Runs that are stopped in the middle: the device goes, a close comes early, the source or the sink fails. Each run ends, and each
//! of its tickets has its end.

ghost use Rattle.std.specs.Prelude.{Contains, IsTrue, Some};

use super::controls::ON_THEIR_WAY;
use super::endpoints::BLOCKING;
use super::readers::FRAMED;
use super::writers::{CLAIMED, WRITTEN};
use super::{OPENED, TRANSFERS, joined, run_with};
use std::alloc::{AllocError, Global};
use std::process::Abort;
use std::sync::Wait;
use std::test::Fail;
use std::thread::Threads;
use usb_session_run::{
    Failed, MemSink, MemSource, OpenGate, Ran, Seen, SessionError, Source, SureSource,
    parse_script, run_script, run_session,
};

/// Lines that open a device, and rows of a name, the lines behind these, and what these are answered.
pub type Rows = (
    (&'static str, &'static str),
    &'static [(&'static str, &'static str, &'static str)],
);

/// Transfers, messages that are read and written, control transfers on their way, and blocking transfers.
pub const SCRIPTS: [Rows; 5] = [
    (OPENED, &TRANSFERS),
    (OPENED, &FRAMED),
    (CLAIMED, &WRITTEN),
    (CLAIMED, &ON_THEIR_WAY),
    (OPENED, &BLOCKING),
];

/// How many lines of a text end so.
fn count_ends(text: &str, end: &str) -> u64 {
    text.lines().filter(|line| line.ends_with(end)).count() as u64
}

/// Runs a script, and compares its counts of ends with the lines that tell them.
fn expect_ends(rt: &impl Abort, alloc: Global, name: &str, script: &str) -> Result<(), Fail> {
    let mut source = SureSource::new(Vec::from_slice(alloc, script.as_bytes())?);
    let mut sink = MemSink::new(alloc, 65536, Vec::new(alloc))?;
    let summary = run_session(alloc, &mut source, &mut sink)?;
    let output = std::str::from_utf8(sink.bytes())?;
    assert_eq!(rt; summary.taken, count_ends(output, " taken"), "of {name}");
    assert_eq!(rt;
        summary.dropped,
        count_ends(output, " dropped"),
        "of {name}"
    );
    assert_eq!(rt;
        summary.reclaimed,
        count_ends(output, " reclaimed"),
        "of {name}"
    );
    let ends = summary.taken + summary.dropped + summary.reclaimed;
    assert_eq!(rt; summary.tickets, ends, "of {name}");
    Ok(())
}

/// A text with one line more, in front of the line of this number.
fn with_line(alloc: Global, text: &str, number: usize, line: &str) -> Result<String, AllocError> {
    let mut changed = String::new(alloc);
    for (at, each) in text.lines().enumerate() {
        if at == number {
            changed.push_str(line)?;
        }
        changed.push_str(each)?;
        changed.push('\n')?;
    }
    Ok(changed)
}

#[test]
fn a_device_goes_before_each_line(rt: HostRuntime) -> Result<(), Fail> {
    for (front, rows) in &SCRIPTS {
        for (name, lines, _) in *rows {
            for number in 0..lines.lines().count() {
                let lines = with_line(rt.alloc(), lines, number, "! unplug k0\n")?;
                let script = joined(rt.alloc(), front.0, lines.as_str())?;
                expect_ends(&rt, rt.alloc(), name, script.as_str())?;
            }
        }
    }
    Ok(())
}

/// A text whose line of this number stands in front of the one before it.
fn with_line_earlier(alloc: Global, text: &str, number: usize) -> Result<String, AllocError> {
    let lines: Vec<&str> = text.lines().collect(alloc)?;
    let mut changed = String::new(alloc);
    for at in 0..lines.len() {
        let from = if at + 1 == number {
            number
        } else if at == number && 0 < number {
            number - 1
        } else {
            at
        };
        let Some(line) = lines.get(from) else {
            continue;
        };
        changed.push_str(line)?;
        changed.push('\n')?;
    }
    Ok(changed)
}

#[test]
fn each_close_comes_a_line_earlier(rt: HostRuntime) -> Result<(), Fail> {
    let mut closes = 0u32;
    for (front, rows) in &SCRIPTS {
        for (name, lines, _) in *rows {
            for (number, line) in lines.lines().enumerate() {
                if !line.starts_with("close ") {
                    continue;
                }
                closes = closes.saturating_add(1);
                let lines = with_line_earlier(rt.alloc(), lines, number)?;
                let script = joined(rt.alloc(), front.0, lines.as_str())?;
                expect_ends(&rt, rt.alloc(), name, script.as_str())?;
            }
        }
    }
    assert!(rt; 0 < closes);
    Ok(())
}

/// A source that gives at most 100 bytes at a time.
#[derive(Drop)]
struct Slow {
    source: MemSource,
}

impl Source for Slow {
    ghost left = { λ s. Some s.source.rest };

    ghost faults = { λ s. s.source.faults };

    ghost has_failed = { λ s. Contains s.source.fail_at s.source.calls };

    ghost has_ended = { λ s. IsTrue s.source.has_ended };

    fn read(&mut self, buf: &mut [u8]) -> Result<usize, Failed> {
        let most = buf.len().min(100);
        self.source.read(&mut buf[..most])
    }
}

/// Runs a script whose source fails at this read, counted from 1: nothing is written.
fn expect_read_fault(
    rt: &impl Abort,
    alloc: Global,
    name: &str,
    script: &str,
    read: u64,
) -> Result<(), Fail> {
    let bytes = Vec::from_slice(alloc, script.as_bytes())?;
    let mut source = Slow {
        source: MemSource::new(bytes, vec![in alloc; read]?),
    };
    let mut sink = MemSink::new(alloc, 65536, Vec::new(alloc))?;
    let answer = run_session(alloc, &mut source, &mut sink);
    let is_told = matches!(answer, Err(SessionError::ReadFault));
    assert!(rt;
        is_told && sink.bytes().is_empty(),
        "of {name} at read {read}"
    );
    Ok(())
}

#[test]
fn a_source_fails_at_each_of_its_first_reads(rt: HostRuntime) -> Result<(), Fail> {
    for (front, rows) in &SCRIPTS {
        for (name, lines, _) in *rows {
            let script = joined(rt.alloc(), front.0, lines)?;
            for read in 1..4 {
                expect_read_fault(&rt, rt.alloc(), name, script.as_str(), read)?;
            }
        }
    }
    Ok(())
}

/// Has one write of a run fail after the other. What was written before it is the beginning of the whole output.
fn expect_beginnings<R: Abort + Threads + Wait + Sync>(
    rt: &R,
    alloc: Global,
    name: &str,
    script: &str,
    output: &str,
) -> Result<(), Fail> {
    for write in 1..256 {
        let failing: (&[u64], &[u64]) = (&[], &[write]);
        let outcome = run_with(
            rt,
            alloc,
            &[],
            script.as_bytes(),
            failing,
            OpenGate,
            &Seen::new(),
        )?;
        let written = outcome.sink.bytes();
        if outcome.status == 0 {
            assert_eq!(rt; written, output.as_bytes(), "of {name}");
            return Ok(());
        }
        let is_told = outcome.status == 6 && output.as_bytes().starts_with(written);
        assert!(rt; is_told, "of {name} at write {write}");
    }
    assert!(rt; false, "{name} never ended");
    Ok(())
}

#[test]
fn a_sink_fails_at_each_of_its_writes(rt: HostRuntime) -> Result<(), Fail> {
    for (front, rows) in &SCRIPTS {
        for (name, lines, output) in *rows {
            let script = joined(rt.alloc(), front.0, lines)?;
            let output = joined(rt.alloc(), front.1, output)?;
            expect_beginnings(&rt, rt.alloc(), name, script.as_str(), output.as_str())?;
        }
    }
    Ok(())
}

/// Has one write of a run fail: the kernel that is handed back has no ticket that waits for its reap.
fn expect_kernel(
    rt: &impl Abort,
    alloc: Global,
    name: &str,
    script: &str,
    write: u64,
) -> Result<(), Fail> {
    let mut sink = MemSink::new(alloc, 65536, vec![in alloc; write]?)?;
    let parsed = parse_script(alloc, script.as_bytes())?;
    let Ran { result, kernel } = run_script(alloc, parsed, &mut sink);
    let is_told = matches!(result, Err(SessionError::WriteFault));
    let is_reaped = matches!(&kernel, Some(kernel) if kernel.unreaped() == 0);
    assert!(rt; is_told && is_reaped, "of {name} at write {write}");
    Ok(())
}

#[test]
fn a_run_that_stops_hands_its_kernel_back(rt: HostRuntime) -> Result<(), Fail> {
    for (front, rows) in &SCRIPTS {
        for (name, lines, _) in *rows {
            let script = joined(rt.alloc(), front.0, lines)?;
            for write in 1..4 {
                expect_kernel(&rt, rt.alloc(), name, script.as_str(), write)?;
            }
        }
    }
    Ok(())
}
