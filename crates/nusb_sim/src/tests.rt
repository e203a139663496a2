//! Whole scripts: what the program writes, its status and its line on standard error.

mod checks;
mod clients;
mod controls;
mod crowded;
mod deadlines;
mod descriptors;
mod devices;
mod endpoints;
mod enumeration;
mod halts;
mod limits;
mod lines;
mod live;
mod readers;
mod steps;
mod stops;
mod traces;
mod writers;

use std::alloc::{AllocError, Global};
use std::io::{BufWriter, Cursor};
use std::process::Abort;
use std::sync::Wait;
use std::test::Fail;
use std::thread::Threads;
use usb_session_run::{
    Gate, Gathers, MemSink, MemSource, OpenGate, Seen, StdSink, StdSource, SureSink, SureSource,
    end_program, run_program, run_session,
};

/// The lines that open a device with a bulk IN endpoint 81 of 64 bytes and a bulk OUT endpoint 02, and their answers.
const OPENED: (&str, &str) = (
    "device k0 1 6 3 1 1201000200000040aaaabbbb0001000000010902200001010080320904000002ff0000000705810240000007050202400000\n\
     open d0 1 6\n\
     claim d0 0 i0\n\
     endpoint e0 i0 81 bulk-in\n",
    "ok\n\
     ok\n\
     ok\n",
);

/// What a run left: the status, the output and the report.
#[derive(Drop)]
struct Outcome {
    status: u8,
    sink: MemSink,
    diag: MemSink,
}

fn joined(alloc: Global, front: &str, back: &str) -> Result<String, AllocError> {
    let mut text = String::from_str(alloc, front)?;
    text.push_str(back)?;
    Ok(text)
}

/// Runs the program on words and a script, whose calls with these numbers fail, with a gate of `live`.
fn run_with<R: Threads + Wait + Sync, G: Gate + Send>(
    rt: &R,
    alloc: Global,
    texts: &[&str],
    script: &[u8],
    failing: (&[u64], &[u64]),
    gate: G,
    seen: &Seen,
) -> Result<Outcome, Fail> {
    let mut words = Vec::new(alloc);
    for text in texts {
        words.push(String::from_str(alloc, *text)?)?;
    }
    let mut source = MemSource::new(
        Vec::from_slice(alloc, script)?,
        Vec::from_slice(alloc, failing.0)?,
    );
    let mut sink = MemSink::new(alloc, 65536, Vec::from_slice(alloc, failing.1)?)?;
    let mut diag = MemSink::new(alloc, 65536, Vec::new(alloc))?;
    let status = run_program(
        rt,
        alloc,
        &words,
        &mut source,
        &mut sink,
        &mut diag,
        gate,
        seen,
    );
    Ok(Outcome { status, sink, diag })
}

/// Compares what a run came to: the status, what is written and what is reported.
fn expect(rt: &impl Abort, name: &str, outcome: &Outcome, wanted: (u8, &str, &str)) {
    let (status, output, report) = wanted;
    assert_eq!(rt; outcome.sink.bytes(), output.as_bytes(), "of {name}");
    let is_told = outcome.status == status && outcome.diag.bytes() == report.as_bytes();
    assert!(rt; is_told, "the status or the report of {name}");
}

/// Runs the program on words and a script, whose calls with these numbers fail.
fn expect_faults<R: Abort + Threads + Wait + Sync>(
    rt: &R,
    alloc: Global,
    name: &str,
    texts: &[&str],
    script: &[u8],
    failing: (&[u64], &[u64]),
    wanted: (u8, &str, &str),
) -> Result<(), Fail> {
    let outcome = run_with(rt, alloc, texts, script, failing, OpenGate, &Seen::new())?;
    expect(rt, name, &outcome, wanted);
    Ok(())
}

/// Runs the program on words and a script, and no call fails.
fn expect_run<R: Abort + Threads + Wait + Sync>(
    rt: &R,
    alloc: Global,
    name: &str,
    texts: &[&str],
    script: &[u8],
    wanted: (u8, &str, &str),
) -> Result<(), Fail> {
    expect_faults(rt, alloc, name, texts, script, (&[], &[]), wanted)
}

/// Runs scripts that go on behind the front, whose answers are written first. A row has a name, the script and what is written.
fn expect_rows<R: Abort + Threads + Wait + Sync>(
    rt: &R,
    alloc: Global,
    texts: &[&str],
    front: (&str, &str),
    rows: &[(&str, &str, &str)],
) -> Result<(), Fail> {
    for row in rows {
        let (name, script, output) = *row;
        let script = joined(alloc, front.0, script)?;
        let output = joined(alloc, front.1, output)?;
        let wanted = (0, output.as_str(), "");
        expect_run(rt, alloc, name, texts, script.as_bytes(), wanted)?;
    }
    Ok(())
}

/// Transfers of one endpoint, and calls that are refused.
const TRANSFERS: [(&str, &str, &str); 7] = [
    (
        "first packet",
        "submitin e0 64\n\
         poll e0\n\
         ! pkt k0 81 010203\n\
         poll e0\n\
         ! reap 0\n\
         poll e0\n",
        "ok\n\
         pending\n\
         pending\n\
         done ok 3 64 010203\n\
         ticket 0 k0 81 ok 3 taken\n",
    ),
    (
        "second reaped first",
        "submitin e0 64\n\
         submitin e0 64\n\
         ! pkt k0 81 01 ; pkt k0 81 0203 ; reap 1\n\
         poll e0\n\
         ! reap 0\n\
         poll e0\n\
         poll e0\n\
         poll e0\n",
        "ok\n\
         ok\n\
         pending\n\
         done ok 1 64 01\n\
         done ok 2 64 0203\n\
         condition\n\
         ticket 0 k0 81 ok 1 taken\n\
         ticket 1 k0 81 ok 2 taken\n",
    ),
    (
        "reaped and open tickets at the end",
        "submitin e0 64\n\
         submitin e0 64\n\
         submitin e0 64\n\
         ! pkt k0 81 01 ; reap 0\n",
        "ok\n\
         ok\n\
         ok\n\
         ticket 0 k0 81 ok 1 dropped\n\
         ticket 1 k0 81 cancelled 0 reclaimed\n\
         ticket 2 k0 81 cancelled 0 reclaimed\n",
    ),
    (
        "finished ticket at the end",
        "submitin e0 64\n\
         ! pkt k0 81 010203\n",
        "ok\n\
         ticket 0 k0 81 ok 3 reclaimed\n",
    ),
    (
        "empty packet and invalid length",
        "submitin e0 64\n\
         submitin e0 100\n\
         ! pkt k0 81 - ; reap 0\n\
         poll e0\n\
         poll e0\n",
        "ok\n\
         ok\n\
         done ok 0 64 -\n\
         done invalid 0 100 -\n\
         ticket 0 k0 81 ok 0 taken\n\
         ticket 1 k0 81 invalid 0 taken\n",
    ),
    (
        "calls that are refused",
        "open d0 1 6\n\
         open d1 1 7\n\
         claim d0 0 i1\n\
         claim d0 1 i1\n\
         claim d2 0 i1\n\
         endpoint e1 i0 82 bulk-in\n\
         endpoint e1 i0 02 bulk-in\n\
         endpoint e1 i0 81 bulk-in\n\
         poll e1\n",
        "condition\n\
         error Disconnected device not found (errno 2)\n\
         error Busy interface is busy (errno 16)\n\
         error NotFound interface not found (errno 2)\n\
         condition\n\
         error NotFound specified endpoint does not exist on this interface\n\
         error Other incorrect endpoint direction\n\
         error Busy endpoint already in use\n\
         condition\n",
    ),
    (
        "armed refusals",
        "! refuse k0 open 13 ; refuse k0 open 5 ; refuse k0 readdesc 71 ; refuse k0 getconfig 5\n\
         open d1 1 6\n\
         open d1 1 6\n\
         open d1 1 6\n\
         open d1 1 6\n\
         open d1 1 6\n\
         ! refuse k0 claim 71 ; refuse k0 claim 22\n\
         claim d1 0 i1\n\
         claim d1 0 i1\n\
         claim d1 0 i1\n\
         ! refuse k0 getconfig 5\n\
         endpoint e1 i0 02 bulk-out\n",
        "error PermissionDenied permission denied (errno 13)\n\
         error Other failed to open device (errno 5)\n\
         error Other failed to read descriptors (errno 71)\n\
         error Other failed to read sysfs bConfigurationValue\n\
         ok\n\
         error Other failed to claim interface (errno 71)\n\
         error NotFound interface not found (errno 22)\n\
         error Busy interface is busy (errno 16)\n\
         ok\n",
    ),
];

#[test]
fn answers_each_call_and_then_each_ticket(rt: HostRuntime) -> Result<(), Fail> {
    let rows = TRANSFERS.as_slice();
    expect_rows(&rt, rt.alloc(), &[], OPENED, rows)?;
    expect_rows(&rt, rt.alloc(), &["session"], OPENED, rows)
}

/// Scripts, the status, what is written and what is reported.
const UNANSWERED: [(&str, &str, u8, &str, &str); 6] = [
    ("no line", "", 0, "", ""),
    (
        "malformed",
        "open d0 1",
        3,
        "",
        "nusb_sim: malformed line 1\n",
    ),
    (
        "malformed after a call",
        "open d0 1 6\n\
         open d0 1\n",
        3,
        "",
        "nusb_sim: malformed line 2\n",
    ),
    (
        "no descriptors",
        "device k0 1 6 3 1 -\n\
         open d0 1 6\n",
        0,
        "error Other invalid device descriptor\n",
        "",
    ),
    (
        "device descriptor cut off",
        "device k0 1 6 3 1 1201000200000040aaaabbbb0001000000\n\
         open d0 1 6\n",
        0,
        "error Other invalid device descriptor\n",
        "",
    ),
    (
        "maximum packet size 0",
        "device k0 1 6 3 1 1201000200000040aaaabbbb0001000000010902200001010080320904000002ff0000000705810200000007050202400000\n\
         open d0 1 6\n\
         claim d0 0 i0\n\
         endpoint e0 i0 81 bulk-in\n",
        0,
        "ok\n\
         ok\n\
         error Other endpoint has max packet size 0\n",
        "",
    ),
];

#[test]
fn tells_why_nothing_was_answered(rt: HostRuntime) -> Result<(), Fail> {
    for (name, script, status, output, report) in &UNANSWERED {
        let wanted = (*status, *output, *report);
        expect_run(&rt, rt.alloc(), name, &[], script.as_bytes(), wanted)?;
    }
    let wanted = (
        2,
        "",
        "usage: nusb_sim [session|generate N|live N|disk N|trace|check]\n",
    );
    expect_run(&rt, rt.alloc(), "an unknown word", &["--help"], b"", wanted)?;
    expect_run(&rt, rt.alloc(), "another one", &["--version"], b"", wanted)
}

/// A script of 1,048,576 bytes is answered so, and with one byte more it is too long.
fn expect_longest<R: Abort + Threads + Wait + Sync>(
    rt: &R,
    alloc: Global,
    script: &mut Vec<u8>,
    more: u8,
    output: &str,
) -> Result<(), Fail> {
    assert_eq!(rt; script.len(), 1048576);
    let wanted = (0, output, "");
    expect_run(
        rt,
        alloc,
        "the longest script",
        &[],
        script.as_slice(),
        wanted,
    )?;
    script.push(more)?;
    let wanted = (4, "", "nusb_sim: script too long\n");
    expect_run(
        rt,
        alloc,
        "one byte too long",
        &[],
        script.as_slice(),
        wanted,
    )
}

#[test]
fn stops_at_the_longest_script(rt: HostRuntime) -> Result<(), Fail> {
    let mut script = Vec::from_slice(rt.alloc(), b"poll e0")?;
    script.resize(1048576, b' ')?;
    expect_longest(&rt, rt.alloc(), &mut script, b' ', "condition\n")
}

/// The calls of the source and of the sink that fail, the status, what was written and what is reported.
const FAULTS: [(&str, &[u64], &[u64], u8, &str, &str); 3] = [
    (
        "a source whose first read fails",
        &[1],
        &[],
        5,
        "",
        "nusb_sim: read fault\n",
    ),
    (
        "a source whose second read fails",
        &[2],
        &[],
        5,
        "",
        "nusb_sim: read fault\n",
    ),
    (
        "a sink that fails at its third call",
        &[],
        &[3],
        6,
        "ok\n\
         ok\n",
        "nusb_sim: write fault\n",
    ),
];

#[test]
fn keeps_the_lines_before_a_fault(rt: HostRuntime) -> Result<(), Fail> {
    let script = joined(rt.alloc(), OPENED.0, "poll e0\n")?;
    for (name, reads, writes, status, output, report) in &FAULTS {
        let failing = (*reads, *writes);
        let wanted = (*status, *output, *report);
        expect_faults(
            &rt,
            rt.alloc(),
            name,
            &[],
            script.as_bytes(),
            failing,
            wanted,
        )?;
    }
    Ok(())
}

#[test]
fn counts_calls_and_tickets(rt: HostRuntime) -> Result<(), Fail> {
    let script = joined(
        rt.alloc(),
        OPENED.0,
        "submitin e0 64\n\
         submitin e0 64\n\
         ! pkt k0 81 01 ; reap 0\n\
         poll e0\n",
    )?;
    let mut source = SureSource::new(Vec::from_slice(rt.alloc(), script.as_bytes())?);
    let summary = run_session(rt.alloc(), &mut source, &mut SureSink::new())?;
    assert!(rt; summary.calls == 6 && summary.tickets == 2);
    assert!(rt; summary.taken == 1 && summary.dropped == 0 && summary.reclaimed == 1);
    Ok(())
}

#[test]
fn reads_and_writes_by_standard_traits(rt: HostRuntime) -> Result<(), Fail> {
    let mut output = Vec::new(rt.alloc());
    let mut sink = StdSink::new(&mut output);
    let mut source = StdSource::new(b"poll e0\n".as_slice());
    let summary = run_session(rt.alloc(), &mut source, &mut sink)?;
    assert!(rt; summary.calls == 1 && output.as_slice() == b"condition\n".as_slice());
    Ok(())
}

/// The room of the output, the status that a run of one answer is told to have, the status at which the program ends, what is
/// reported, and what lies in the room.
const ROOMS: [(usize, u8, u8, &str, &str); 5] = [
    (64, 0, 0, "", "condition\n"),
    (10, 0, 0, "", "condition\n"),
    (9, 0, 6, "nusb_sim: write fault\n", "condition"),
    (10, 7, 7, "", "condition\n"),
    (9, 5, 5, "", "condition"),
];

/// Runs a script of one answer on this sink, ends the program as with this status, and says the status at which it ends.
fn run_into<K: Gathers>(
    alloc: Global,
    status: u8,
    sink: &mut K,
    diag: &mut MemSink,
) -> Result<u8, Fail> {
    let mut source = SureSource::new(Vec::from_slice(alloc, b"poll e0\n")?);
    run_session(alloc, &mut source, sink)?;
    Ok(end_program(status, sink, diag))
}

/// The status at which such a run ends where the output has this room, with what is reported.
fn report_of(alloc: Global, status: u8, room: &mut [u8], diag: &mut MemSink) -> Result<u8, Fail> {
    let output = BufWriter::new(alloc, Cursor::new(room))?;
    let mut sink = StdSink::new(output);
    run_into(alloc, status, &mut sink, diag)
}

#[test]
fn hands_on_what_was_gathered_before_the_status_is_told(rt: HostRuntime) -> Result<(), Fail> {
    for (room, ended, status, report, output) in &ROOMS {
        let mut kept = Vec::new(rt.alloc());
        kept.resize(*room, 0)?;
        let mut diag = MemSink::new(rt.alloc(), 64, Vec::new(rt.alloc()))?;
        let told = report_of(rt.alloc(), *ended, kept.as_mut_slice(), &mut diag)?;
        let is_told = told == *status && diag.bytes() == report.as_bytes();
        assert!(rt; is_told, "with room for {room} and status {ended}");
        let is_kept = kept.as_slice().starts_with(output.as_bytes());
        assert!(rt; is_kept, "in the room for {room}");
    }
    Ok(())
}
