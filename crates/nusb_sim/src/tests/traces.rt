//! The word `trace`.

use super::stops::SCRIPTS;
use super::{OPENED, expect_faults, expect_run, joined, run_with};
use std::alloc::Global;
use std::process::Abort;
use std::sync::Wait;
use std::test::Fail;
use std::thread::Threads;
use usb_session_run::{OpenGate, Seen};

/// What it shows, the lines behind those that open a bulk IN endpoint, and the trace. The traces are worked by hand.
const TRACED: [(&str, &str, &str); 4] = [
    (
        "a transfer that was taken",
        "submitin e0 64\n\
         poll e0\n\
         ! pkt k0 81 010203\n\
         poll e0\n\
         ! reap 0\n\
         poll e0\n",
        "nusb-trace 1\n\
         submit 0 0 81 64 in 64 -\n\
         pkt 0 81 010203\n\
         reap 0\n\
         fate 0 ok 3\n\
         end\n",
    ),
    ("no transfer", "", "nusb-trace 1\nend\n"),
    (
        "a transfer that is unfinished at the end",
        "submitin e0 128\n\
         ! pkt k0 81 -\n\
         submitin e0 64\n",
        "nusb-trace 1\n\
         submit 0 0 81 64 in 128 -\n\
         pkt 0 81 -\n\
         submit 1 0 81 64 in 64 -\n\
         discard 1\n\
         reap 0\n\
         reap 1\n\
         fate 0 ok 0\n\
         fate 1 cancelled 0\n\
         end\n",
    ),
    (
        "a device that goes",
        "submitin e0 64\n\
         ! unplug k0\n",
        "nusb-trace 1\n\
         submit 0 0 81 64 in 64 -\n\
         unplug 0\n\
         reap 0\n\
         fate 0 disconnected 0\n\
         end\n",
    ),
];

#[test]
fn runs_are_traced(rt: HostRuntime) -> Result<(), Fail> {
    for (name, lines, trace) in &TRACED {
        let script = joined(rt.alloc(), OPENED.0, lines)?;
        let wanted = (0, *trace, "");
        let words = ["trace"];
        expect_run(&rt, rt.alloc(), name, &words, script.as_bytes(), wanted)?;
    }
    let wanted = (0, "nusb-trace 1\nend\n", "");
    expect_run(&rt, rt.alloc(), "no line", &["trace"], b"", wanted)
}

#[test]
fn scripts_without_a_trace_are_told(rt: HostRuntime) -> Result<(), Fail> {
    let words = ["trace"];
    let wanted = (3, "", "nusb_sim: malformed line 2\n");
    let name = "a malformed line";
    expect_run(&rt, rt.alloc(), name, &words, b"poll e0\npoll\n", wanted)?;
    let usage = "usage: nusb_sim [session|generate N|live N|disk N|trace|check]\n";
    let words = ["trace", "1"];
    expect_run(&rt, rt.alloc(), "a word more", &words, b"", (2, "", usage))
}

#[test]
fn a_traced_script_has_at_most_a_mebibyte(rt: HostRuntime) -> Result<(), Fail> {
    let mut script = Vec::new(rt.alloc());
    script.resize(1_048_576, b' ')?;
    let words = ["trace"];
    let wanted = (0, "nusb-trace 1\nend\n", "");
    let name = "the longest script";
    expect_run(&rt, rt.alloc(), name, &words, script.as_slice(), wanted)?;
    script.push(b' ')?;
    let wanted = (4, "", "nusb_sim: script too long\n");
    let name = "one byte too long";
    expect_run(&rt, rt.alloc(), name, &words, script.as_slice(), wanted)
}

/// The calls of the source and of the sink that fail, the status, what is written and what is reported.
const FAULTS: [(&[u64], &[u64], u8, &str, &str); 4] = [
    (&[1], &[], 5, "", "nusb_sim: read fault\n"),
    (&[2], &[], 5, "", "nusb_sim: read fault\n"),
    (&[], &[1], 6, "", "nusb_sim: write fault\n"),
    (
        &[],
        &[4],
        6,
        "nusb-trace 1\n\
         submit 0 0 81 64 in 64 -\n\
         discard 0\n",
        "nusb_sim: write fault\n",
    ),
];

#[test]
fn faults_of_a_trace_are_told(rt: HostRuntime) -> Result<(), Fail> {
    let script = joined(rt.alloc(), OPENED.0, "submitin e0 64\n")?;
    for (reads, writes, status, output, report) in &FAULTS {
        let failing = (*reads, *writes);
        let wanted = (*status, *output, *report);
        expect_faults(
            &rt,
            rt.alloc(),
            "a trace",
            &["trace"],
            script.as_bytes(),
            failing,
            wanted,
        )?;
    }
    Ok(())
}

/// Traces a script, and has the trace checked.
fn expect_checked<R: Abort + Threads + Wait + Sync>(
    rt: &R,
    alloc: Global,
    name: &str,
    script: &str,
) -> Result<(), Fail> {
    let outcome = run_with(
        rt,
        alloc,
        &["trace"],
        script.as_bytes(),
        (&[], &[]),
        OpenGate,
        &Seen::new(),
    )?;
    assert!(rt; outcome.status == 0, "of {name}");
    let wanted = (0, "yes\n", "");
    expect_run(rt, alloc, name, &["check"], outcome.sink.bytes(), wanted)
}

#[test]
fn what_is_traced_is_checked_yes(rt: HostRuntime) -> Result<(), Fail> {
    for (front, rows) in &SCRIPTS {
        for (name, lines, _) in *rows {
            let script = joined(rt.alloc(), front.0, lines)?;
            expect_checked(&rt, rt.alloc(), name, script.as_str())?;
        }
    }
    Ok(())
}
