//! The words `live`, `generate` and `disk`.

ghost use Rattle.std.specs.Prelude.{◌≡◌, false};

use super::{expect, expect_faults, expect_run, run_with};
use std::test::Fail;
use std::thread::yield_now;
use usb_session_run::{Gate, Seen};

/// Always passes. At its first pass it waits for `seen`, and notes in `asked` that it was asked and in `found` that it found it set.
#[derive(Drop)]
struct Watching<'a> {
    seen: &'a Seen,
    asked: &'a Seen,
    found: &'a Seen,
}

impl<'a> Gate for Watching<'a> {
    ghost is_closed = { λ _. false };

    fn pass(&mut self) -> bool {
        if !self.asked.get() {
            self.asked.set();
            wait_for(self.seen, self.found);
        }
        true
    }
}

/// Sets `found` where `seen` is set within a million turns.
fn wait_for(seen: &Seen, found: &Seen) {
    for _ in 0..1_000_000u32 {
        if seen.get() {
            found.set();
            return;
        }
        yield_now();
    }
}

const USAGE: &str = "usage: nusb_sim [session|generate N|live N|disk N|trace|check]\n";

/// Words, the status, what is written and what is reported.
const GENERATED: [(&[&str], u8, &str, &str); 8] = [
    (
        &["generate", "1"],
        0,
        "generate 1 calls 12 tickets 5 taken 2 dropped 0 reclaimed 3\n",
        "",
    ),
    (
        &["generate", "002"],
        0,
        "generate 2 calls 18 tickets 7 taken 4 dropped 0 reclaimed 3\n",
        "",
    ),
    (
        &["generate", "200"],
        0,
        "generate 200 calls 1284 tickets 485 taken 482 dropped 0 reclaimed 3\n",
        "",
    ),
    (
        &["generate", "2000"],
        0,
        "generate 2000 calls 12768 tickets 4823 taken 4820 dropped 0 reclaimed 3\n",
        "",
    ),
    (&["generate", "0"], 2, "", USAGE),
    (&["generate", "2001"], 2, "", USAGE),
    (&["generate"], 2, "", USAGE),
    (&["generate", "1", "1"], 2, "", USAGE),
];

#[test]
fn generated_scripts_are_run(rt: HostRuntime) -> Result<(), Fail> {
    for (words, status, output, report) in &GENERATED {
        let wanted = (*status, *output, *report);
        expect_run(&rt, rt.alloc(), "generate", *words, b"", wanted)?;
    }
    Ok(())
}

/// Words, the status, what is written and what is reported.
const LIVE: [(&[&str], u8, &str, &str); 8] = [
    (
        &["live", "3"],
        0,
        "live 3 submitted 3 taken 3 dropped 0 reclaimed 0\n",
        "",
    ),
    (
        &["live", "0001"],
        0,
        "live 1 submitted 1 taken 1 dropped 0 reclaimed 0\n",
        "",
    ),
    (&["live", "0"], 2, "", USAGE),
    (&["live", "1001"], 2, "", USAGE),
    (&["live", "00000000000000000001"], 2, "", USAGE),
    (&["live", "1x"], 2, "", USAGE),
    (&["live"], 2, "", USAGE),
    (&["live", "1", "1"], 2, "", USAGE),
];

#[test]
fn live_writes_its_line(rt: HostRuntime) -> Result<(), Fail> {
    for (words, status, output, report) in &LIVE {
        let wanted = (*status, *output, *report);
        expect_run(&rt, rt.alloc(), "live", *words, b"", wanted)?;
    }
    Ok(())
}

/// Words, the status, what is written and what is reported.
const DISKS: [(&[&str], u8, &str, &str); 10] = [
    (
        &["disk", "1"],
        0,
        "disk 1 writes 1 reads 1 failed 0 sum 65280\n",
        "",
    ),
    (
        &["disk", "002"],
        0,
        "disk 2 writes 2 reads 2 failed 0 sum 195840\n",
        "",
    ),
    (
        &["disk", "84"],
        0,
        "disk 84 writes 83 reads 83 failed 2 sum 13447680\n",
        "",
    ),
    (
        &["disk", "500"],
        0,
        "disk 500 writes 496 reads 496 failed 8 sum 80686080\n",
        "",
    ),
    (&["disk", "0"], 2, "", USAGE),
    (&["disk", "501"], 2, "", USAGE),
    (&["disk", "00000000000000000001"], 2, "", USAGE),
    (&["disk", "1x"], 2, "", USAGE),
    (&["disk"], 2, "", USAGE),
    (&["disk", "1", "1"], 2, "", USAGE),
];

#[test]
fn disk_writes_its_line(rt: HostRuntime) -> Result<(), Fail> {
    for (words, status, output, report) in &DISKS {
        let wanted = (*status, *output, *report);
        expect_run(&rt, rt.alloc(), "disk", *words, b"", wanted)?;
    }
    Ok(())
}

#[test]
fn a_failed_write_is_told(rt: HostRuntime) -> Result<(), Fail> {
    let failing: (&[u64], &[u64]) = (&[], &[1]);
    for words in &[["live", "2"], ["generate", "2"], ["disk", "2"]] {
        let wanted = (6, "", "nusb_sim: write fault\n");
        expect_faults(&rt, rt.alloc(), words[0], words, b"", failing, wanted)?;
    }
    Ok(())
}

#[test]
fn the_loop_runs_beside_the_caller(rt: HostRuntime) -> Result<(), Fail> {
    let seen = Seen::new();
    let asked = Seen::new();
    let found = Seen::new();
    let gate = Watching {
        seen: &seen,
        asked: &asked,
        found: &found,
    };
    let words = ["live", "1"];
    let outcome = run_with(&rt, rt.alloc(), &words, b"", (&[], &[]), gate, &seen)?;
    let line = "live 1 submitted 1 taken 1 dropped 0 reclaimed 0\n";
    expect(&rt, "live", &outcome, (0, line, ""));
    assert!(rt; asked.get() && found.get());
    Ok(())
}
