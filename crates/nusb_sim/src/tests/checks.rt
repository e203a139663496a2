//! The word `check`.

use super::{expect_faults, expect_run};
use std::test::Fail;

/// What it shows, the text, the status, what is written and what is reported.
const CHECKED: [(&str, &str, u8, &str, &str); 9] = [
    (
        "a trace",
        "nusb-trace 1\n\
         submit 0 0 81 64 in 64 -\n\
         pkt 0 81 010203\n\
         reap 0\n\
         fate 0 ok 3\n\
         end\n",
        0,
        "yes\n",
        "",
    ),
    (
        "another count in a fate",
        "nusb-trace 1\n\
         submit 0 0 81 64 in 64 -\n\
         pkt 0 81 010203\n\
         reap 0\n\
         fate 0 ok 2\n\
         end\n",
        0,
        "no 5\n",
        "",
    ),
    (
        "a reap left out",
        "nusb-trace 1\n\
         submit 0 0 81 64 in 64 -\n\
         pkt 0 81 010203\n\
         fate 0 ok 3\n\
         end\n",
        0,
        "no 4\n",
        "",
    ),
    (
        "a second reap",
        "nusb-trace 1\n\
         submit 0 0 81 64 in 64 -\n\
         pkt 0 81 010203\n\
         reap 0\n\
         reap 0\n\
         fate 0 ok 3\n\
         end\n",
        0,
        "no 5\n",
        "",
    ),
    (
        "no last line",
        "nusb-trace 1\n\
         submit 0 0 81 64 in 64 -\n\
         pkt 0 81 010203\n\
         reap 0\n\
         fate 0 ok 3\n",
        3,
        "",
        "nusb_sim: malformed line 6\n",
    ),
    (
        "a malformed line behind a second reap",
        "nusb-trace 1\n\
         submit 0 0 81 64 in 64 -\n\
         pkt 0 81 010203\n\
         reap 0\n\
         reap 0\n\
         reap\n",
        3,
        "",
        "nusb_sim: malformed line 6\n",
    ),
    (
        "no LF at the end",
        "nusb-trace 1\n\
         end",
        3,
        "",
        "nusb_sim: malformed line 2\n",
    ),
    (
        "no event",
        "nusb-trace 1\n\
         end\n",
        0,
        "yes\n",
        "",
    ),
    ("no text", "", 3, "", "nusb_sim: malformed line 1\n"),
];

#[test]
fn traces_are_checked(rt: HostRuntime) -> Result<(), Fail> {
    for (name, text, status, output, report) in &CHECKED {
        let wanted = (*status, *output, *report);
        expect_run(&rt, rt.alloc(), name, &["check"], text.as_bytes(), wanted)?;
    }
    let usage = "usage: nusb_sim [session|generate N|live N|disk N|trace|check]\n";
    let words = ["check", "1"];
    expect_run(&rt, rt.alloc(), "a word more", &words, b"", (2, "", usage))
}

#[test]
fn a_text_has_at_most_16_mebibytes(rt: HostRuntime) -> Result<(), Fail> {
    let mut text = Vec::from_slice(rt.alloc(), b"nusb-trace 1\n")?;
    text.resize(16_777_216, b' ')?;
    let words = ["check"];
    let wanted = (3, "", "nusb_sim: malformed line 2\n");
    let name = "the longest text";
    expect_run(&rt, rt.alloc(), name, &words, text.as_slice(), wanted)?;
    text.push(b' ')?;
    let wanted = (4, "", "nusb_sim: script too long\n");
    let name = "one byte too long";
    expect_run(&rt, rt.alloc(), name, &words, text.as_slice(), wanted)
}

/// The calls of the source and of the sink that fail, the status and what is reported.
const FAULTS: [(&[u64], &[u64], u8, &str); 3] = [
    (&[1], &[], 5, "nusb_sim: read fault\n"),
    (&[2], &[], 5, "nusb_sim: read fault\n"),
    (&[], &[1], 6, "nusb_sim: write fault\n"),
];

#[test]
fn faults_of_a_check_are_told(rt: HostRuntime) -> Result<(), Fail> {
    let text = b"nusb-trace 1\nend\n";
    for (reads, writes, status, report) in &FAULTS {
        let failing = (*reads, *writes);
        let wanted = (*status, "", *report);
        expect_faults(
            &rt,
            rt.alloc(),
            "a check",
            &["check"],
            text,
            failing,
            wanted,
        )?;
    }
    Ok(())
}
