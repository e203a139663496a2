//! Lines that are skipped, and the ends of lines.

use super::{expect_longest, expect_run};
use std::test::Fail;

const MALFORMED_1: &str = "nusb_sim: malformed line 1\n";

/// Lines, the status, what is written and what is reported.
const LINES: [(&str, &[u8], u8, &str, &str); 9] = [
    ("comment of any bytes", b"#\xff\x00", 0, "", ""),
    ("empty line with CR LF", b"\r\n", 0, "", ""),
    (
        "skipped lines",
        b"\n  \n\
          # poll e0\n\
          poll e0\n",
        0,
        "condition\n",
        "",
    ),
    ("no LF at the end", b"poll e0", 0, "condition\n", ""),
    ("CR LF", b"now\r\n", 0, "now 0\n", ""),
    ("CR LF behind a poll", b"poll e0\r\n", 0, "condition\n", ""),
    ("two CR", b"poll e0\r\r\n", 3, "", MALFORMED_1),
    ("tab", b"\topen d0 1 6\n", 3, "", MALFORMED_1),
    (
        "malformed after a comment",
        b"# a comment\n\
          open d0 1\n",
        3,
        "",
        "nusb_sim: malformed line 2\n",
    ),
];

#[test]
fn skips_comments_and_empty_lines(rt: HostRuntime) -> Result<(), Fail> {
    for (name, script, status, output, report) in &LINES {
        let wanted = (*status, *output, *report);
        expect_run(&rt, rt.alloc(), name, &[], *script, wanted)?;
    }
    Ok(())
}

/// A line of 64 bytes.
const COMMENT: &[u8] = b"# xxxxxxxxxxxxxxxxxxxxxxxxxxxxxxxxxxxxxxxxxxxxxxxxxxxxxxxxxxxxx\n";

#[test]
fn reads_the_longest_script_of_comments(rt: HostRuntime) -> Result<(), Fail> {
    let mut script = Vec::new(rt.alloc());
    for _ in 0..16384 {
        script.extend_from_slice(COMMENT)?;
    }
    expect_longest(&rt, rt.alloc(), &mut script, b'\n', "")
}
