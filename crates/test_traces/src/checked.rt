//! What the check of a trace answers.

ghost use Rattle.std.specs.Prelude.{◌≤◌, ◌^◌, length};

use std::process::Abort;
use std::test::Fail;
use usb_trace::{Verdict, check_trace};

/// Texts, with a | for each LF, and their verdicts.
const TEXTS: [(&str, &str); 43] = [
    ("nusb-trace 1|end|", "yes"),
    // one transfer
    (
        "nusb-trace 1|submit 0 0 81 64 in 64 -|pkt 0 81 010203|reap 0|fate 0 ok 3|end|",
        "yes",
    ),
    (
        "nusb-trace 1|submit 0 0 81 64 in 64 -|pkt 0 81 010203|reap 0|fate 0 ok 2|end|",
        "no 5",
    ),
    (
        "nusb-trace 1|submit 0 0 81 64 in 64 -|pkt 0 81 010203|reap 0|fate 0 open 3|end|",
        "no 5",
    ),
    (
        "nusb-trace 1|submit 0 0 81 64 in 64 -|pkt 0 81 010203|fate 0 ok 3|end|",
        "no 4",
    ),
    (
        "nusb-trace 1|submit 0 0 81 64 in 64 -|pkt 0 81 010203|fate 0 open 3|end|",
        "yes",
    ),
    (
        "nusb-trace 1|submit 0 0 81 64 in 64 -|pkt 0 81 010203|reap 0|fate 0 ok 3|",
        "malformed line 6",
    ),
    (
        "nusb-trace 1|submit 0 0 81 64 in 64 -|pkt 0 81 010203|reap 0|reap 0|fate 0 ok 3|end|",
        "no 5",
    ),
    (
        "nusb-trace 1|submit 0 0 81 64 in 64 -|reap 0|pkt 0 81 010203|fate 0 open 3|end|",
        "no 3",
    ),
    // fates out of order, too many and too few
    (
        "nusb-trace 1|submit 0 0 81 64 in 64 -|submit 1 0 81 64 in 64 -|fate 0 open 0|fate 1 open 0|end|",
        "yes",
    ),
    (
        "nusb-trace 1|submit 0 0 81 64 in 64 -|submit 1 0 81 64 in 64 -|fate 1 open 0|fate 0 open 0|end|",
        "no 4",
    ),
    (
        "nusb-trace 1|submit 0 0 81 64 in 64 -|fate 0 open 0|fate 1 open 0|end|",
        "no 4",
    ),
    ("nusb-trace 1|fate 0 open 0|end|", "no 2"),
    (
        "nusb-trace 1|submit 0 0 81 64 in 64 -|submit 1 0 81 64 in 64 -|fate 0 open 0|end|",
        "no 5",
    ),
    ("nusb-trace 1|submit 0 0 81 64 in 64 -|end|", "no 3"),
    // numbers of tickets, and lengths that are no whole packets
    ("nusb-trace 1|submit 1 0 81 64 in 64 -|end|", "no 2"),
    ("nusb-trace 1|submit 0 0 81 64 in 63 -|end|", "no 2"),
    ("nusb-trace 1|submit 0 0 81 64 in 0 -|end|", "no 2"),
    (
        "nusb-trace 1|submit 0 0 81 0 in 0 -|fate 0 open 0|end|",
        "yes",
    ),
    (
        "nusb-trace 1|refuse 0 0 81 64 in 63 19|fate 0 disconnected 0|end|",
        "yes",
    ),
    ("nusb-trace 1|refuse 0 0 81 64 in 63 19|reap 0|end|", "no 3"),
    // steps that find no transfer, or one of the other direction
    ("nusb-trace 1|pkt 0 81 -|end|", "no 2"),
    (
        "nusb-trace 1|submit 0 0 02 64 out 00 -|pkt 0 02 00|end|",
        "no 3",
    ),
    (
        "nusb-trace 1|submit 0 0 02 64 out 00 -|ack 0 02|reap 0|fate 0 ok 1|end|",
        "yes",
    ),
    (
        "nusb-trace 1|submit 0 0 81 64 in 64 -|ack 0 81|end|",
        "no 3",
    ),
    (
        "nusb-trace 1|submit 0 0 81 64 in 64 -|submit 1 0 02 64 out 00 -|echo 0 02 81|fate 0 open 1|fate 1 open 1|end|",
        "yes",
    ),
    (
        "nusb-trace 1|submit 0 0 02 64 out 00 -|echo 0 02 81|end|",
        "no 3",
    ),
    (
        "nusb-trace 1|submit 0 0 81 64 in 64 -|fail 0 81 32|reap 0|fate 0 stall 0|end|",
        "yes",
    ),
    (
        "nusb-trace 1|submit 0 0 81 64 in 64 -|fail 1 81 32|end|",
        "no 3",
    ),
    (
        "nusb-trace 1|submit 0 0 81 64 in 64 -|discard 0|discard 0|end|",
        "no 4",
    ),
    // devices that are gone
    (
        "nusb-trace 1|submit 0 7 81 64 in 64 5|unplug 7|reap 0|fate 0 disconnected 0|end|",
        "yes",
    ),
    ("nusb-trace 1|unplug 7|unplug 7|end|", "no 3"),
    (
        "nusb-trace 1|unplug 7|submit 0 7 81 64 in 64 -|end|",
        "no 3",
    ),
    (
        "nusb-trace 1|unplug 7|refuse 0 7 81 64 in 64 19|fate 0 disconnected 0|end|",
        "yes",
    ),
    // outside the form, also behind a line that no trace has there
    ("", "malformed line 1"),
    ("nusb-trace 1|end", "malformed line 2"),
    ("nusb-trace 1|nusb-trace 1|end|", "malformed line 2"),
    ("nusb-trace 1|end||", "malformed line 3"),
    ("nusb-trace 1|end|end|", "malformed line 3"),
    ("nusb-trace 1|end|reap 0", "malformed line 3"),
    ("nusb-trace 1|fate 0 open 0|reap 0|end|", "malformed line 3"),
    (
        "nusb-trace 1|reap 0|submit 0 0 01 64 in 64 -|end|",
        "malformed line 3",
    ),
    ("end|", "malformed line 1"),
];

/// The verdict on a text, as a word.
fn write_verdict(out: &mut String, text: &[u8]) -> Result<(), Fail>
    requires few { length text.now ≤ 2 ^ 24 }
{
    let alloc = *out.allocator();
    match check_trace(alloc, text) {
        Ok(Verdict::Yes) => out.push_str("yes")?,
        Ok(Verdict::No { line }) => write!(out, "no {line}")?,
        Err(error) => write!(out, "{error}")?,
    }
    Ok(())
}

#[test]
fn each_text_has_its_verdict(rt: HostRuntime) -> Result<(), Fail> {
    for (text, verdict) in &TEXTS {
        let text = text.replace(rt.alloc(), "|", "\n")?;
        let mut answer = String::new(rt.alloc());
        if text.len() <= 16777216 {
            write_verdict(&mut answer, text.as_bytes())?;
        }
        assert_eq!(rt; answer.as_str(), *verdict, "{text}");
    }
    Ok(())
}
