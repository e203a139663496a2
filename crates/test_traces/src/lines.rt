//! Which lines tell something, each by itself.

use std::alloc::Global;
use std::process::Abort;
use std::test::Fail;
use usb_desc::NoMemory;
use usb_script_words::LineError;
use usb_trace_lines::{LineText, read_line};

/// Lines of traces.
const LINES: [&str; 30] = [
    "nusb-trace 1",
    "submit 0 0 81 64 in 64 -",
    "submit 18446744073709551615 255 ff 65536 in 67582 18446744073709551615",
    "submit 0 0 00 0 out - 0",
    "submit 0 0 7f 0 out 00ff 1",
    "refuse 0 9 81 64 in 0 1",
    "refuse 0 9 02 64 out 0a 4095",
    "pkt 0 81 -",
    "pkt 0 81 010203",
    "pkt 0 02 00",
    "ack 0 02",
    "ack 0 81",
    "echo 0 02 81",
    "fail 0 81 1",
    "fail 0 81 4095",
    "discard 0",
    "discard 18446744073709551615",
    "reap 1",
    "unplug 255",
    "fate 0 open 0",
    "fate 0 ok 67582",
    "fate 0 cancelled 0",
    "fate 0 stall 0",
    "fate 0 disconnected 0",
    "fate 0 fault 0",
    "fate 0 invalid 0",
    "fate 0 unknown:1 0",
    "fate 0 unknown:4095 0",
    "fate 18446744073709551615 open 1",
    "end",
];

/// Lines outside the form.
const OTHERS: [&str; 55] = [
    "",
    " ",
    "nusb-trace",
    "nusb-trace 2",
    "nusb-trace 01",
    "nusb-trace 1 ",
    " nusb-trace 1",
    "nusb-trace  1",
    "NUSB-TRACE 1",
    "submit 0 0 81 64 in 64",
    "submit 0 0 81 64 in 64 - -",
    "submit 00 0 81 64 in 64 -",
    "submit 18446744073709551616 0 81 64 in 64 -",
    "submit 0 256 81 64 in 64 -",
    "submit 0 0 8 64 in 64 -",
    "submit 0 0 081 64 in 64 -",
    "submit 0 0 8A 64 in 64 -",
    "submit 0 0 81 65537 in 64 -",
    "submit 0 0 81 64 in 67583 -",
    "submit 0 0 81 64 in 064 -",
    "submit 0 0 81 64 in - -",
    "submit 0 0 01 64 in 64 -",
    "submit 0 0 81 64 out 00 -",
    "submit 0 0 02 64 out 0 -",
    "submit 0 0 02 64 out 0A -",
    "submit 0 0 02 64 both 00 -",
    "submit 0 0 81 64 in 64 18446744073709551616",
    "submit 0 0 81 64 in 64 +1",
    "refuse 0 9 81 64 in 64 -",
    "refuse 0 9 81 64 in 64 0",
    "refuse 0 9 81 64 in 64 4096",
    "pkt 0 81",
    "pkt 0 81 01 02",
    "pkt 0 81 0",
    "pkt 0 81 0G",
    "ack 0",
    "ack 0 02 02",
    "echo 0 02",
    "fail 0 81",
    "fail 0 81 0",
    "fail 0 81 4096",
    "discard",
    "discard -1",
    "discard 0 0",
    "reap 0\r",
    "unplug 256",
    "fate 0 ok",
    "fate 0 ok 67583",
    "fate 0 OK 0",
    "fate 0 unknown:0 0",
    "fate 0 unknown:4096 0",
    "fate 0 unknown:07 0",
    "fate 0 unknown: 0",
    "end 1",
    "# end",
];

/// Whether a line tells something.
fn tells(alloc: Global, line: &str) -> Result<bool, NoMemory> {
    let mut words = Vec::new(alloc);
    let Ok(mut text) = LineText::new(alloc) else {
        return Err(NoMemory);
    };
    match read_line(alloc, &mut words, &mut text, line.as_bytes()) {
        Ok(_) => Ok(true),
        Err(LineError::Malformed) => Ok(false),
        Err(LineError::Memory) => Err(NoMemory),
    }
}

#[test]
fn lines_of_traces_tell_something(rt: HostRuntime) -> Result<(), Fail> {
    for line in &LINES {
        assert!(rt; tells(rt.alloc(), line)?, "{line}");
    }
    Ok(())
}

#[test]
fn other_lines_tell_nothing(rt: HostRuntime) -> Result<(), Fail> {
    for line in &OTHERS {
        assert!(rt; !tells(rt.alloc(), line)?, "{line}");
    }
    Ok(())
}
