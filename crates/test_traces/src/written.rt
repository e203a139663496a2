//! What is written of a kernel's journal.

ghost use Rattle.std.specs.Prelude.{◌≡◌, []};

use crate::acts::{Act, new_kernel, perform};
use crate::sink::TextSink;
use std::alloc::Global;
use std::process::Abort;
use std::test::Fail;
use usb_desc::NoMemory;
use usb_kernel::Kernel;
use usb_trace_lines::{can_be_written, write_trace};

/// What happens, and the line that tells it.
const EVENTS: [(Act, &str); 27] = [
    (Act::Want(0x81, 64), "submit 0 0 81 64 in 64 -\n"),
    (Act::Packet(0x81, b"\x01\x02\xff"), "pkt 0 81 0102ff\n"),
    (
        Act::Send(0x02, b"\xa0\x00"),
        "submit 1 0 02 64 out a000 -\n",
    ),
    (Act::Ack(0x02), "ack 0 02\n"),
    (Act::Send(0x02, b""), "submit 2 0 02 64 out - -\n"),
    (
        Act::WantBy(0x8f, 8, u64::MAX),
        "submit 3 0 8f 8 in 8 18446744073709551615\n",
    ),
    (Act::Echo(0x02, 0x8f), "echo 0 02 8f\n"),
    (Act::WantNothing(0x81, 512), "refuse 4 9 81 512 in 512 19\n"),
    (Act::Want(0x81, 64), "submit 5 0 81 64 in 64 -\n"),
    (Act::Stall(0x81), "fail 0 81 32\n"),
    (Act::Want(0x81, 64), "submit 6 0 81 64 in 64 -\n"),
    (Act::FailLast(0x81), "fail 0 81 4095\n"),
    (Act::Want(0x81, 64), "submit 7 0 81 64 in 64 -\n"),
    (Act::Discard(7), "discard 7\n"),
    (Act::Want(0x81, 2), "submit 8 0 81 2 in 2 -\n"),
    (Act::Packet(0x81, b"\x01\x02\x03"), "pkt 0 81 010203\n"),
    (Act::Want(0x81, 64), "submit 9 0 81 64 in 64 -\n"),
    (Act::Unplug, "unplug 0\n"),
    (Act::Reap(0), "reap 0\n"),
    (Act::Reap(1), "reap 1\n"),
    (Act::Reap(3), "reap 3\n"),
    (Act::Reap(5), "reap 5\n"),
    (Act::Reap(6), "reap 6\n"),
    (Act::Reap(7), "reap 7\n"),
    (Act::Reap(8), "reap 8\n"),
    // there is nothing more to reap of ticket 8, and device 0 is gone
    (Act::Reap(8), ""),
    (Act::Unplug, ""),
];

/// What became of the tickets. Tickets 2 and 9 are finished and not reaped.
const FATES: &str =
    "fate 0 ok 3\nfate 1 ok 2\nfate 2 open 0\nfate 3 ok 0\nfate 4 disconnected 0\nfate 5 stall 0\nfate 6 unknown:4095 0\nfate 7 cancelled 0\nfate 8 fault 0\nfate 9 open 0\n";

/// The trace of a kernel, of which no more than so many lines can be written.
fn trace_of(alloc: Global, kernel: &Kernel, lines: u32) -> Result<(TextSink, bool), NoMemory> {
    let mut sink = TextSink::new(alloc, lines)?;
    let is_written = can_be_written(kernel) && write_trace(kernel, &mut sink).is_ok();
    Ok((sink, is_written))
}

/// The text of lines.
fn text_of(alloc: Global, lines: &[&str]) -> Result<String, NoMemory> {
    let mut text = String::new(alloc);
    for line in lines {
        if text.push_str(line).is_err() {
            return Err(NoMemory);
        }
    }
    Ok(text)
}

/// The trace of all events.
fn whole_text(alloc: Global) -> Result<String, NoMemory> {
    let mut text = text_of(alloc, &["nusb-trace 1\n"])?;
    for (_, line) in &EVENTS {
        if text.push_str(line).is_err() {
            return Err(NoMemory);
        }
    }
    if text.push_str(FATES).is_err() || text.push_str("end\n").is_err() {
        return Err(NoMemory);
    }
    Ok(text)
}

fn acted(alloc: Global) -> Result<Kernel, NoMemory> {
    let mut kernel = new_kernel(alloc)?;
    for (event, _) in &EVENTS {
        perform(alloc, &mut kernel, *event)?;
    }
    Ok(kernel)
}

#[test]
fn a_journal_without_events_is_two_lines(rt: HostRuntime) -> Result<(), Fail> {
    let kernel = new_kernel(rt.alloc())?;
    let (sink, is_written) = trace_of(rt.alloc(), &kernel, 2)?;
    assert!(rt; is_written && sink.text() == b"nusb-trace 1\nend\n".as_slice());
    Ok(())
}

#[test]
fn each_event_and_each_fate_is_a_line(rt: HostRuntime) -> Result<(), Fail> {
    let kernel = acted(rt.alloc())?;
    let expected = whole_text(rt.alloc())?;
    let (sink, is_written) = trace_of(rt.alloc(), &kernel, 37)?;
    assert!(rt; is_written && sink.text() == expected.as_bytes());
    Ok(())
}

#[test]
fn a_write_that_fails_leaves_the_lines_before_it(rt: HostRuntime) -> Result<(), Fail> {
    let kernel = acted(rt.alloc())?;
    let expected = whole_text(rt.alloc())?;
    for lines in 0..37 {
        let (sink, is_written) = trace_of(rt.alloc(), &kernel, lines)?;
        let count = sink.text().iter().filter(|b| **b == b'\n').count();
        assert!(rt; !is_written && count == lines as usize);
        assert!(rt; expected.as_bytes().starts_with(sink.text()));
    }
    Ok(())
}
