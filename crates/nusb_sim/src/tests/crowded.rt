//! More tickets unreaped than calls may hand in: then no call is made, until steps have reaped enough.

use super::{OPENED, expect_run};
use std::alloc::{AllocError, Global};
use std::test::Fail;

/// Makes a reader with 64 transfers, each of which gets a packet of no bytes; behind it a line of steps begins.
const READER: (&str, &str) = (
    "reader r0 e0 64\n\
     num r0 64\n\
     pollread r0 5\n\
     ! ",
    "ok\n\
     ok\n\
     pending\n",
);

/// Hands a control transfer in, which goes on without its name.
const GIVEN_UP: (&str, &str) = (
    "fin f0 d0 vendor device 30 0000 0000 64 100\n\
     close f0\n",
    "ok\n\
     ok\n",
);

/// Appends a text so often.
pub(super) fn push_times(text: &mut String, part: &str, count: u32) -> Result<(), AllocError> {
    for _ in 0..count {
        text.push_str(part)?;
    }
    Ok(())
}

/// The script up to a read that hands in a transfer for each of 64 packets: 1,020 tickets are unreaped before it, and 1,084 behind it.
fn crowding(alloc: Global) -> Result<String, AllocError> {
    let mut script = String::from_str(alloc, OPENED.0)?;
    script.push_str(READER.0)?;
    push_times(&mut script, "pkt k0 81 - ; ", 64)?;
    push_times(&mut script, "reap ; ", 63)?;
    script.push_str("reap\n")?;
    push_times(&mut script, GIVEN_UP.0, 1020)?;
    script.push_str("pollread r0 5\n")?;
    Ok(script)
}

/// The answers up to there.
fn crowded(alloc: Global) -> Result<String, AllocError> {
    let mut output = String::from_str(alloc, OPENED.1)?;
    output.push_str(READER.1)?;
    push_times(&mut output, GIVEN_UP.1, 1020)?;
    output.push_str("pending\n")?;
    Ok(output)
}

/// Appends the fate lines of these tickets, which go on alike behind their numbers.
pub(super) fn push_fates(
    text: &mut String,
    first: u32,
    behind: u32,
    fate: &str,
) -> Result<(), AllocError> {
    let alloc = *text.allocator();
    for ticket in first..behind {
        let line = format!(in alloc; "ticket {ticket} {fate}\n")?;
        text.push_str(line.as_str())?;
    }
    Ok(())
}

/// Appends the fate lines of the tickets up to there.
fn push_crowd(text: &mut String) -> Result<(), AllocError> {
    push_fates(text, 0, 64, "k0 81 ok 0 taken")?;
    push_fates(text, 64, 1084, "k0 80 cancelled 0 reclaimed")?;
    push_fates(text, 1084, 1148, "k0 81 cancelled 0 reclaimed")
}

#[test]
fn bars_every_call_above_1024_unreaped(rt: HostRuntime) -> Result<(), Fail> {
    let mut script = crowding(rt.alloc())?;
    script.push_str(
        "now\n\
                     poll e0\n\
                     close d0\n\
                     isend r0\n\
                     pending e0\n\
                     list\n",
    )?;
    let mut output = crowded(rt.alloc())?;
    push_times(&mut output, "condition\n", 6)?;
    push_crowd(&mut output)?;
    let wanted = (0, output.as_str(), "");
    expect_run(&rt, rt.alloc(), "crowded", &[], script.as_bytes(), wanted)
}

#[test]
fn makes_calls_again_once_1024_are_unreaped(rt: HostRuntime) -> Result<(), Fail> {
    let mut script = crowding(rt.alloc())?;
    // The control transfers are finished, and 59 of them reaped; then one more behind a barred call.
    script.push_str("! clock 100 ; timer ; ")?;
    push_times(&mut script, "reap ; ", 58)?;
    script.push_str(
        "reap\n\
                     now\n\
                     read r0 5 : reap ; clock 107\n\
                     now\n",
    )?;
    script.push_str(GIVEN_UP.0)?;
    script.push_str("! reap\n")?;
    script.push_str(GIVEN_UP.0)?;
    let mut output = crowded(rt.alloc())?;
    output.push_str(
        "condition\n\
                     condition\n\
                     now 107\n\
                     condition\n\
                     condition\n\
                     ok\n\
                     ok\n",
    )?;
    push_crowd(&mut output)?;
    push_fates(&mut output, 1148, 1149, "k0 80 cancelled 0 reclaimed")?;
    let wanted = (0, output.as_str(), "");
    expect_run(
        &rt,
        rt.alloc(),
        "fewer again",
        &[],
        script.as_bytes(),
        wanted,
    )
}
