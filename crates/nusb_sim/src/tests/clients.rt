//! Lines of clients of messages.

use super::crowded::{push_fates, push_times};
use super::{expect_rows, expect_run};
use std::alloc::{AllocError, Global};
use std::test::Fail;

/// The lines that make a client of a bulk OUT endpoint 02 and a bulk IN endpoint 81, and their answers.
const CLIENT: (&str, &str) = (
    "device k0 1 6 3 1 1201000200000040aaaabbbb0001000000010902200001010080320904000002ff0000000705810240000007050202400000\n\
     open d0 1 6\n\
     claim d0 0 i0\n\
     endpoint e0 i0 02 bulk-out\n\
     endpoint e1 i0 81 bulk-in\n\
     msg m0 e0 e1\n",
    "ok\n\
     ok\n\
     ok\n\
     ok\n\
     ok\n",
);

/// Requests and responses, and what ends a client.
const ANSWERED: [(&str, &str, &str); 7] = [
    (
        "requests and responses",
        "mreq m0 aabb\n\
         mreq m0 -\n\
         mcount m0\n\
         mresp m0 : pkt k0 81 00000000cc\n\
         mresp m0 : pkt k0 81 01000000\n\
         mresp m0\n",
        "request 0\n\
         request 1\n\
         count 2\n\
         response cc\n\
         response -\n\
         condition\n\
         ticket 0 k0 02 cancelled 0 reclaimed\n\
         ticket 1 k0 02 cancelled 0 reclaimed\n\
         ticket 2 k0 81 ok 5 taken\n\
         ticket 3 k0 81 ok 4 taken\n",
    ),
    (
        "wrong tag",
        "mreq m0 aa\n\
         mresp m0 : pkt k0 81 05000000\n\
         mreq m0 -\n",
        "request 0\n\
         msgerror wrong-tag 0 5\n\
         msgerror wrong-tag 0 5\n\
         ticket 0 k0 02 cancelled 0 reclaimed\n\
         ticket 1 k0 81 ok 4 taken\n",
    ),
    (
        "short response",
        "mreq m0 aa\n\
         mresp m0 : pkt k0 81 0102\n\
         mreq m0 -\n",
        "request 0\n\
         msgerror short 2\n\
         msgerror short 2\n\
         ticket 0 k0 02 cancelled 0 reclaimed\n\
         ticket 1 k0 81 ok 2 taken\n",
    ),
    (
        "a tag that comes twice",
        "mreq m0 aa\n\
         mreq m0 bb\n\
         mresp m0 : pkt k0 81 00000000\n\
         mresp m0 : pkt k0 81 00000000\n\
         mcount m0\n",
        "request 0\n\
         request 1\n\
         response -\n\
         msgerror wrong-tag 1 0\n\
         count 1\n\
         ticket 0 k0 02 cancelled 0 reclaimed\n\
         ticket 1 k0 02 cancelled 0 reclaimed\n\
         ticket 2 k0 81 ok 4 taken\n\
         ticket 3 k0 81 ok 4 taken\n",
    ),
    (
        "a response of no bytes",
        "mreq m0 -\n\
         mresp m0 : pkt k0 81 -\n\
         mresp m0\n",
        "request 0\n\
         msgerror short 0\n\
         msgerror short 0\n\
         ticket 0 k0 02 cancelled 0 reclaimed\n\
         ticket 1 k0 81 ok 0 taken\n",
    ),
    (
        "a transfer that stalls",
        "mreq m0 aa\n\
         mresp m0 : fail k0 81 32\n\
         mreq m0 bb\n\
         mresp m0\n\
         close m0\n",
        "request 0\n\
         io ConnectionReset endpoint stalled\n\
         io ConnectionReset endpoint stalled\n\
         io ConnectionReset endpoint stalled\n\
         ok\n\
         ticket 0 k0 02 cancelled 0 reclaimed\n\
         ticket 1 k0 81 stall 0 taken\n",
    ),
    (
        "a device that is gone",
        "mreq m0 aa\n\
         mresp m0 : unplug k0\n\
         mreq m0 bb\n\
         close m0\n",
        "request 0\n\
         io ConnectionAborted device disconnected\n\
         io ConnectionAborted device disconnected\n\
         ok\n\
         ticket 0 k0 02 disconnected 0 dropped\n\
         ticket 1 k0 81 disconnected 0 taken\n",
    ),
];

/// Time that is over ends no client.
const GOES_ON: [(&str, &str, &str); 3] = [
    (
        "the time of a response is over inside its frame",
        "mreq m0 aa : ack k0 02\n\
         mresp m0 : pkt k0 81 00000000111111111111111111111111111111111111111111111111111111111111111111111111111111111111111111111111111111111111111111111111\n\
         mcount m0\n\
         mresp m0\n\
         mresp m0 : pkt k0 81 22\n\
         mcount m0\n\
         mresp m0\n",
        "request 0\n\
         io TimedOut timeout waiting for read\n\
         count 1\n\
         io TimedOut timeout waiting for read\n\
         response 11111111111111111111111111111111111111111111111111111111111111111111111111111111111111111111111111111111111111111111111122\n\
         count 0\n\
         condition\n\
         ticket 0 k0 02 ok 5 dropped\n\
         ticket 1 k0 81 ok 65 taken\n",
    ),
    (
        "the time of a request is over with no request sent",
        "mreq m0 01\n\
         mreq m0 02\n\
         mreq m0 03\n\
         mreq m0 04\n\
         mreq m0 05\n\
         mcount m0\n\
         mreq m0 05 : ack k0 02 ; reap\n\
         mcount m0\n",
        "request 0\n\
         request 1\n\
         request 2\n\
         request 3\n\
         io TimedOut write timeout\n\
         count 4\n\
         request 4\n\
         count 5\n\
         ticket 0 k0 02 ok 5 taken\n\
         ticket 1 k0 02 cancelled 0 reclaimed\n\
         ticket 2 k0 02 cancelled 0 reclaimed\n\
         ticket 3 k0 02 cancelled 0 reclaimed\n\
         ticket 4 k0 02 cancelled 0 reclaimed\n",
    ),
    (
        "a request of a whole packet has an empty transfer behind it",
        "mreq m0 111111111111111111111111111111111111111111111111111111111111111111111111111111111111111111111111111111111111111111111111 : ack k0 02 ; ack k0 02 ; reap ; reap\n\
         mresp m0 : pkt k0 81 00000000111111111111111111111111111111111111111111111111111111111111111111111111111111111111111111111111111111111111111111111111 ; pkt k0 81 -\n\
         mcount m0\n",
        "request 0\n\
         response 111111111111111111111111111111111111111111111111111111111111111111111111111111111111111111111111111111111111111111111111\n\
         count 0\n\
         ticket 0 k0 02 ok 64 dropped\n\
         ticket 1 k0 02 ok 0 dropped\n\
         ticket 2 k0 81 ok 64 taken\n",
    ),
];

/// Clients by name.
const NAMES: [(&str, &str, &str); 4] = [
    (
        "a client has both endpoints",
        "submitin e1 64\n\
         endpoint e0 i0 02 bulk-out\n\
         endpoint e2 i0 02 bulk-out\n\
         msg m1 e0 e1\n\
         close m1\n\
         mcount m1\n\
         close e0\n",
        "condition\n\
         error Busy endpoint already in use\n\
         error Busy endpoint already in use\n\
         condition\n\
         condition\n\
         condition\n\
         condition\n",
    ),
    (
        "a closed client gives up what is pending, its writer's first",
        "mreq m0 aa\n\
         mresp m0\n\
         close m0\n\
         mresp m0\n\
         endpoint e0 i0 02 bulk-out\n\
         ! reap ; reap\n\
         endpoint e0 i0 02 bulk-out\n\
         endpoint e1 i0 81 bulk-in\n\
         msg m63 e0 e1\n\
         mreq m63 -\n",
        "request 0\n\
         io TimedOut timeout waiting for read\n\
         ok\n\
         condition\n\
         error Busy endpoint already in use\n\
         ok\n\
         ok\n\
         ok\n\
         request 0\n\
         ticket 0 k0 02 cancelled 0 reclaimed\n\
         ticket 1 k0 81 cancelled 0 reclaimed\n\
         ticket 2 k0 02 cancelled 0 reclaimed\n",
    ),
    (
        "no client is made of these",
        "close m0\n\
         endpoint e0 i0 02 bulk-out\n\
         endpoint e1 i0 81 bulk-in\n\
         msg m0 e1 e0\n\
         msg m0 e0 e0\n\
         msg m0 e1 e1\n\
         msg m0 e0 e5\n\
         msg m0 e5 e1\n\
         submitout e0 aa\n\
         msg m0 e0 e1\n\
         ! ack k0 02 ; reap\n\
         msg m0 e0 e1\n\
         poll e0\n\
         msg m0 e0 e1\n\
         msg m0 e0 e1\n",
        "ok\n\
         ok\n\
         ok\n\
         condition\n\
         condition\n\
         condition\n\
         condition\n\
         condition\n\
         ok\n\
         condition\n\
         condition\n\
         done ok 1 1 aa\n\
         ok\n\
         condition\n\
         ticket 0 k0 02 ok 1 taken\n",
    ),
    (
        "a client of an endpoint that a reader had, closed at the end",
        "close m0\n\
         endpoint e0 i0 02 bulk-out\n\
         endpoint e1 i0 81 bulk-in\n\
         reader r0 e1 64\n\
         pollread r0 1\n\
         close r0\n\
         ! reap\n\
         endpoint e1 i0 81 bulk-in\n\
         msg m5 e0 e1\n\
         mreq m5 aa\n\
         mresp m5\n",
        "ok\n\
         ok\n\
         ok\n\
         ok\n\
         pending\n\
         ok\n\
         ok\n\
         ok\n\
         request 0\n\
         io TimedOut timeout waiting for read\n\
         ticket 0 k0 81 cancelled 0 reclaimed\n\
         ticket 1 k0 02 cancelled 0 reclaimed\n\
         ticket 2 k0 81 cancelled 0 reclaimed\n",
    ),
];

#[test]
fn answers_requests(rt: HostRuntime) -> Result<(), Fail> {
    expect_rows(&rt, rt.alloc(), &[], CLIENT, ANSWERED.as_slice())
}

#[test]
fn goes_on_behind_time(rt: HostRuntime) -> Result<(), Fail> {
    expect_rows(&rt, rt.alloc(), &[], CLIENT, GOES_ON.as_slice())
}

#[test]
fn has_both_endpoints(rt: HostRuntime) -> Result<(), Fail> {
    expect_rows(&rt, rt.alloc(), &[], CLIENT, NAMES.as_slice())
}

/// Eight transfers of 512 bytes, each behind a time that is over, and then a byte more than a frame has.
fn long_response(alloc: Global) -> Result<String, AllocError> {
    let mut script = String::from_str(alloc, CLIENT.0)?;
    script.push_str("mreq m0 -\n")?;
    for _ in 0..8 {
        script.push_str("mresp m0 : pkt k0 81 ")?;
        push_times(&mut script, "00", 64)?;
        for _ in 1..8 {
            script.push_str(" ; pkt k0 81 ")?;
            push_times(&mut script, "00", 64)?;
        }
        script.push_str("\n")?;
    }
    script.push_str("mresp m0 : pkt k0 81 0000000000\nmreq m0 -\n")?;
    Ok(script)
}

#[test]
fn ends_at_a_long_message(rt: HostRuntime) -> Result<(), Fail> {
    let script = long_response(rt.alloc())?;
    let mut output = String::from_str(rt.alloc(), CLIENT.1)?;
    output.push_str("request 0\n")?;
    push_times(&mut output, "io TimedOut timeout waiting for read\n", 8)?;
    push_times(&mut output, "msgerror too-long\n", 2)?;
    push_fates(&mut output, 0, 1, "k0 02 cancelled 0 reclaimed")?;
    push_fates(&mut output, 1, 9, "k0 81 ok 512 taken")?;
    push_fates(&mut output, 9, 10, "k0 81 ok 5 taken")?;
    let wanted = (0, output.as_str(), "");
    expect_run(
        &rt,
        rt.alloc(),
        "a long message",
        &[],
        script.as_bytes(),
        wanted,
    )
}

/// Appends the answers of requests with the tags up to there.
fn push_tags(text: &mut String, behind: u32) -> Result<(), AllocError> {
    let alloc = *text.allocator();
    for tag in 0..behind {
        let line = format!(in alloc; "request {tag}\n")?;
        text.push_str(line.as_str())?;
    }
    Ok(())
}

#[test]
fn has_sixteen_requests_under_way(rt: HostRuntime) -> Result<(), Fail> {
    let mut script = String::from_str(rt.alloc(), CLIENT.0)?;
    push_times(&mut script, "mreq m0 -\n", 4)?;
    push_times(&mut script, "mreq m0 - : ack k0 02 ; reap\n", 13)?;
    script.push_str("mcount m0\n")?;
    let mut output = String::from_str(rt.alloc(), CLIENT.1)?;
    push_tags(&mut output, 16)?;
    output.push_str("condition\ncount 16\n")?;
    push_fates(&mut output, 0, 12, "k0 02 ok 4 taken")?;
    push_fates(&mut output, 12, 13, "k0 02 ok 4 dropped")?;
    push_fates(&mut output, 13, 16, "k0 02 cancelled 0 reclaimed")?;
    let wanted = (0, output.as_str(), "");
    expect_run(
        &rt,
        rt.alloc(),
        "sixteen requests",
        &[],
        script.as_bytes(),
        wanted,
    )
}
