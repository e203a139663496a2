//! Lines of readers: messages, ends and faults.

use super::{OPENED, expect_rows};
use std::test::Fail;

/// Messages and their ends, for transfers of one and of two packets, and reads of faults.
pub const FRAMED: [(&str, &str, &str); 9] = [
    (
        "framed reads size 64",
        "reader r0 e0 64\n\
         num r0 6\n\
         ! pkt k0 81 11111111111111111111111111111111111111111111111111111111111111111111111111111111111111111111111111111111111111111111111111111111 ; pkt k0 81 22222222222222222222222222222222222222222222222222222222222222222222222222222222222222222222222222222222222222222222222222222222 ; pkt k0 81 33333333333333333333 ; pkt k0 81 44444444444444444444444444444444444444444444444444444444444444444444444444444444444444444444444444444444444444444444444444444444 ; pkt k0 81 -\n\
         sread r0 64\n\
         sread r0 64\n\
         sread r0 64\n\
         sread r0 64\n\
         isend r0\n\
         endmsg r0\n\
         sread r0 64\n\
         sread r0 64\n\
         endmsg r0\n\
         endmsg r0\n",
        "ok\n\
         ok\n\
         read 64 11111111111111111111111111111111111111111111111111111111111111111111111111111111111111111111111111111111111111111111111111111111\n\
         read 64 22222222222222222222222222222222222222222222222222222222222222222222222222222222222222222222222222222222222222222222222222222222\n\
         read 10 33333333333333333333\n\
         read 0 -\n\
         end true\n\
         ok\n\
         read 64 44444444444444444444444444444444444444444444444444444444444444444444444444444444444444444444444444444444444444444444444444444444\n\
         read 0 -\n\
         ok\n\
         expected short packet\n\
         ticket 0 k0 81 ok 64 taken\n\
         ticket 1 k0 81 ok 64 taken\n\
         ticket 2 k0 81 ok 10 taken\n\
         ticket 3 k0 81 ok 64 taken\n\
         ticket 4 k0 81 ok 0 taken\n\
         ticket 5 k0 81 cancelled 0 reclaimed\n\
         ticket 6 k0 81 cancelled 0 reclaimed\n\
         ticket 7 k0 81 cancelled 0 reclaimed\n\
         ticket 8 k0 81 cancelled 0 reclaimed\n\
         ticket 9 k0 81 cancelled 0 reclaimed\n",
    ),
    (
        "framed reads size 128",
        "reader r0 e0 128\n\
         num r0 6\n\
         ! pkt k0 81 11111111111111111111111111111111111111111111111111111111111111111111111111111111111111111111111111111111111111111111111111111111 ; pkt k0 81 22222222222222222222222222222222222222222222222222222222222222222222222222222222222222222222222222222222222222222222222222222222 ; pkt k0 81 33333333333333333333 ; pkt k0 81 44444444444444444444444444444444444444444444444444444444444444444444444444444444444444444444444444444444444444444444444444444444 ; pkt k0 81 -\n\
         sread r0 64\n\
         sread r0 64\n\
         sread r0 64\n\
         sread r0 64\n\
         isend r0\n\
         endmsg r0\n\
         sread r0 64\n\
         sread r0 64\n\
         endmsg r0\n\
         endmsg r0\n",
        "ok\n\
         ok\n\
         read 64 11111111111111111111111111111111111111111111111111111111111111111111111111111111111111111111111111111111111111111111111111111111\n\
         read 64 22222222222222222222222222222222222222222222222222222222222222222222222222222222222222222222222222222222222222222222222222222222\n\
         read 10 33333333333333333333\n\
         read 0 -\n\
         end true\n\
         ok\n\
         read 64 44444444444444444444444444444444444444444444444444444444444444444444444444444444444444444444444444444444444444444444444444444444\n\
         read 0 -\n\
         ok\n\
         expected short packet\n\
         ticket 0 k0 81 ok 128 taken\n\
         ticket 1 k0 81 ok 10 taken\n\
         ticket 2 k0 81 ok 64 taken\n\
         ticket 3 k0 81 cancelled 0 reclaimed\n\
         ticket 4 k0 81 cancelled 0 reclaimed\n\
         ticket 5 k0 81 cancelled 0 reclaimed\n\
         ticket 6 k0 81 cancelled 0 reclaimed\n\
         ticket 7 k0 81 cancelled 0 reclaimed\n",
    ),
    (
        "cancelled reader makes no end",
        "reader r0 e0 128\n\
         num r0 2\n\
         ! pkt k0 81 11111111111111111111111111111111111111111111111111111111111111111111111111111111111111111111111111111111111111111111111111111111\n\
         cancel r0\n\
         sread r0 100\n\
         isend r0\n\
         sread r0 100\n\
         read r0 100\n",
        "ok\n\
         ok\n\
         ok\n\
         read 64 11111111111111111111111111111111111111111111111111111111111111111111111111111111111111111111111111111111111111111111111111111111\n\
         end false\n\
         io UnexpectedEof ended without short packet\n\
         read 0 -\n\
         ticket 0 k0 81 cancelled 64 taken\n",
    ),
    (
        "end left by idle turn",
        "reader r0 e0 64\n\
         sread r0 5 : pkt k0 81 0a\n\
         cancel r0\n\
         read r0 5\n\
         isend r0\n\
         endmsg r0\n",
        "ok\n\
         read 1 0a\n\
         ok\n\
         read 0 -\n\
         end true\n\
         ok\n\
         ticket 0 k0 81 ok 1 taken\n",
    ),
    (
        "packet too long is a lasting fault",
        "reader r0 e0 128\n\
         num r0 2\n\
         ! pkt k0 81 11111111111111111111111111111111111111111111111111111111111111111111111111111111111111111111111111111111111111111111111111111111 ; pkt k0 81 2222222222222222222222222222222222222222222222222222222222222222222222222222222222222222222222222222222222222222222222222222222222\n\
         read r0 100\n\
         read r0 100\n\
         read r0 100\n",
        "ok\n\
         ok\n\
         read 64 11111111111111111111111111111111111111111111111111111111111111111111111111111111111111111111111111111111111111111111111111111111\n\
         io Other hardware fault or protocol violation\n\
         io Other hardware fault or protocol violation\n\
         ticket 0 k0 81 fault 64 taken\n\
         ticket 1 k0 81 cancelled 0 reclaimed\n",
    ),
    (
        "refused submissions",
        "reader r0 e0 64\n\
         ! refuse k0 submit 2\n\
         read r0 10\n\
         read r0 10\n\
         endpoint e1 i0 02 bulk-out\n\
         submitout e1 0102\n\
         cancel e1\n\
         poll e1\n\
         ! reap\n\
         poll e1\n",
        "ok\n\
         io Other unknown (errno 2)\n\
         io Other unknown (errno 2)\n\
         ok\n\
         ok\n\
         ok\n\
         pending\n\
         done cancelled 0 2 0102\n\
         ticket 0 k0 81 unknown:2 0 taken\n\
         ticket 1 k0 02 cancelled 0 taken\n",
    ),
    (
        "messages are read one by one, and a cancel ends them",
        "reader r0 e0 64\n\
         num r0 6\n\
         ! pkt k0 81 11111111111111111111111111111111111111111111111111111111111111111111111111111111111111111111111111111111111111111111111111111111 ; pkt k0 81 22222222222222222222222222222222222222222222222222222222222222222222222222222222222222222222222222222222222222222222222222222222 ; pkt k0 81 33333333333333333333 ; pkt k0 81 44444444444444444444444444444444444444444444444444444444444444444444444444444444444444444444444444444444444444444444444444444444 ; pkt k0 81 -\n\
         endmsg r0\n\
         sread r0 64\n\
         sread r0 64\n\
         sread r0 64\n\
         sread r0 64\n\
         isend r0\n\
         endmsg r0\n\
         isend r0\n\
         sread r0 64\n\
         sread r0 64\n\
         endmsg r0\n\
         endmsg r0\n\
         cancel r0\n\
         sread r0 64\n",
        "ok\n\
         ok\n\
         expected short packet\n\
         read 64 11111111111111111111111111111111111111111111111111111111111111111111111111111111111111111111111111111111111111111111111111111111\n\
         read 64 22222222222222222222222222222222222222222222222222222222222222222222222222222222222222222222222222222222222222222222222222222222\n\
         read 10 33333333333333333333\n\
         read 0 -\n\
         end true\n\
         ok\n\
         end false\n\
         read 64 44444444444444444444444444444444444444444444444444444444444444444444444444444444444444444444444444444444444444444444444444444444\n\
         read 0 -\n\
         ok\n\
         expected short packet\n\
         ok\n\
         io UnexpectedEof ended without short packet\n\
         ticket 0 k0 81 ok 64 taken\n\
         ticket 1 k0 81 ok 64 taken\n\
         ticket 2 k0 81 ok 10 taken\n\
         ticket 3 k0 81 ok 64 taken\n\
         ticket 4 k0 81 ok 0 taken\n\
         ticket 5 k0 81 cancelled 0 taken\n\
         ticket 6 k0 81 cancelled 0 taken\n\
         ticket 7 k0 81 cancelled 0 taken\n\
         ticket 8 k0 81 cancelled 0 taken\n\
         ticket 9 k0 81 cancelled 0 taken\n",
    ),
    (
        "reads of a stream go over the ends of its messages",
        "reader r0 e0 64\n\
         num r0 6\n\
         ! pkt k0 81 11111111111111111111111111111111111111111111111111111111111111111111111111111111111111111111111111111111111111111111111111111111 ; pkt k0 81 22222222222222222222222222222222222222222222222222222222222222222222222222222222222222222222222222222222222222222222222222222222 ; pkt k0 81 33333333333333333333 ; pkt k0 81 44444444444444444444444444444444444444444444444444444444444444444444444444444444444444444444444444444444444444444444444444444444 ; pkt k0 81 -\n\
         read r0 64\n\
         read r0 64\n\
         read r0 64\n\
         read r0 64\n\
         timeout r0 1\n\
         read r0 64\n\
         timeout r0 max\n\
         cancel r0\n\
         read r0 64\n\
         inner e0 r0\n\
         pending e0\n",
        "ok\n\
         ok\n\
         read 64 11111111111111111111111111111111111111111111111111111111111111111111111111111111111111111111111111111111111111111111111111111111\n\
         read 64 22222222222222222222222222222222222222222222222222222222222222222222222222222222222222222222222222222222222222222222222222222222\n\
         read 10 33333333333333333333\n\
         read 64 44444444444444444444444444444444444444444444444444444444444444444444444444444444444444444444444444444444444444444444444444444444\n\
         ok\n\
         io TimedOut timeout waiting for read\n\
         ok\n\
         ok\n\
         read 0 -\n\
         ok\n\
         count 0\n\
         ticket 0 k0 81 ok 64 taken\n\
         ticket 1 k0 81 ok 64 taken\n\
         ticket 2 k0 81 ok 10 taken\n\
         ticket 3 k0 81 ok 64 taken\n\
         ticket 4 k0 81 ok 0 taken\n\
         ticket 5 k0 81 cancelled 0 taken\n\
         ticket 6 k0 81 cancelled 0 taken\n\
         ticket 7 k0 81 cancelled 0 taken\n\
         ticket 8 k0 81 cancelled 0 taken\n\
         ticket 9 k0 81 cancelled 0 taken\n\
         ticket 10 k0 81 cancelled 0 taken\n",
    ),
    (
        "bytes stand until they are taken off, and a fault lasts for each call",
        "reader r0 e0 65\n\
         num r0 2\n\
         pollread r0 64\n\
         pollsread r0 64\n\
         pollfill r0\n\
         pollsfill r0\n\
         ! pkt k0 81 0a0a0a\n\
         pollfill r0\n\
         ! reap 0\n\
         pollfill r0\n\
         consume r0 4\n\
         consume r0 1\n\
         fill r0\n\
         pollsfill r0\n\
         isend r0\n\
         pollread r0 64\n\
         isend r0\n\
         sfill r0\n\
         pollsread r0 64\n\
         endmsg r0\n\
         pollsfill r0\n\
         ! pkt k0 81 11111111111111111111111111111111111111111111111111111111111111111111111111111111111111111111111111111111111111111111111111111111 ; pkt k0 81 2222222222222222222222222222222222222222222222222222222222222222222222222222222222222222222222222222222222222222222222222222222222 ; reap 1\n\
         sfill r0\n\
         sconsume r0 60\n\
         pollsread r0 64\n\
         read r0 64\n\
         sread r0 64\n\
         pollread r0 64\n\
         pollsread r0 64\n\
         fill r0\n\
         sfill r0\n\
         pollfill r0\n\
         pollsfill r0\n\
         cancel r0\n\
         read r0 64\n\
         sread r0 64\n\
         pollread r0 64\n\
         pollsread r0 64\n\
         fill r0\n\
         sfill r0\n\
         pollfill r0\n\
         pollsfill r0\n",
        "ok\n\
         ok\n\
         pending\n\
         pending\n\
         pending\n\
         pending\n\
         pending\n\
         buf 3 0a0a0a\n\
         condition\n\
         ok\n\
         buf 2 0a0a\n\
         buf 2 0a0a\n\
         end false\n\
         read 2 0a0a\n\
         end true\n\
         buf 0 -\n\
         read 0 -\n\
         ok\n\
         pending\n\
         buf 64 11111111111111111111111111111111111111111111111111111111111111111111111111111111111111111111111111111111111111111111111111111111\n\
         ok\n\
         read 4 11111111\n\
         io Other hardware fault or protocol violation\n\
         io Other hardware fault or protocol violation\n\
         io Other hardware fault or protocol violation\n\
         io Other hardware fault or protocol violation\n\
         io Other hardware fault or protocol violation\n\
         io Other hardware fault or protocol violation\n\
         io Other hardware fault or protocol violation\n\
         io Other hardware fault or protocol violation\n\
         ok\n\
         io Other hardware fault or protocol violation\n\
         io Other hardware fault or protocol violation\n\
         io Other hardware fault or protocol violation\n\
         io Other hardware fault or protocol violation\n\
         io Other hardware fault or protocol violation\n\
         io Other hardware fault or protocol violation\n\
         io Other hardware fault or protocol violation\n\
         io Other hardware fault or protocol violation\n\
         ticket 0 k0 81 ok 3 taken\n\
         ticket 1 k0 81 fault 64 taken\n\
         ticket 2 k0 81 cancelled 0 reclaimed\n",
    ),
];

#[test]
fn reads_messages_with_their_ends_and_faults(rt: HostRuntime) -> Result<(), Fail> {
    expect_rows(&rt, rt.alloc(), &[], OPENED, FRAMED.as_slice())
}

/// Polls, fills, timeouts, and what becomes of the endpoint.
const FURTHER: [(&str, &str, &str); 11] = [
    (
        "polls of a reader",
        "reader r0 e0 64\n\
         pollread r0 5\n\
         ! pkt k0 81 0a ; reap\n\
         pollsread r0 5\n\
         pollsread r0 5\n\
         pollread r0 5\n",
        "ok\n\
         pending\n\
         read 1 0a\n\
         read 0 -\n\
         pending\n\
         ticket 0 k0 81 ok 1 taken\n\
         ticket 1 k0 81 cancelled 0 reclaimed\n",
    ),
    (
        "bytes that stand are lent and taken off",
        "reader r0 e0 64\n\
         fill r0 : pkt k0 81 010203\n\
         consume r0 4\n\
         consume r0 2\n\
         pollfill r0\n\
         sconsume r0 1\n\
         sfill r0\n\
         isend r0\n\
         endmsg r0\n\
         pollsfill r0\n\
         pollfill r0\n",
        "ok\n\
         buf 3 010203\n\
         condition\n\
         ok\n\
         buf 1 03\n\
         ok\n\
         buf 0 -\n\
         end true\n\
         ok\n\
         pending\n\
         pending\n\
         ticket 0 k0 81 ok 3 taken\n\
         ticket 1 k0 81 cancelled 0 reclaimed\n",
    ),
    (
        "a read times out and the next one begins anew",
        "reader r0 e0 64\n\
         timeout r0 100\n\
         read r0 5 : clock 100\n\
         read r0 5 : clock 150 ; pkt k0 81 01\n\
         now\n",
        "ok\n\
         ok\n\
         io TimedOut timeout waiting for read\n\
         read 1 01\n\
         now 150\n\
         ticket 0 k0 81 ok 1 taken\n",
    ),
    (
        "an end is gone once a turn submits",
        "reader r0 e0 64\n\
         read r0 5 : pkt k0 81 01\n\
         pollread r0 5\n\
         isend r0\n\
         endmsg r0\n",
        "ok\n\
         read 1 01\n\
         pending\n\
         end false\n\
         expected short packet\n\
         ticket 0 k0 81 ok 1 taken\n\
         ticket 1 k0 81 cancelled 0 reclaimed\n",
    ),
    (
        "a size is rounded up to whole packets",
        "reader r0 e0 65\n\
         read r0 65536 : pkt k0 81 11111111111111111111111111111111111111111111111111111111111111111111111111111111111111111111111111111111111111111111111111111111 ; pkt k0 81 0102\n",
        "ok\n\
         read 66 111111111111111111111111111111111111111111111111111111111111111111111111111111111111111111111111111111111111111111111111111111110102\n\
         ticket 0 k0 81 ok 66 taken\n",
    ),
    (
        "bytes of a failed transfer come before its fault",
        "reader r0 e0 128\n\
         sread r0 64 : pkt k0 81 11111111111111111111111111111111111111111111111111111111111111111111111111111111111111111111111111111111111111111111111111111111 ; fail k0 81 32\n\
         sread r0 64\n\
         isend r0\n",
        "ok\n\
         read 64 11111111111111111111111111111111111111111111111111111111111111111111111111111111111111111111111111111111111111111111111111111111\n\
         io ConnectionReset endpoint stalled\n\
         end false\n\
         ticket 0 k0 81 stall 64 taken\n",
    ),
    (
        "an endpoint becomes a reader and comes back",
        "submitin e0 64\n\
         reader r0 e0 64\n\
         read r0 1 : pkt k0 81 0102\n\
         num r0 3\n\
         close e0\n\
         inner e5 r0\n\
         read r0 1\n\
         pending e5\n\
         poll e5\n\
         inner e5 r0\n\
         ! pkt k0 81 03 ; reap\n\
         poll e5\n",
        "ok\n\
         ok\n\
         read 1 01\n\
         ok\n\
         condition\n\
         ok\n\
         condition\n\
         count 2\n\
         pending\n\
         condition\n\
         done ok 1 64 03\n\
         ticket 0 k0 81 ok 2 taken\n\
         ticket 1 k0 81 ok 1 taken\n\
         ticket 2 k0 81 cancelled 0 reclaimed\n",
    ),
    (
        "a closed reader gives its transfers up",
        "reader r0 e0 64\n\
         num r0 3\n\
         close r0\n\
         close r0\n\
         endpoint e0 i0 81 bulk-in\n",
        "ok\n\
         ok\n\
         ok\n\
         condition\n\
         error Busy endpoint already in use\n\
         ticket 0 k0 81 cancelled 0 reclaimed\n\
         ticket 1 k0 81 cancelled 0 reclaimed\n",
    ),
    (
        "barred calls of readers",
        "reader r0 e1 64\n\
         endpoint e1 i0 02 bulk-out\n\
         reader r0 e1 64\n\
         reader r0 e0 64\n\
         reader r0 e1 64\n\
         num r0 65\n\
         num r1 2\n\
         timeout r1 5\n\
         cancel r1\n\
         inner e1 r0\n\
         inner e2 r1\n\
         isend r1\n\
         endmsg r1\n\
         consume r1 0\n\
         sread r1 1 : clock 7\n\
         pollfill r1\n\
         now\n",
        "condition\n\
         ok\n\
         condition\n\
         ok\n\
         condition\n\
         condition\n\
         condition\n\
         condition\n\
         condition\n\
         condition\n\
         condition\n\
         condition\n\
         condition\n\
         condition\n\
         condition\n\
         condition\n\
         now 7\n",
    ),
    (
        "an endpoint of the other direction comes back",
        "endpoint e1 i0 02 bulk-out\n\
         reader r0 e1 64\n\
         submitout e1 0102\n\
         writer w0 e0 64\n\
         submitin e0 64\n\
         pending e1\n\
         pending e0\n",
        "ok\n\
         condition\n\
         ok\n\
         condition\n\
         ok\n\
         count 1\n\
         count 1\n\
         ticket 0 k0 02 cancelled 0 reclaimed\n\
         ticket 1 k0 81 cancelled 0 reclaimed\n",
    ),
    (
        "a transfer whose length was refused is the fault that lasts",
        "submitin e0 100\n\
         reader r0 e0 64\n\
         read r0 5\n\
         sread r0 5\n\
         isend r0\n\
         halt r0\n\
         read r0 5 : pkt k0 81 0a\n",
        "ok\n\
         ok\n\
         io InvalidInput invalid or unsupported argument\n\
         io InvalidInput invalid or unsupported argument\n\
         end false\n\
         ok\n\
         read 1 0a\n\
         ticket 0 k0 81 invalid 0 taken\n\
         ticket 1 k0 81 ok 1 taken\n",
    ),
];

#[test]
fn polls_fills_and_gives_endpoints_back(rt: HostRuntime) -> Result<(), Fail> {
    expect_rows(&rt, rt.alloc(), &[], OPENED, FURTHER.as_slice())
}

/// The lines that open a device with a bulk IN endpoint 81 of 4 bytes and a bulk OUT endpoint 02, and their answers.
const FOUR: (&str, &str) = (
    "device k0 1 6 3 1 1201000200000040aaaabbbb0001000000010902200001010080320904000002ff0000000705810204000007050202040000\n\
     open d0 1 6\n\
     claim d0 0 i0\n\
     endpoint e0 i0 81 bulk-in\n",
    "ok\n\
     ok\n\
     ok\n",
);

/// Reads of packets of at most 4 bytes, by transfers of 8.
const SMALL: [(&str, &str, &str); 6] = [
    (
        "plain reads join packets and go over ends until the time is up",
        "reader r0 e0 7\n\
         num r0 3\n\
         ! pkt k0 81 01020304 ; pkt k0 81 05 ; pkt k0 81 -\n\
         read r0 3\n\
         read r0 3\n\
         timeout r0 0\n\
         read r0 3\n\
         inner e0 r0\n\
         pending e0\n",
        "ok\n\
         ok\n\
         read 3 010203\n\
         read 2 0405\n\
         ok\n\
         io TimedOut timeout waiting for read\n\
         ok\n\
         count 3\n\
         ticket 0 k0 81 ok 5 taken\n\
         ticket 1 k0 81 ok 0 reclaimed\n\
         ticket 2 k0 81 cancelled 0 reclaimed\n\
         ticket 3 k0 81 cancelled 0 reclaimed\n",
    ),
    (
        "reads until a short packet stop there until its end is taken off",
        "reader r0 e0 7\n\
         num r0 3\n\
         ! pkt k0 81 01020304 ; pkt k0 81 05 ; pkt k0 81 -\n\
         endmsg r0\n\
         sread r0 3\n\
         sread r0 3\n\
         sread r0 3\n\
         isend r0\n\
         endmsg r0\n\
         sread r0 3\n\
         endmsg r0\n\
         cancel r0\n\
         sread r0 3\n",
        "ok\n\
         ok\n\
         expected short packet\n\
         read 3 010203\n\
         read 2 0405\n\
         read 0 -\n\
         end true\n\
         ok\n\
         read 0 -\n\
         ok\n\
         ok\n\
         io UnexpectedEof ended without short packet\n\
         ticket 0 k0 81 ok 5 taken\n\
         ticket 1 k0 81 ok 0 taken\n\
         ticket 2 k0 81 cancelled 0 taken\n\
         ticket 3 k0 81 cancelled 0 taken\n",
    ),
    (
        "an error comes after its bytes and lasts",
        "reader r0 e0 7\n\
         num r0 2\n\
         ! pkt k0 81 01020304 ; fail k0 81 32\n\
         read r0 3\n\
         read r0 3\n\
         read r0 3\n\
         sread r0 3\n",
        "ok\n\
         ok\n\
         read 3 010203\n\
         read 1 04\n\
         io ConnectionReset endpoint stalled\n\
         io ConnectionReset endpoint stalled\n\
         ticket 0 k0 81 stall 4 taken\n\
         ticket 1 k0 81 cancelled 0 reclaimed\n",
    ),
    (
        "a look is pending until the oldest is reaped",
        "reader r0 e0 7\n\
         pollread r0 3\n\
         ! pkt k0 81 0102\n\
         pollread r0 3\n\
         ! reap\n\
         pollread r0 3\n",
        "ok\n\
         pending\n\
         pending\n\
         read 2 0102\n\
         ticket 0 k0 81 ok 2 taken\n",
    ),
    (
        "bytes that are lent stand until they are taken off",
        "reader r0 e0 7\n\
         num r0 3\n\
         ! pkt k0 81 01020304 ; pkt k0 81 05 ; pkt k0 81 -\n\
         sfill r0\n\
         sconsume r0 2\n\
         fill r0\n\
         sconsume r0 4\n\
         sconsume r0 3\n\
         sfill r0\n\
         endmsg r0\n\
         sfill r0\n\
         endmsg r0\n\
         cancel r0\n\
         sfill r0\n\
         fill r0\n",
        "ok\n\
         ok\n\
         buf 5 0102030405\n\
         ok\n\
         buf 3 030405\n\
         condition\n\
         ok\n\
         buf 0 -\n\
         ok\n\
         buf 0 -\n\
         ok\n\
         ok\n\
         io UnexpectedEof ended without short packet\n\
         buf 0 -\n\
         ticket 0 k0 81 ok 5 taken\n\
         ticket 1 k0 81 ok 0 taken\n\
         ticket 2 k0 81 cancelled 0 taken\n\
         ticket 3 k0 81 cancelled 0 taken\n",
    ),
    (
        "a look lends what a reap brought",
        "reader r0 e0 7\n\
         pollfill r0\n\
         ! pkt k0 81 06\n\
         pollsfill r0\n\
         ! reap\n\
         pollsfill r0\n\
         pollfill r0\n\
         sconsume r0 1\n\
         pollsfill r0\n\
         pollfill r0\n\
         timeout r0 0\n\
         fill r0\n",
        "ok\n\
         pending\n\
         pending\n\
         buf 1 06\n\
         buf 1 06\n\
         ok\n\
         buf 0 -\n\
         pending\n\
         ok\n\
         io TimedOut timeout waiting for read\n\
         ticket 0 k0 81 ok 1 taken\n\
         ticket 1 k0 81 cancelled 0 reclaimed\n",
    ),
];

#[test]
fn joins_small_packets_and_stops_at_short_ones(rt: HostRuntime) -> Result<(), Fail> {
    expect_rows(&rt, rt.alloc(), &[], FOUR, SMALL.as_slice())
}
