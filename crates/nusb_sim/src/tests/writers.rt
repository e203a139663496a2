//! Lines of writers: messages, ends, flushes and faults.

use super::expect_rows;
use std::test::Fail;

/// The lines that open a device with a bulk IN endpoint 81 and a bulk OUT endpoint 02, each of 64 bytes, and claim
/// its interface; and their answers.
pub const CLAIMED: (&str, &str) = (
    "device k0 1 6 3 1 1201000200000040aaaabbbb0001000000010902200001010080320904000002ff0000000705810240000007050202400000\n\
     open d0 1 6\n\
     claim d0 0 i0\n",
    "ok\n\
     ok\n",
);

/// Ends of messages, flushes that time out, failures, polls, and a control transfer before the streams.
pub const WRITTEN: [(&str, &str, &str); 9] = [
    (
        "writer ends and flush timeout",
        "endpoint e0 i0 02 bulk-out\n\
         writer w0 e0 128\n\
         wend w0\n\
         ! ack k0 02\n\
         write w0 1111111111111111111111111111111111111111111111111111111111111111111111111111111111111111111111111111111111111111111111111111111111111111111111111111111111111111111111111111111111111111111111111111111111111111111111111111111111111111111111111111111111111111\n\
         wend w0\n\
         flush w0 : ack k0 02 ; ack k0 02 ; ack k0 02\n\
         write w0 22222222222222222222222222222222222222222222222222222222222222222222222222222222222222222222222222222222222222222222222222222222222222222222222222222222222222222222222222222222222222222222222222222222\n\
         wend w0\n\
         flush w0 : ack k0 02\n\
         flush w0 : ack k0 02\n",
        "ok\n\
         ok\n\
         ok\n\
         wrote 128\n\
         ok\n\
         ok\n\
         wrote 100\n\
         ok\n\
         io TimedOut write timeout\n\
         ok\n\
         ticket 0 k0 02 ok 0 taken\n\
         ticket 1 k0 02 ok 128 taken\n\
         ticket 2 k0 02 ok 0 taken\n\
         ticket 3 k0 02 ok 100 taken\n",
    ),
    (
        "write failure told once",
        "endpoint e0 i0 02 bulk-out\n\
         writer w0 e0 64\n\
         write w0 111111\n\
         flush w0 : fail k0 02 32\n\
         flush w0\n",
        "ok\n\
         ok\n\
         wrote 3\n\
         io ConnectionReset endpoint stalled\n\
         ok\n\
         ticket 0 k0 02 stall 0 taken\n",
    ),
    (
        "polled streams",
        "endpoint e0 i0 02 bulk-out\n\
         writer w0 e0 64\n\
         pollwrite w0 0102\n\
         pollflushend w0\n\
         ! ack k0 02 ; reap\n\
         pollflushend w0\n\
         endpoint e1 i0 81 bulk-in\n\
         reader r0 e1 64\n\
         pollread r0 5\n\
         ! pkt k0 81 0a ; reap\n\
         pollsread r0 5\n\
         pollsread r0 5\n\
         pollread r0 5\n",
        "ok\n\
         ok\n\
         wrote 2\n\
         pending\n\
         ok\n\
         ok\n\
         ok\n\
         pending\n\
         read 1 0a\n\
         read 0 -\n\
         pending\n\
         ticket 0 k0 02 ok 2 taken\n\
         ticket 1 k0 81 ok 1 taken\n\
         ticket 2 k0 81 cancelled 0 reclaimed\n",
    ),
    (
        "control then streams",
        "ctlout i0 vendor device 10 0000 0000 01020304 100000000 : ack k0 00\n\
         endpoint e0 i0 02 bulk-out\n\
         writer w0 e0 4096\n\
         write w0 00ff\n\
         flush w0 : ack k0 02\n\
         endpoint e1 i0 81 bulk-in\n\
         reader r0 e1 4096\n\
         read r0 64 : pkt k0 81 0a0b0c\n",
        "ok\n\
         ok\n\
         ok\n\
         wrote 2\n\
         ok\n\
         ok\n\
         ok\n\
         read 3 0a0b0c\n\
         ticket 0 k0 00 ok 4 taken\n\
         ticket 1 k0 02 ok 2 taken\n\
         ticket 2 k0 81 ok 3 taken\n",
    ),
    (
        "writes and flushes by looks and by waits",
        "endpoint e0 i0 02 bulk-out\n\
         writer w0 e0 65\n\
         pollwrite w0 22222222222222222222222222222222222222222222222222222222222222222222222222222222222222222222222222222222222222222222222222222222222222222222222222222222222222222222222222222222222222222222222222222222\n\
         write w0 1111111111111111111111111111111111111111111111111111111111111111111111111111111111111111111111111111111111111111111111111111111111111111111111111111111111111111111111111111111111111111111111111111111111111111111111111111111111111111111111111111111111111111\n\
         pollwrite w0 01\n\
         pollflush w0\n\
         ! ack k0 02 ; ack k0 02 ; reap 0\n\
         pollwrite w0 0102\n\
         pollflushend w0\n\
         pollflushend w0\n\
         flushend w0 : ack k0 02 ; ack k0 02\n\
         num w0 2\n\
         write w0 1111111111111111111111111111111111111111111111111111111111111111111111111111111111111111111111111111111111111111111111111111111111111111111111111111111111111111111111111111111111111111111111111111111111111111111111111111111111111111111111111111111111111111\n\
         write w0 03\n\
         wsubmit w0\n\
         wend w0\n\
         timeout w0 0\n\
         flush w0\n\
         write w0 04\n\
         inner e5 w0\n\
         pending e5\n",
        "ok\n\
         ok\n\
         wrote 100\n\
         wrote 28\n\
         pending\n\
         pending\n\
         wrote 2\n\
         pending\n\
         pending\n\
         ok\n\
         ok\n\
         wrote 128\n\
         wrote 1\n\
         ok\n\
         ok\n\
         ok\n\
         io TimedOut write timeout\n\
         io TimedOut write timeout\n\
         ok\n\
         count 3\n\
         ticket 0 k0 02 ok 128 taken\n\
         ticket 1 k0 02 ok 2 taken\n\
         ticket 2 k0 02 ok 0 taken\n\
         ticket 3 k0 02 cancelled 0 reclaimed\n\
         ticket 4 k0 02 cancelled 0 reclaimed\n\
         ticket 5 k0 02 cancelled 0 reclaimed\n",
    ),
    (
        "calls that wait in vain, and the most that may be pending",
        "endpoint e0 i0 02 bulk-out\n\
         writer w0 e0 65\n\
         timeout w0 0\n\
         write w0 010203\n\
         pollwrite w0 04\n\
         wsubmit w0\n\
         pollwrite w0 05\n\
         write w0 05\n\
         pollflush w0\n\
         wend w0\n\
         flushend w0\n\
         pollflushend w0\n\
         wend w0\n\
         wend w0\n\
         wend w0\n\
         wend w0\n\
         wend w0\n\
         wend w0\n\
         wend w0\n\
         wend w0\n\
         wend w0\n\
         wend w0\n\
         wend w0\n\
         wend w0\n\
         wend w0\n\
         wend w0\n\
         wend w0\n\
         wend w0\n\
         wend w0\n\
         wend w0\n\
         wend w0\n\
         wend w0\n\
         wend w0\n\
         wend w0\n\
         wend w0\n\
         wend w0\n\
         wend w0\n\
         wend w0\n\
         wend w0\n\
         wend w0\n\
         wend w0\n\
         wend w0\n\
         wend w0\n\
         wend w0\n\
         wend w0\n\
         wend w0\n\
         wend w0\n\
         wend w0\n\
         wend w0\n\
         wend w0\n\
         wend w0\n\
         wend w0\n\
         wend w0\n\
         wend w0\n\
         wend w0\n\
         wend w0\n\
         wend w0\n\
         wend w0\n\
         wend w0\n\
         wend w0\n\
         wend w0\n\
         wend w0\n\
         wend w0\n\
         wend w0\n\
         wend w0\n\
         wend w0\n\
         wend w0\n\
         wend w0\n\
         wend w0\n\
         wend w0\n\
         wend w0\n\
         wend w0\n\
         wend w0\n\
         timeout w0 max\n\
         flush w0 : fail k0 02 32\n",
        "ok\n\
         ok\n\
         ok\n\
         wrote 3\n\
         wrote 1\n\
         ok\n\
         pending\n\
         io TimedOut write timeout\n\
         pending\n\
         ok\n\
         io TimedOut write timeout\n\
         pending\n\
         ok\n\
         ok\n\
         ok\n\
         ok\n\
         ok\n\
         ok\n\
         ok\n\
         ok\n\
         ok\n\
         ok\n\
         ok\n\
         ok\n\
         ok\n\
         ok\n\
         ok\n\
         ok\n\
         ok\n\
         ok\n\
         ok\n\
         ok\n\
         ok\n\
         ok\n\
         ok\n\
         ok\n\
         ok\n\
         ok\n\
         ok\n\
         ok\n\
         ok\n\
         ok\n\
         ok\n\
         ok\n\
         ok\n\
         ok\n\
         ok\n\
         ok\n\
         ok\n\
         ok\n\
         ok\n\
         ok\n\
         ok\n\
         ok\n\
         ok\n\
         ok\n\
         ok\n\
         ok\n\
         ok\n\
         ok\n\
         ok\n\
         ok\n\
         ok\n\
         ok\n\
         ok\n\
         ok\n\
         ok\n\
         ok\n\
         ok\n\
         ok\n\
         ok\n\
         ok\n\
         condition\n\
         ok\n\
         io ConnectionReset endpoint stalled\n\
         ticket 0 k0 02 stall 0 taken\n\
         ticket 1 k0 02 cancelled 0 reclaimed\n\
         ticket 2 k0 02 cancelled 0 reclaimed\n\
         ticket 3 k0 02 cancelled 0 reclaimed\n\
         ticket 4 k0 02 cancelled 0 reclaimed\n\
         ticket 5 k0 02 cancelled 0 reclaimed\n\
         ticket 6 k0 02 cancelled 0 reclaimed\n\
         ticket 7 k0 02 cancelled 0 reclaimed\n\
         ticket 8 k0 02 cancelled 0 reclaimed\n\
         ticket 9 k0 02 cancelled 0 reclaimed\n\
         ticket 10 k0 02 cancelled 0 reclaimed\n\
         ticket 11 k0 02 cancelled 0 reclaimed\n\
         ticket 12 k0 02 cancelled 0 reclaimed\n\
         ticket 13 k0 02 cancelled 0 reclaimed\n\
         ticket 14 k0 02 cancelled 0 reclaimed\n\
         ticket 15 k0 02 cancelled 0 reclaimed\n\
         ticket 16 k0 02 cancelled 0 reclaimed\n\
         ticket 17 k0 02 cancelled 0 reclaimed\n\
         ticket 18 k0 02 cancelled 0 reclaimed\n\
         ticket 19 k0 02 cancelled 0 reclaimed\n\
         ticket 20 k0 02 cancelled 0 reclaimed\n\
         ticket 21 k0 02 cancelled 0 reclaimed\n\
         ticket 22 k0 02 cancelled 0 reclaimed\n\
         ticket 23 k0 02 cancelled 0 reclaimed\n\
         ticket 24 k0 02 cancelled 0 reclaimed\n\
         ticket 25 k0 02 cancelled 0 reclaimed\n\
         ticket 26 k0 02 cancelled 0 reclaimed\n\
         ticket 27 k0 02 cancelled 0 reclaimed\n\
         ticket 28 k0 02 cancelled 0 reclaimed\n\
         ticket 29 k0 02 cancelled 0 reclaimed\n\
         ticket 30 k0 02 cancelled 0 reclaimed\n\
         ticket 31 k0 02 cancelled 0 reclaimed\n\
         ticket 32 k0 02 cancelled 0 reclaimed\n\
         ticket 33 k0 02 cancelled 0 reclaimed\n\
         ticket 34 k0 02 cancelled 0 reclaimed\n\
         ticket 35 k0 02 cancelled 0 reclaimed\n\
         ticket 36 k0 02 cancelled 0 reclaimed\n\
         ticket 37 k0 02 cancelled 0 reclaimed\n\
         ticket 38 k0 02 cancelled 0 reclaimed\n\
         ticket 39 k0 02 cancelled 0 reclaimed\n\
         ticket 40 k0 02 cancelled 0 reclaimed\n\
         ticket 41 k0 02 cancelled 0 reclaimed\n\
         ticket 42 k0 02 cancelled 0 reclaimed\n\
         ticket 43 k0 02 cancelled 0 reclaimed\n\
         ticket 44 k0 02 cancelled 0 reclaimed\n\
         ticket 45 k0 02 cancelled 0 reclaimed\n\
         ticket 46 k0 02 cancelled 0 reclaimed\n\
         ticket 47 k0 02 cancelled 0 reclaimed\n\
         ticket 48 k0 02 cancelled 0 reclaimed\n\
         ticket 49 k0 02 cancelled 0 reclaimed\n\
         ticket 50 k0 02 cancelled 0 reclaimed\n\
         ticket 51 k0 02 cancelled 0 reclaimed\n\
         ticket 52 k0 02 cancelled 0 reclaimed\n\
         ticket 53 k0 02 cancelled 0 reclaimed\n\
         ticket 54 k0 02 cancelled 0 reclaimed\n\
         ticket 55 k0 02 cancelled 0 reclaimed\n\
         ticket 56 k0 02 cancelled 0 reclaimed\n\
         ticket 57 k0 02 cancelled 0 reclaimed\n\
         ticket 58 k0 02 cancelled 0 reclaimed\n\
         ticket 59 k0 02 cancelled 0 reclaimed\n\
         ticket 60 k0 02 cancelled 0 reclaimed\n\
         ticket 61 k0 02 cancelled 0 reclaimed\n\
         ticket 62 k0 02 cancelled 0 reclaimed\n\
         ticket 63 k0 02 cancelled 0 reclaimed\n",
    ),
    (
        "a write without a buffer waits for the oldest, whose bytes are sent in order",
        "endpoint e0 i0 02 bulk-out\n\
         endpoint e1 i0 81 bulk-in\n\
         submitin e1 128\n\
         writer w0 e0 127\n\
         write w0 22222222222222222222222222222222222222222222222222222222222222222222222222222222222222222222222222222222222222222222222222222222222222222222222222222222222222222222222222222222222222222222222222222222\n\
         write w0 1111111111111111111111111111111111111111111111111111111111111111111111111111111111111111111111111111111111111111111111111111111111111111111111111111111111111111111111111111111111111111111111111111111111111111111111111111111111111111111111111111111111111111\n\
         pollwrite w0 01\n\
         timeout w0 0\n\
         write w0 01\n\
         ! echo k0 02 81 ; echo k0 02 81 ; reap ; reap\n\
         poll e1\n\
         pollwrite w0 -\n\
         wsubmit w0\n\
         inner e5 w0\n\
         pending e5\n",
        "ok\n\
         ok\n\
         ok\n\
         ok\n\
         wrote 100\n\
         wrote 28\n\
         pending\n\
         ok\n\
         io TimedOut write timeout\n\
         done ok 128 128 2222222222222222222222222222222222222222222222222222222222222222222222222222222222222222222222222222222222222222222222222222222222222222222222222222222222222222222222222222222222222222222222222222222211111111111111111111111111111111111111111111111111111111\n\
         wrote 0\n\
         ok\n\
         ok\n\
         count 0\n\
         ticket 0 k0 81 ok 128 taken\n\
         ticket 1 k0 02 ok 128 taken\n",
    ),
    (
        "a flush to an end takes all of it",
        "endpoint e0 i0 02 bulk-out\n\
         writer w0 e0 127\n\
         write w0 1111111111111111111111111111111111111111111111111111111111111111111111111111111111111111111111111111111111111111111111111111111111111111111111111111111111111111111111111111111111111111111111111111111111111111111111111111111111111111111111111111111111111111\n\
         pollflush w0\n\
         ! ack k0 02 ; ack k0 02 ; reap\n\
         pollflush w0\n\
         ! fail k0 02 32\n\
         flushend w0\n\
         flush w0 : ack k0 02\n",
        "ok\n\
         ok\n\
         wrote 128\n\
         pending\n\
         ok\n\
         io TimedOut write timeout\n\
         ok\n\
         ticket 0 k0 02 ok 128 taken\n\
         ticket 1 k0 02 ok 0 taken\n",
    ),
    (
        "an end that has begun is forgotten by another call",
        "endpoint e0 i0 02 bulk-out\n\
         writer w0 e0 127\n\
         pollflushend w0\n\
         wsubmit w0\n\
         pollflushend w0\n\
         inner e5 w0\n\
         pending e5\n",
        "ok\n\
         ok\n\
         pending\n\
         ok\n\
         pending\n\
         ok\n\
         count 2\n\
         ticket 0 k0 02 cancelled 0 reclaimed\n\
         ticket 1 k0 02 cancelled 0 reclaimed\n",
    ),
];

#[test]
fn writes_messages_with_their_ends_and_faults(rt: HostRuntime) -> Result<(), Fail> {
    expect_rows(&rt, rt.alloc(), &[], CLAIMED, WRITTEN.as_slice())
}

/// Waits, buffers that are used again, conditions, and what becomes of the endpoint.
const FURTHER: [(&str, &str, &str); 9] = [
    (
        "a write waits for the transfer before it and uses its buffer again",
        "endpoint e0 i0 02 bulk-out\n\
         writer w0 e0 64\n\
         write w0 1111111111111111111111111111111111111111111111111111111111111111111111111111111111111111111111111111111111111111111111111111111133\n\
         write w0 33\n\
         write w0 44 : ack k0 02\n\
         pollwrite w0 55\n\
         wsubmit w0\n\
         wsubmit w0\n\
         pollwrite w0 66\n\
         ! ack k0 02 ; reap\n\
         pollwrite w0 66\n\
         flush w0 : ack k0 02\n\
         flush w0\n",
        "ok\n\
         ok\n\
         wrote 64\n\
         io TimedOut write timeout\n\
         wrote 1\n\
         wrote 1\n\
         ok\n\
         ok\n\
         pending\n\
         wrote 1\n\
         ok\n\
         ok\n\
         ticket 0 k0 02 ok 64 taken\n\
         ticket 1 k0 02 ok 2 taken\n\
         ticket 2 k0 02 ok 1 taken\n",
    ),
    (
        "a timeout of a writer",
        "endpoint e0 i0 02 bulk-out\n\
         writer w0 e0 64\n\
         timeout w0 100\n\
         wend w0\n\
         write w0 01 : clock 100 ; ack k0 02\n\
         write w0 01 : clock 150 ; reap\n\
         flush w0 : clock 250\n\
         now\n",
        "ok\n\
         ok\n\
         ok\n\
         ok\n\
         io TimedOut write timeout\n\
         wrote 1\n\
         io TimedOut write timeout\n\
         now 250\n\
         ticket 0 k0 02 ok 0 taken\n\
         ticket 1 k0 02 cancelled 0 reclaimed\n",
    ),
    (
        "what bars calls on writers",
        "endpoint e0 i0 02 bulk-out\n\
         endpoint e1 i0 81 bulk-in\n\
         writer w0 e1 64\n\
         writer w0 e2 64\n\
         wend w0\n\
         writer w0 e0 64\n\
         writer w0 e1 64\n\
         reader r0 e0 64\n\
         num w0 0\n\
         num w0 65\n\
         num w1 1\n\
         num w0 64\n\
         inner e1 w0\n\
         inner e0 r0\n\
         timeout w1 5\n\
         close w1\n\
         close w0\n\
         flush w0 : reap\n",
        "ok\n\
         ok\n\
         condition\n\
         condition\n\
         condition\n\
         ok\n\
         condition\n\
         condition\n\
         condition\n\
         condition\n\
         condition\n\
         ok\n\
         condition\n\
         condition\n\
         condition\n\
         condition\n\
         ok\n\
         condition\n",
    ),
    (
        "an endpoint becomes a writer and comes back",
        "endpoint e0 i0 02 bulk-out\n\
         submitout e0 0102\n\
         writer w0 e0 64\n\
         close e0\n\
         num w0 3\n\
         write w0 03\n\
         wend w0\n\
         inner e5 w0\n\
         write w0 04\n\
         pending e5\n\
         ! ack k0 02 ; ack k0 02 ; reap\n\
         poll e5\n\
         poll e5\n\
         inner e5 w0\n",
        "ok\n\
         ok\n\
         ok\n\
         condition\n\
         ok\n\
         wrote 1\n\
         ok\n\
         ok\n\
         condition\n\
         count 2\n\
         done ok 2 2 0102\n\
         pending\n\
         condition\n\
         ticket 0 k0 02 ok 2 taken\n\
         ticket 1 k0 02 ok 1 reclaimed\n",
    ),
    (
        "each failure is told once and in order",
        "endpoint e0 i0 02 bulk-out\n\
         writer w0 e0 64\n\
         num w0 3\n\
         write w0 11111111111111111111111111111111111111111111111111111111111111111111111111111111111111111111111111111111111111111111111111111111\n\
         write w0 11111111111111111111111111111111111111111111111111111111111111111111111111111111111111111111111111111111111111111111111111111111\n\
         write w0 0102\n\
         ! fail k0 02 32 ; fail k0 02 71\n\
         flush w0 : ack k0 02\n\
         flush w0\n\
         flush w0\n\
         ! refuse k0 submit 19\n\
         write w0 05\n\
         flushend w0\n\
         flush w0\n",
        "ok\n\
         ok\n\
         ok\n\
         wrote 64\n\
         wrote 64\n\
         wrote 2\n\
         io ConnectionReset endpoint stalled\n\
         io Other hardware fault or protocol violation\n\
         ok\n\
         wrote 1\n\
         io ConnectionAborted device disconnected\n\
         ok\n\
         ticket 0 k0 02 stall 0 taken\n\
         ticket 1 k0 02 fault 0 taken\n\
         ticket 2 k0 02 ok 2 taken\n\
         ticket 3 k0 02 disconnected 0 taken\n",
    ),
    (
        "a poll ends a message once",
        "endpoint e0 i0 02 bulk-out\n\
         writer w0 e0 64\n\
         num w0 2\n\
         pollwrite w0 11111111111111111111111111111111111111111111111111111111111111111111111111111111111111111111111111111111111111111111111111111111\n\
         pollflushend w0\n\
         pollflushend w0\n\
         ! ack k0 02 ; ack k0 02 ; reap\n\
         pollflushend w0\n\
         pollflushend w0\n\
         ! reap\n\
         pollflushend w0\n\
         pollflushend w0\n\
         pollflush w0\n\
         ! ack k0 02 ; reap\n\
         pollflush w0\n",
        "ok\n\
         ok\n\
         ok\n\
         wrote 64\n\
         pending\n\
         pending\n\
         pending\n\
         pending\n\
         ok\n\
         pending\n\
         pending\n\
         ok\n\
         ticket 0 k0 02 ok 64 taken\n\
         ticket 1 k0 02 ok 0 taken\n\
         ticket 2 k0 02 ok 0 taken\n",
    ),
    (
        "an end behind whole packets and behind none",
        "endpoint e0 i0 02 bulk-out\n\
         writer w0 e0 128\n\
         write w0 11111111111111111111111111111111111111111111111111111111111111111111111111111111111111111111111111111111111111111111111111111111\n\
         flushend w0 : ack k0 02 ; ack k0 02\n\
         flushend w0 : ack k0 02\n\
         write w0 -\n\
         flushend w0 : ack k0 02\n\
         write w0 1111111111111111111111111111111111111111111111111111111111111111111111111111111111111111111111111111111111111111111111111111111101\n\
         flushend w0 : ack k0 02 ; ack k0 02\n",
        "ok\n\
         ok\n\
         wrote 64\n\
         ok\n\
         ok\n\
         wrote 0\n\
         ok\n\
         wrote 65\n\
         ok\n\
         ticket 0 k0 02 ok 64 taken\n\
         ticket 1 k0 02 ok 0 taken\n\
         ticket 2 k0 02 ok 0 taken\n\
         ticket 3 k0 02 ok 0 taken\n\
         ticket 4 k0 02 ok 65 taken\n",
    ),
    (
        "a closed writer gives up what is pending",
        "endpoint e0 i0 02 bulk-out\n\
         writer w0 e0 64\n\
         num w0 4\n\
         wend w0\n\
         wend w0\n\
         write w0 01\n\
         ! ack k0 02 ; reap\n\
         close w0\n\
         endpoint e0 i0 02 bulk-out\n\
         ! reap\n\
         endpoint e0 i0 02 bulk-out\n",
        "ok\n\
         ok\n\
         ok\n\
         ok\n\
         ok\n\
         wrote 1\n\
         ok\n\
         error Busy endpoint already in use\n\
         ok\n\
         ticket 0 k0 02 ok 0 dropped\n\
         ticket 1 k0 02 cancelled 0 reclaimed\n",
    ),
    (
        "a transfer that failed as cancelled is a failure",
        "endpoint e0 i0 02 bulk-out\n\
         writer w0 e0 64\n\
         write w0 0102\n\
         flush w0 : fail k0 02 104\n\
         flush w0\n",
        "ok\n\
         ok\n\
         wrote 2\n\
         io Interrupted transfer was cancelled\n\
         ok\n\
         ticket 0 k0 02 cancelled 0 taken\n",
    ),
];

#[test]
fn waits_polls_and_gives_endpoints_back(rt: HostRuntime) -> Result<(), Fail> {
    expect_rows(&rt, rt.alloc(), &[], CLAIMED, FURTHER.as_slice())
}
