//! Steps, and what they make of transfers; calls by their rules.

use super::expect_rows;
use std::test::Fail;

/// The lines that open two devices with an IN and an OUT endpoint each, of which the second has a kernel driver, and their answers.
const TWO: (&str, &str) = (
    "device k0 1 6 3 1 1201000200000040aaaabbbb0001000000010902200001010080320904000002ff0000000705810240000007050202400000\n\
     device k1 1 7 3 1 1201000200000040aaaabbbb0001000000010902200001010080320904000002ff0000000705810240000007050202400000\n\
     driver k1 0\n\
     open d0 1 6\n\
     open d1 1 7\n\
     claim d0 0 i0\n\
     detachclaim d1 0 i1\n\
     endpoint e0 i0 81 bulk-in\n\
     endpoint e1 i0 02 bulk-out\n\
     endpoint e2 i1 81 bulk-in\n\
     endpoint e3 i1 02 bulk-out\n",
    "ok\n\
     ok\n\
     ok\n\
     ok\n\
     ok\n\
     ok\n\
     ok\n\
     ok\n",
);

/// What follows these, and what is written for it.
const STEPS: [(&str, &str, &str); 12] = [
    (
        "messages through a device that echoes, by transfers of other sizes",
        "writer w0 e1 128\n\
         num w0 8\n\
         reader r0 e0 192\n\
         num r0 4\n\
         write w0 11111111111111111111111111111111111111111111111111111111111111111111111111111111111111111111111111111111111111111111111111111111111111111111111111111111111111111111111111111111111111111111111111111111111111111111111111111111111111111111111111111111111111112233\n\
         write w0 2233\n\
         wend w0\n\
         ! echo k0 02 81 ; echo k0 02 81 ; echo k0 02 81\n\
         flush w0\n\
         sread r0 200\n\
         sread r0 200\n\
         endmsg r0\n\
         wend w0\n\
         sread r0 200 : echo k0 02 81\n\
         endmsg r0\n",
        "ok\n\
         ok\n\
         ok\n\
         ok\n\
         wrote 128\n\
         wrote 2\n\
         ok\n\
         ok\n\
         read 130 11111111111111111111111111111111111111111111111111111111111111111111111111111111111111111111111111111111111111111111111111111111111111111111111111111111111111111111111111111111111111111111111111111111111111111111111111111111111111111111111111111111111111112233\n\
         read 0 -\n\
         ok\n\
         ok\n\
         read 0 -\n\
         ok\n\
         ticket 0 k0 81 ok 130 taken\n\
         ticket 1 k0 81 ok 0 taken\n\
         ticket 2 k0 81 cancelled 0 reclaimed\n\
         ticket 3 k0 02 ok 128 taken\n\
         ticket 4 k0 02 ok 2 taken\n\
         ticket 5 k0 81 cancelled 0 reclaimed\n\
         ticket 6 k0 02 ok 0 reclaimed\n\
         ticket 7 k0 81 cancelled 0 reclaimed\n",
    ),
    (
        "an echo needs a ticket on both sides",
        "submitout e1 0102\n\
         ! echo k0 02 81 ; reap\n\
         poll e1\n\
         submitin e0 64\n\
         ! echo k0 81 02 ; echo k1 02 81 ; echo k0 02 82 ; reap\n\
         poll e1\n\
         poll e0\n\
         ! echo k0 02 81 ; reap ; reap\n\
         poll e1\n\
         poll e0\n\
         ! echo k0 02 81\n",
        "ok\n\
         pending\n\
         ok\n\
         pending\n\
         pending\n\
         done ok 2 2 0102\n\
         done ok 2 64 0102\n\
         ticket 0 k0 02 ok 2 taken\n\
         ticket 1 k0 81 ok 2 taken\n",
    ),
    (
        "an echo goes to the oldest tickets",
        "submitout e1 1111111111111111111111111111111111111111111111111111111111111111111111111111111111111111111111111111111111111111111111111111111122\n\
         submitout e1 -\n\
         submitin e0 64\n\
         submitin e0 64\n\
         submitin e0 64\n\
         ! echo k0 02 81 ; echo k0 02 81 ; echo k0 02 81 ; reap ; reap ; reap ; reap ; reap\n\
         poll e1\n\
         poll e1\n\
         poll e0\n\
         poll e0\n\
         poll e0\n",
        "ok\n\
         ok\n\
         ok\n\
         ok\n\
         ok\n\
         done ok 65 65 1111111111111111111111111111111111111111111111111111111111111111111111111111111111111111111111111111111111111111111111111111111122\n\
         done ok 0 0 -\n\
         done ok 64 64 11111111111111111111111111111111111111111111111111111111111111111111111111111111111111111111111111111111111111111111111111111111\n\
         done ok 1 64 22\n\
         done ok 0 64 -\n\
         ticket 0 k0 02 ok 65 taken\n\
         ticket 1 k0 02 ok 0 taken\n\
         ticket 2 k0 81 ok 64 taken\n\
         ticket 3 k0 81 ok 1 taken\n\
         ticket 4 k0 81 ok 0 taken\n",
    ),
    (
        "a long packet overruns",
        "submitin e0 64\n\
         ! pkt k0 81 0707070707070707070707070707070707070707070707070707070707070707070707070707070707070707070707070707070707070707070707070707070707 ; reap\n\
         poll e0\n",
        "ok\n\
         done fault 0 64 -\n\
         ticket 0 k0 81 fault 0 taken\n",
    ),
    (
        "acknowledgements take up to the maximum",
        "submitout e1 0707070707070707070707070707070707070707070707070707070707070707070707070707070707070707070707070707070707070707070707070707070707\n\
         submitout e1 0707070707070707070707070707070707070707070707070707070707070707070707070707070707070707070707070707070707070707070707070707070707\n\
         submitout e1 -\n\
         ! ack k0 02 ; fail k0 02 32 ; ack k0 02 ; reap 1\n\
         poll e1\n\
         ! ack k0 02 ; reap 0 ; reap 1\n\
         poll e1\n\
         poll e1\n\
         ! reap\n\
         poll e1\n\
         ! ack k0 02 ; reap\n\
         poll e1\n",
        "ok\n\
         ok\n\
         ok\n\
         pending\n\
         done stall 64 65 0707070707070707070707070707070707070707070707070707070707070707070707070707070707070707070707070707070707070707070707070707070707\n\
         done ok 65 65 0707070707070707070707070707070707070707070707070707070707070707070707070707070707070707070707070707070707070707070707070707070707\n\
         pending\n\
         done ok 0 0 -\n\
         ticket 0 k0 02 stall 64 taken\n\
         ticket 1 k0 02 ok 65 taken\n\
         ticket 2 k0 02 ok 0 taken\n",
    ),
    (
        "a failure keeps received bytes",
        "submitin e0 128\n\
         ! pkt k0 81 07070707070707070707070707070707070707070707070707070707070707070707070707070707070707070707070707070707070707070707070707070707 ; reap\n\
         poll e0\n\
         ! fail k0 81 32 ; reap\n\
         poll e0\n",
        "ok\n\
         pending\n\
         done stall 64 128 07070707070707070707070707070707070707070707070707070707070707070707070707070707070707070707070707070707070707070707070707070707\n\
         ticket 0 k0 81 stall 64 taken\n",
    ),
    (
        "an unplug finishes its tickets and lasts",
        "submitin e0 64\n\
         submitout e1 070707070707070707\n\
         submitin e2 64\n\
         ! refuse k0 submit 5 ; unplug k0\n\
         halt e0\n\
         halt e2\n\
         active d0\n\
         ! reap 0 ; reap 1 ; reap 2\n\
         poll e0\n\
         poll e1\n\
         poll e2\n\
         submitin e0 64\n\
         poll e0\n",
        "ok\n\
         ok\n\
         ok\n\
         error Disconnected device disconnected (errno 19)\n\
         ok\n\
         config 1\n\
         done disconnected 0 64 -\n\
         done disconnected 0 9 070707070707070707\n\
         pending\n\
         ok\n\
         done disconnected 0 64 -\n\
         ticket 0 k0 81 disconnected 0 taken\n\
         ticket 1 k0 02 disconnected 0 taken\n\
         ticket 2 k1 81 cancelled 0 reclaimed\n\
         ticket 3 k0 81 disconnected 0 taken\n",
    ),
    (
        "a reap with no number takes the lowest",
        "submitin e0 64\n\
         submitout e1 01\n\
         submitout e1 02\n\
         cancel e1\n\
         ! reap\n\
         poll e1\n\
         poll e1\n\
         ! reap\n\
         poll e1\n\
         ! reap\n\
         poll e0\n",
        "ok\n\
         ok\n\
         ok\n\
         ok\n\
         done cancelled 0 1 01\n\
         pending\n\
         done cancelled 0 1 02\n\
         pending\n\
         ticket 0 k0 81 cancelled 0 reclaimed\n\
         ticket 1 k0 02 cancelled 0 taken\n\
         ticket 2 k0 02 cancelled 0 taken\n",
    ),
    (
        "devices are opened by their addresses",
        "open d2 1 6\n\
         open d3 1 7\n\
         open d4 1 8\n\
         open d4 2 6\n",
        "ok\n\
         ok\n\
         error Disconnected device not found (errno 2)\n\
         error Disconnected device not found (errno 2)\n",
    ),
    (
        "claims answer by their rules",
        "claim d0 1 i2\n\
         claim d0 0 i2\n\
         claim d1 0 i2\n\
         close e0\n\
         close e1\n\
         close i0\n\
         claim d0 0 i2\n",
        "error NotFound interface not found (errno 2)\n\
         error Busy interface is busy (errno 16)\n\
         error Busy interface is busy (errno 16)\n\
         ok\n\
         ok\n\
         ok\n\
         ok\n",
    ),
    (
        "a driver keeps its interface from being claimed",
        "close e2\n\
         close e3\n\
         close i1\n\
         claim d1 0 i2\n\
         detach d1 0\n\
         claim d1 0 i2\n",
        "ok\n\
         ok\n\
         ok\n\
         error Busy interface is busy (errno 16)\n\
         ok\n\
         ok\n",
    ),
    (
        "descriptors are those of the device",
        "descriptors d1\n",
        "desc cfg 1 if 0.0 ff 00 00 ep 81 bulk 64 0 ep 02 bulk 64 0\n",
    ),
];

#[test]
fn steps_make_of_transfers_what_the_kernel_says(rt: HostRuntime) -> Result<(), Fail> {
    expect_rows(&rt, rt.alloc(), &[], TWO, STEPS.as_slice())
}

/// Refusals, the clock, configurations, resets and orders of reaps, behind the same lines.
const CALLS: [(&str, &str, &str); 5] = [
    (
        "refusals are used in order and once, by their device and their call",
        "! refuse k0 open 5 ; refuse k0 speed 6 ; refuse k0 submit 5 ; refuse k1 submit 6 ; refuse k0 claim 8 ; refuse k0 submit 7\n\
         submitin e0 64\n\
         poll e0\n\
         submitin e0 64\n\
         poll e0\n\
         submitin e0 64\n\
         poll e0\n\
         submitin e2 64\n\
         poll e2\n\
         submitin e2 64\n\
         poll e2\n",
        "ok\n\
         done unknown:5 0 64 -\n\
         ok\n\
         done unknown:7 0 64 -\n\
         ok\n\
         pending\n\
         ok\n\
         done unknown:6 0 64 -\n\
         ok\n\
         pending\n\
         ticket 0 k0 81 unknown:5 0 taken\n\
         ticket 1 k0 81 unknown:7 0 taken\n\
         ticket 2 k0 81 cancelled 0 reclaimed\n\
         ticket 3 k1 81 unknown:6 0 taken\n\
         ticket 4 k1 81 cancelled 0 reclaimed\n",
    ),
    (
        "the clock never falls",
        "now\n\
         ! clock 5 ; clock 3\n\
         now\n\
         ! clock 4\n\
         now\n\
         ! clock 9\n\
         now\n",
        "now 0\n\
         now 5\n\
         now 5\n\
         now 9\n",
    ),
    (
        "no interface is there without a configuration, and none is claimed twice",
        "detachclaim d1 0 i2\n\
         close e0\n\
         close e1\n\
         close i0\n\
         setconfig d0 7\n\
         setconfig d0 0\n\
         detachclaim d0 0 i0\n\
         detach d0 0\n\
         attach d0 0\n\
         setconfig d0 1\n\
         detach d0 0\n\
         setconfig d1 1\n",
        "error Busy interface is busy (errno 16)\n\
         ok\n\
         ok\n\
         ok\n\
         error NotFound configuration not found (errno 22)\n\
         ok\n\
         error NotFound interface not found (errno 2)\n\
         error NotFound interface not found (errno 22)\n\
         error NotFound interface not found (errno 22)\n\
         ok\n\
         error Other no kernel driver attached (errno 61)\n\
         error Busy device is busy (errno 16)\n",
    ),
    (
        "a reset that is refused leaves a device, and another takes it with its transfers",
        "! refuse k0 speed 71 ; refuse k0 reset 5\n\
         speed d0\n\
         speed d0\n\
         submitin e0 64\n\
         reset d0\n\
         ! reap\n\
         poll e0\n\
         reset d0\n\
         ! reap\n\
         poll e0\n\
         speed d0\n\
         open d2 1 6\n",
        "speed none\n\
         speed High\n\
         ok\n\
         error Other failed to reset device (errno 5)\n\
         pending\n\
         ok\n\
         done disconnected 0 64 -\n\
         speed none\n\
         error Disconnected device not found (errno 2)\n\
         ticket 0 k0 81 disconnected 0 taken\n",
    ),
    (
        "a later ticket may be finished and reaped first",
        "submitin e0 64\n\
         submitin e2 64\n\
         cancel e2\n\
         ! pkt k0 81 07070707070707070707070707070707070707070707070707070707070707070707070707070707070707070707070707070707070707070707070707070707 ; reap 1\n\
         poll e2\n\
         poll e0\n\
         ! reap 1 ; reap 0\n\
         poll e0\n",
        "ok\n\
         ok\n\
         ok\n\
         done cancelled 0 64 -\n\
         pending\n\
         done ok 64 64 07070707070707070707070707070707070707070707070707070707070707070707070707070707070707070707070707070707070707070707070707070707\n\
         ticket 0 k0 81 ok 64 taken\n\
         ticket 1 k1 81 cancelled 0 taken\n",
    ),
];

#[test]
fn calls_go_by_refusals_configurations_and_resets(rt: HostRuntime) -> Result<(), Fail> {
    expect_rows(&rt, rt.alloc(), &[], TWO, CALLS.as_slice())
}
