//! Lines of endpoints: transfers that block, cancels, closes, and a device that goes away.

use super::{OPENED, expect_rows};
use std::test::Fail;

/// The lines that claim an interface with a bulk OUT endpoint 02, and their answers.
const CLAIMED: (&str, &str) = (
    "device k0 1 6 3 1 1201000200000040aaaabbbb0001000000010902200001010080320904000002ff0000000705810240000007050202400000\n\
     open d0 1 6\n\
     claim d0 0 i0\n",
    "ok\n\
     ok\n",
);

/// Blocking transfers, closes and a device that goes away.
pub const BLOCKING: [(&str, &str, &str); 4] = [
    (
        "blocking transfers",
        "xferin e0 128 0\n\
         xferin e0 128 100 : pkt k0 81 11111111111111111111111111111111111111111111111111111111111111111111111111111111111111111111111111111111111111111111111111111111 ; clock 100\n\
         xferin e0 64 100 : pkt k0 81 05 ; clock 200 ; reap\n\
         xferin e0 64 100 : clock 300 ; pkt k0 81 05 ; reap\n",
        "done cancelled 0 128 -\n\
         done cancelled 64 128 11111111111111111111111111111111111111111111111111111111111111111111111111111111111111111111111111111111111111111111111111111111\n\
         done ok 1 64 05\n\
         done cancelled 0 64 -\n\
         ticket 0 k0 81 cancelled 0 taken\n\
         ticket 1 k0 81 cancelled 64 taken\n\
         ticket 2 k0 81 ok 1 taken\n\
         ticket 3 k0 81 cancelled 0 taken\n",
    ),
    (
        "close with unreclaimed tickets",
        "submitin e0 64\n\
         submitin e0 64\n\
         submitin e0 64\n\
         ! pkt k0 81 01 ; reap 0\n\
         close e0\n\
         endpoint e0 i0 81 bulk-in\n\
         ! reap 1\n\
         endpoint e0 i0 81 bulk-in\n\
         ! reap 2\n\
         endpoint e0 i0 81 bulk-in\n",
        "ok\n\
         ok\n\
         ok\n\
         ok\n\
         error Busy endpoint already in use\n\
         error Busy endpoint already in use\n\
         ok\n\
         ticket 0 k0 81 ok 1 dropped\n\
         ticket 1 k0 81 cancelled 0 reclaimed\n\
         ticket 2 k0 81 cancelled 0 reclaimed\n",
    ),
    (
        "empty packet and invalid length",
        "submitin e0 64\n\
         submitin e0 100\n\
         poll e0\n\
         pending e0\n\
         ! pkt k0 81 - ; reap\n\
         poll e0\n\
         poll e0\n",
        "ok\n\
         ok\n\
         pending\n\
         count 2\n\
         done ok 0 64 -\n\
         done invalid 0 100 -\n\
         ticket 0 k0 81 ok 0 taken\n\
         ticket 1 k0 81 invalid 0 taken\n",
    ),
    (
        "unplug",
        "claim d0 0 i1\n\
         submitin e0 64\n\
         submitin e0 64\n\
         ! unplug k0\n\
         submitin e0 64\n\
         poll e0\n\
         ! reap ; reap\n\
         poll e0\n\
         poll e0\n\
         poll e0\n",
        "error Busy interface is busy (errno 16)\n\
         ok\n\
         ok\n\
         ok\n\
         pending\n\
         done disconnected 0 64 -\n\
         done disconnected 0 64 -\n\
         done disconnected 0 64 -\n\
         ticket 0 k0 81 disconnected 0 taken\n\
         ticket 1 k0 81 disconnected 0 taken\n\
         ticket 2 k0 81 disconnected 0 taken\n",
    ),
];

#[test]
fn answers_blocking_transfers_closes_and_an_unplug(rt: HostRuntime) -> Result<(), Fail> {
    expect_rows(&rt, rt.alloc(), &[], OPENED, BLOCKING.as_slice())
}

/// OUT transfers.
const OUT: [(&str, &str, &str); 2] = [
    (
        "cancelled OUT transfer",
        "endpoint e1 i0 02 bulk-out\n\
         submitout e1 0102\n\
         cancel e1\n\
         poll e1\n\
         ! reap\n\
         poll e1\n",
        "ok\n\
         ok\n\
         ok\n\
         pending\n\
         done cancelled 0 2 0102\n\
         ticket 0 k0 02 cancelled 0 taken\n",
    ),
    (
        "stalled OUT transfer",
        "endpoint e0 i0 02 bulk-out\n\
         submitout e0 1111111111111111111111111111111111111111111111111111111111111111111111111111111111111111111111111111111111111111111111111111111111\n\
         ! ack k0 02 ; fail k0 02 32 ; reap\n\
         poll e0\n",
        "ok\n\
         ok\n\
         done stall 64 65 1111111111111111111111111111111111111111111111111111111111111111111111111111111111111111111111111111111111111111111111111111111111\n\
         ticket 0 k0 02 stall 64 taken\n",
    ),
];

#[test]
fn answers_out_transfers(rt: HostRuntime) -> Result<(), Fail> {
    expect_rows(&rt, rt.alloc(), &[], CLAIMED, OUT.as_slice())
}

/// Waits with steps of their own.
const WAITS: [(&str, &str, &str); 4] = [
    (
        "wait by the clock",
        "submitin e0 64\n\
         submitin e0 64\n\
         wait e0 100 : clock 50 ; pkt k0 81 01 ; reap\n\
         now\n\
         wait e0 20\n",
        "ok\n\
         ok\n\
         done ok 1 64 01\n\
         now 50\n\
         none\n\
         ticket 0 k0 81 ok 1 taken\n\
         ticket 1 k0 81 cancelled 0 reclaimed\n",
    ),
    // The steps that are left when the time is up are applied after the answer.
    (
        "steps that are left when the time is up",
        "submitin e0 64\n\
         wait e0 30 : clock 40 ; pkt k0 81 05 ; reap\n\
         poll e0\n",
        "ok\n\
         none\n\
         done ok 1 64 05\n\
         ticket 0 k0 81 ok 1 taken\n",
    ),
    // A wait with nothing pending is barred, and its steps are applied.
    (
        "wait with nothing pending",
        "wait e0 30 : clock 7\n\
         now\n",
        "condition\n\
         now 7\n",
    ),
    (
        "a length that is no multiple of the packet size is refused",
        "submitin e0 0\n\
         poll e0\n\
         submitin e0 63\n\
         poll e0\n\
         submitin e0 100\n\
         poll e0\n\
         submitin e0 64\n\
         poll e0\n\
         submitin e0 128\n\
         pending e0\n",
        "ok\n\
         done invalid 0 0 -\n\
         ok\n\
         done invalid 0 63 -\n\
         ok\n\
         done invalid 0 100 -\n\
         ok\n\
         pending\n\
         ok\n\
         count 2\n\
         ticket 0 k0 81 invalid 0 taken\n\
         ticket 1 k0 81 invalid 0 taken\n\
         ticket 2 k0 81 invalid 0 taken\n\
         ticket 3 k0 81 cancelled 0 reclaimed\n\
         ticket 4 k0 81 cancelled 0 reclaimed\n",
    ),
];

#[test]
fn answers_waits_by_the_steps_of_their_lines(rt: HostRuntime) -> Result<(), Fail> {
    expect_rows(&rt, rt.alloc(), &[], OPENED, WAITS.as_slice())
}

/// Orders of reaps, and what other endpoints, closes, waits and unplugs leave.
const ORDERS: [(&str, &str, &str); 11] = [
    (
        "reaps of tickets 0, 1, 2",
        "submitin e0 64\n\
         submitin e0 64\n\
         submitin e0 64\n\
         ! pkt k0 81 01 ; pkt k0 81 0102 ; pkt k0 81 010203\n\
         ! reap 0\n\
         poll e0\n\
         ! reap 1\n\
         poll e0\n\
         ! reap 2\n\
         poll e0\n\
         poll e0\n\
         poll e0\n",
        "ok\n\
         ok\n\
         ok\n\
         done ok 1 64 01\n\
         done ok 2 64 0102\n\
         done ok 3 64 010203\n\
         condition\n\
         condition\n\
         ticket 0 k0 81 ok 1 taken\n\
         ticket 1 k0 81 ok 2 taken\n\
         ticket 2 k0 81 ok 3 taken\n",
    ),
    (
        "reaps of tickets 0, 2, 1",
        "submitin e0 64\n\
         submitin e0 64\n\
         submitin e0 64\n\
         ! pkt k0 81 01 ; pkt k0 81 0102 ; pkt k0 81 010203\n\
         ! reap 0\n\
         poll e0\n\
         ! reap 2\n\
         poll e0\n\
         ! reap 1\n\
         poll e0\n\
         poll e0\n\
         poll e0\n",
        "ok\n\
         ok\n\
         ok\n\
         done ok 1 64 01\n\
         pending\n\
         done ok 2 64 0102\n\
         done ok 3 64 010203\n\
         condition\n\
         ticket 0 k0 81 ok 1 taken\n\
         ticket 1 k0 81 ok 2 taken\n\
         ticket 2 k0 81 ok 3 taken\n",
    ),
    (
        "reaps of tickets 1, 0, 2",
        "submitin e0 64\n\
         submitin e0 64\n\
         submitin e0 64\n\
         ! pkt k0 81 01 ; pkt k0 81 0102 ; pkt k0 81 010203\n\
         ! reap 1\n\
         poll e0\n\
         ! reap 0\n\
         poll e0\n\
         ! reap 2\n\
         poll e0\n\
         poll e0\n\
         poll e0\n",
        "ok\n\
         ok\n\
         ok\n\
         pending\n\
         done ok 1 64 01\n\
         done ok 2 64 0102\n\
         done ok 3 64 010203\n\
         condition\n\
         ticket 0 k0 81 ok 1 taken\n\
         ticket 1 k0 81 ok 2 taken\n\
         ticket 2 k0 81 ok 3 taken\n",
    ),
    (
        "reaps of tickets 1, 2, 0",
        "submitin e0 64\n\
         submitin e0 64\n\
         submitin e0 64\n\
         ! pkt k0 81 01 ; pkt k0 81 0102 ; pkt k0 81 010203\n\
         ! reap 1\n\
         poll e0\n\
         ! reap 2\n\
         poll e0\n\
         ! reap 0\n\
         poll e0\n\
         poll e0\n\
         poll e0\n",
        "ok\n\
         ok\n\
         ok\n\
         pending\n\
         pending\n\
         done ok 1 64 01\n\
         done ok 2 64 0102\n\
         done ok 3 64 010203\n\
         ticket 0 k0 81 ok 1 taken\n\
         ticket 1 k0 81 ok 2 taken\n\
         ticket 2 k0 81 ok 3 taken\n",
    ),
    (
        "reaps of tickets 2, 0, 1",
        "submitin e0 64\n\
         submitin e0 64\n\
         submitin e0 64\n\
         ! pkt k0 81 01 ; pkt k0 81 0102 ; pkt k0 81 010203\n\
         ! reap 2\n\
         poll e0\n\
         ! reap 0\n\
         poll e0\n\
         ! reap 1\n\
         poll e0\n\
         poll e0\n\
         poll e0\n",
        "ok\n\
         ok\n\
         ok\n\
         pending\n\
         done ok 1 64 01\n\
         done ok 2 64 0102\n\
         done ok 3 64 010203\n\
         condition\n\
         ticket 0 k0 81 ok 1 taken\n\
         ticket 1 k0 81 ok 2 taken\n\
         ticket 2 k0 81 ok 3 taken\n",
    ),
    (
        "reaps of tickets 2, 1, 0",
        "submitin e0 64\n\
         submitin e0 64\n\
         submitin e0 64\n\
         ! pkt k0 81 01 ; pkt k0 81 0102 ; pkt k0 81 010203\n\
         ! reap 2\n\
         poll e0\n\
         ! reap 1\n\
         poll e0\n\
         ! reap 0\n\
         poll e0\n\
         poll e0\n\
         poll e0\n",
        "ok\n\
         ok\n\
         ok\n\
         pending\n\
         pending\n\
         done ok 1 64 01\n\
         done ok 2 64 0102\n\
         done ok 3 64 010203\n\
         ticket 0 k0 81 ok 1 taken\n\
         ticket 1 k0 81 ok 2 taken\n\
         ticket 2 k0 81 ok 3 taken\n",
    ),
    (
        "a close leaves the transfers of another endpoint",
        "endpoint e1 i0 02 bulk-out\n\
         submitin e0 64\n\
         submitout e1 -\n\
         close e1\n\
         pending e0\n\
         poll e0\n\
         ! pkt k0 81 0102 ; reap 0\n\
         poll e0\n",
        "ok\n\
         ok\n\
         ok\n\
         ok\n\
         count 1\n\
         pending\n\
         done ok 2 64 0102\n\
         ticket 0 k0 81 ok 2 taken\n\
         ticket 1 k0 02 cancelled 0 reclaimed\n",
    ),
    (
        "an endpoint is in use until its last ticket is reaped",
        "submitin e0 64\n\
         submitin e0 64\n\
         submitin e0 64\n\
         ! pkt k0 81 01 ; pkt k0 81 0102 ; reap 0\n\
         close e0\n\
         endpoint e0 i0 81 bulk-in\n\
         ! reap 2\n\
         endpoint e0 i0 81 bulk-in\n\
         ! reap 1\n\
         endpoint e0 i0 81 bulk-in\n",
        "ok\n\
         ok\n\
         ok\n\
         ok\n\
         error Busy endpoint already in use\n\
         error Busy endpoint already in use\n\
         ok\n\
         ticket 0 k0 81 ok 1 dropped\n\
         ticket 1 k0 81 ok 2 reclaimed\n\
         ticket 2 k0 81 cancelled 0 reclaimed\n",
    ),
    (
        "a wait of time zero only looks",
        "submitin e0 64\n\
         ! pkt k0 81 0102\n\
         wait e0 0\n\
         wait e0 1\n",
        "ok\n\
         none\n\
         done ok 2 64 0102\n\
         ticket 0 k0 81 ok 2 taken\n",
    ),
    (
        "one transfer has its packet, and the device goes",
        "submitin e0 64\n\
         submitin e0 64\n\
         ! pkt k0 81 01 ; unplug k0 ; reap 0 ; reap 1\n\
         poll e0\n\
         poll e0\n\
         submitin e0 64\n\
         poll e0\n",
        "ok\n\
         ok\n\
         done ok 1 64 01\n\
         done disconnected 0 64 -\n\
         ok\n\
         done disconnected 0 64 -\n\
         ticket 0 k0 81 ok 1 taken\n\
         ticket 1 k0 81 disconnected 0 taken\n\
         ticket 2 k0 81 disconnected 0 taken\n",
    ),
    (
        "a blocking transfer that times out is cancelled",
        "xferin e0 64 5 : clock 5\n\
         pending e0\n",
        "done cancelled 0 64 -\n\
         count 0\n\
         ticket 0 k0 81 cancelled 0 taken\n",
    ),
];

#[test]
fn completions_come_in_order_of_submission(rt: HostRuntime) -> Result<(), Fail> {
    expect_rows(&rt, rt.alloc(), &[], OPENED, ORDERS.as_slice())
}
