//! Lines of control transfers: answers, deadlines, and what a device tells.

use super::expect_rows;
use std::test::Fail;

/// The lines that claim an interface, and their answers.
const CLAIMED: (&str, &str) = (
    "device k0 1 6 3 1 1201000200000040aaaabbbb0001000000010902200001010080320904000002ff0000000705810240000007050202400000\n\
     open d0 1 6\n\
     claim d0 0 i0\n",
    "ok\n\
     ok\n",
);

/// Transfers that are waited for.
const WAITED: [(&str, &str, &str); 7] = [
    (
        "control and strings",
        "ctlin d0 vendor device 30 0000 0000 64 1000 : pkt k0 80 0102\n\
         ctlout d0 vendor device 32 0000 0000 01020304 1000 : ack k0 00\n\
         string d0 1 0409 1000 : pkt k0 80 060341004200\n\
         langs d0 1000 : pkt k0 80 04030904\n\
         string d0 1 0409 1000 : pkt k0 80 06034100\n\
         getdesc d0 1 0 0000 1000 : fail k0 80 32\n",
        "data 0102\n\
         ok\n\
         string 4142\n\
         langs 0409\n\
         failed invalid-descriptor\n\
         failed stall\n\
         ticket 0 k0 80 ok 2 taken\n\
         ticket 1 k0 00 ok 4 taken\n\
         ticket 2 k0 80 ok 6 taken\n\
         ticket 3 k0 80 ok 4 taken\n\
         ticket 4 k0 80 ok 4 taken\n\
         ticket 5 k0 80 stall 0 taken\n",
    ),
    (
        "refused control submission",
        "! refuse k0 submit 110\n\
         ctlin d0 vendor device 30 0000 0000 64 1000\n",
        "failed unknown:110\n\
         ticket 0 k0 80 unknown:110 0 taken\n",
    ),
    // A packet that is longer than the data ends the transfer with errno 75.
    (
        "control transfers of no bytes",
        "ctlin i0 class interface 30 0000 0000 0 1000 : pkt k0 80 -\n\
         ctlin i0 class interface 30 0000 0000 0 1000 : pkt k0 80 01\n\
         ctlout i0 class interface 30 0000 0000 - 1000 : ack k0 00\n",
        "data -\n\
         failed fault\n\
         ok\n\
         ticket 0 k0 80 ok 0 taken\n\
         ticket 1 k0 80 fault 0 taken\n\
         ticket 2 k0 00 ok 0 taken\n",
    ),
    // An odd last byte is left out, and a surrogate that has no partner becomes U+FFFD.
    (
        "strings and languages of odd lengths",
        "string d0 255 0000 1000 : pkt k0 80 0703410000d842\n\
         langs d0 1000 : pkt k0 80 07030904070c09\n\
         langs d0 1000 : pkt k0 80 0203\n\
         langs d0 1000 : pkt k0 80 0202\n",
        "string 41efbfbd\n\
         langs 0409 0c07\n\
         langs\n\
         failed invalid-descriptor\n\
         ticket 0 k0 80 ok 7 taken\n\
         ticket 1 k0 80 ok 7 taken\n\
         ticket 2 k0 80 ok 2 taken\n\
         ticket 3 k0 80 ok 2 taken\n",
    ),
    // The wait goes on by the steps, then by a reap of another ticket, and then by its own.
    (
        "a control transfer behind a reap of another",
        "fin f0 d0 vendor device 30 0000 0000 8 1000\n\
         ctlin d0 vendor device 31 0000 0000 8 1000 : pkt k0 80 05 ; pkt k0 80 0607\n\
         fpoll f0\n\
         now\n",
        "ok\n\
         data 0607\n\
         data 05\n\
         now 0\n\
         ticket 0 k0 80 ok 1 taken\n\
         ticket 1 k0 80 ok 2 taken\n",
    ),
    (
        "descriptors are taken by their length byte",
        "getdesc d0 1 0 0000 1000000000 : pkt k0 80 1201000200000040aaaabbbb000100000001\n\
         langs d0 1000000000 : pkt k0 80 04030904\n\
         string d0 1 0409 1000000000 : pkt k0 80 060348006900\n\
         langs d0 1000000000 : pkt k0 80 03030904\n\
         string d0 1 0409 1000000000 : pkt k0 80 070348006900\n",
        "data 1201000200000040aaaabbbb000100000001\n\
         langs 0409\n\
         string 4869\n\
         failed invalid-descriptor\n\
         failed invalid-descriptor\n\
         ticket 0 k0 80 ok 18 taken\n\
         ticket 1 k0 80 ok 4 taken\n\
         ticket 2 k0 80 ok 6 taken\n\
         ticket 3 k0 80 ok 4 taken\n\
         ticket 4 k0 80 ok 6 taken\n",
    ),
    (
        "control transfers of a device and of its interface",
        "ctlin d0 standard device 00 0000 0000 2 1000000000 : pkt k0 80 0100\n\
         ctlin i0 standard device 00 0000 0000 2 1000000000 : pkt k0 80 0100\n\
         ctlout d0 vendor device 01 0002 0000 010203 1000000000 : ack k0 00\n\
         ctlout i0 vendor device 01 0002 0000 010203 1000000000 : ack k0 00\n",
        "data 0100\n\
         data 0100\n\
         ok\n\
         ok\n\
         ticket 0 k0 80 ok 2 taken\n\
         ticket 1 k0 80 ok 2 taken\n\
         ticket 2 k0 00 ok 3 taken\n\
         ticket 3 k0 00 ok 3 taken\n",
    ),
];

#[test]
fn answers_control_transfers_and_strings(rt: HostRuntime) -> Result<(), Fail> {
    expect_rows(&rt, rt.alloc(), &[], CLAIMED, WAITED.as_slice())
}

/// Transfers on their way.
pub const ON_THEIR_WAY: [(&str, &str, &str); 9] = [
    (
        "control deadlines",
        "fin f0 d0 vendor device 30 0000 0000 64 100\n\
         fin f1 d0 vendor device 30 0000 0000 64 200\n\
         ! clock 100 ; timer\n\
         fpoll f0\n\
         ! reap\n\
         fpoll f0\n\
         fpoll f1\n\
         fwait f1\n\
         now\n",
        "ok\n\
         ok\n\
         pending\n\
         failed cancelled\n\
         pending\n\
         failed cancelled\n\
         now 200\n\
         ticket 0 k0 80 cancelled 0 taken\n\
         ticket 1 k0 80 cancelled 0 taken\n",
    ),
    // A day is the longest that a control transfer may take.
    (
        "a control transfer without end",
        "fout f63 i0 standard other 00 0000 0000 01 max\n\
         fwait f63 : clock 5\n\
         now\n\
         fpoll f63\n",
        "ok\n\
         failed cancelled\n\
         now 86400000000000\n\
         condition\n\
         ticket 0 k0 00 cancelled 0 taken\n",
    ),
    (
        "a control transfer that is given up goes on",
        "fin f0 d0 vendor device 30 0000 0000 8 1000\n\
         fin f1 d0 vendor device 30 0000 0000 8 1000\n\
         ! pkt k0 80 01 ; reap\n\
         close f0\n\
         close f1\n\
         close f1\n\
         ! pkt k0 80 02 ; reap\n",
        "ok\n\
         ok\n\
         ok\n\
         ok\n\
         condition\n\
         ticket 0 k0 80 ok 1 dropped\n\
         ticket 1 k0 80 ok 1 reclaimed\n",
    ),
    (
        "the end of a control transfer that takes bytes away",
        "fout f0 d0 vendor device 30 0000 0000 0102 1000\n\
         fpoll f0\n\
         ! ack k0 00 ; reap\n\
         fpoll f0\n",
        "ok\n\
         pending\n\
         data -\n\
         ticket 0 k0 00 ok 2 taken\n",
    ),
    // The steps of a call that is barred are applied.
    (
        "barred control transfers",
        "ctlin d1 vendor device 30 0000 0000 8 1000 : clock 7\n\
         ctlout i1 vendor device 30 0000 0000 - 1000\n\
         fin f0 d0 vendor device 30 0000 0000 8 1000\n\
         fin f0 d0 vendor device 30 0000 0000 8 1000\n\
         fwait f1 : clock 9\n\
         langs d1 5\n\
         string d1 1 0409 5\n\
         getdesc d1 1 0 0000 5\n\
         now\n",
        "condition\n\
         condition\n\
         ok\n\
         condition\n\
         condition\n\
         condition\n\
         condition\n\
         condition\n\
         now 9\n\
         ticket 0 k0 80 cancelled 0 reclaimed\n",
    ),
    (
        "a control transfer of a device that goes",
        "fin f0 i0 vendor device 30 0000 0000 8 1000\n\
         ! pkt k0 80 0102030405060708 ; unplug k0\n\
         ctlout d0 vendor device 30 0000 0000 01 1000\n\
         fwait f0\n",
        "ok\n\
         failed disconnected\n\
         data 0102030405060708\n\
         ticket 0 k0 80 ok 8 taken\n\
         ticket 1 k0 00 disconnected 0 taken\n",
    ),
    (
        "the status of a device is polled, waited for and given up",
        "fin f0 d0 standard device 00 0000 0000 2 1000000000\n\
         fpoll f0\n\
         ! pkt k0 80 0100 ; reap\n\
         fpoll f0\n\
         fin f0 d0 standard device 00 0000 0000 2 1000000000\n\
         fwait f0 : pkt k0 80 0100\n\
         fin f0 d0 standard device 00 0000 0000 2 1000000000\n\
         close f0\n\
         ! pkt k0 80 0100 ; reap\n\
         fin f0 i0 standard device 00 0000 0000 2 1000000000\n\
         fpoll f0\n\
         ! pkt k0 80 0100 ; reap\n\
         fpoll f0\n\
         fin f0 i0 standard device 00 0000 0000 2 1000000000\n\
         fwait f0 : pkt k0 80 0100\n\
         fin f0 i0 standard device 00 0000 0000 2 1000000000\n\
         close f0\n\
         ! pkt k0 80 0100 ; reap\n",
        "ok\n\
         pending\n\
         data 0100\n\
         ok\n\
         data 0100\n\
         ok\n\
         ok\n\
         ok\n\
         pending\n\
         data 0100\n\
         ok\n\
         data 0100\n\
         ok\n\
         ok\n\
         ticket 0 k0 80 ok 2 taken\n\
         ticket 1 k0 80 ok 2 taken\n\
         ticket 2 k0 80 ok 2 reclaimed\n\
         ticket 3 k0 80 ok 2 taken\n\
         ticket 4 k0 80 ok 2 taken\n\
         ticket 5 k0 80 ok 2 reclaimed\n",
    ),
    (
        "bytes to a device are polled, waited for and given up",
        "fout f0 d0 vendor device 01 0002 0000 010203 1000000000\n\
         fpoll f0\n\
         ! ack k0 00 ; reap\n\
         fpoll f0\n\
         fout f0 d0 vendor device 01 0002 0000 010203 1000000000\n\
         fwait f0 : ack k0 00\n\
         fout f0 d0 vendor device 01 0002 0000 010203 1000000000\n\
         close f0\n\
         ! ack k0 00 ; reap\n\
         fout f0 i0 vendor device 01 0002 0000 010203 1000000000\n\
         fpoll f0\n\
         ! ack k0 00 ; reap\n\
         fpoll f0\n\
         fout f0 i0 vendor device 01 0002 0000 010203 1000000000\n\
         fwait f0 : ack k0 00\n\
         fout f0 i0 vendor device 01 0002 0000 010203 1000000000\n\
         close f0\n\
         ! ack k0 00 ; reap\n",
        "ok\n\
         pending\n\
         data -\n\
         ok\n\
         data -\n\
         ok\n\
         ok\n\
         ok\n\
         pending\n\
         data -\n\
         ok\n\
         data -\n\
         ok\n\
         ok\n\
         ticket 0 k0 00 ok 3 taken\n\
         ticket 1 k0 00 ok 3 taken\n\
         ticket 2 k0 00 ok 3 reclaimed\n\
         ticket 3 k0 00 ok 3 taken\n\
         ticket 4 k0 00 ok 3 taken\n\
         ticket 5 k0 00 ok 3 reclaimed\n",
    ),
    (
        "a turn of the timer discards what is due",
        "fin f0 d0 standard device 06 0100 0000 18 100\n\
         fin f1 d0 standard device 06 0100 0000 18 200\n\
         endpoint e0 i0 81 bulk-in\n\
         submitin e0 64\n\
         ! clock 99 ; timer ; reap\n\
         fpoll f0\n\
         ! clock 100 ; timer ; reap\n\
         fpoll f0\n\
         ! reap\n\
         fpoll f1\n\
         ! clock 1000 ; timer ; reap ; reap\n\
         fpoll f1\n\
         poll e0\n",
        "ok\n\
         ok\n\
         ok\n\
         ok\n\
         pending\n\
         failed cancelled\n\
         pending\n\
         failed cancelled\n\
         pending\n\
         ticket 0 k0 80 cancelled 0 taken\n\
         ticket 1 k0 80 cancelled 0 taken\n\
         ticket 2 k0 81 cancelled 0 reclaimed\n",
    ),
];

#[test]
fn answers_control_transfers_on_their_way(rt: HostRuntime) -> Result<(), Fail> {
    expect_rows(&rt, rt.alloc(), &[], CLAIMED, ON_THEIR_WAY.as_slice())
}
