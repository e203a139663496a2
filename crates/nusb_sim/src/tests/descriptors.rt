//! What an open device told of itself.

use super::expect_rows;
use std::test::Fail;

/// What stands behind a device descriptor, and the line for it: each as a script with its output.
const CONFIGURATIONS: [(&str, &str, &str); 11] = [
    // All descriptors are whole.
    (
        "whole",
        "device k0 1 6 3 1 1201000200000040aaaabbbb0001000000010902200001010080320904000002ff0000000705810240000007050202400000\n\
         open d0 1 6\n\
         descriptors d0\n",
        "ok\n\
         desc cfg 1 if 0.0 ff 00 00 ep 81 bulk 64 0 ep 02 bulk 64 0\n",
    ),
    // A descriptor of two bytes ends the interface's group.
    (
        "two bytes",
        "device k0 1 6 3 1 1201000200000040aaaabbbb0001000000010902220001010080320904000002ff0000000705810240000002ff07050202400000\n\
         open d0 1 6\n\
         descriptors d0\n",
        "ok\n\
         desc cfg 1 if 0.0 ff 00 00 ep 81 bulk 64 0\n",
    ),
    // The total length ends within the second endpoint.
    (
        "total length within an endpoint",
        "device k0 1 6 3 1 1201000200000040aaaabbbb00010000000109021e0001010080320904000002ff0000000705810240000007050202400000\n\
         open d0 1 6\n\
         descriptors d0\n",
        "ok\n\
         desc cfg 1 if 0.0 ff 00 00 ep 81 bulk 64 0\n",
    ),
    // The first byte of the second endpoint is 00.
    (
        "first byte 00",
        "device k0 1 6 3 1 1201000200000040aaaabbbb0001000000010902200001010080320904000002ff0000000705810240000000050202400000\n\
         open d0 1 6\n\
         descriptors d0\n",
        "ok\n\
         desc cfg 1 if 0.0 ff 00 00 ep 81 bulk 64 0\n",
    ),
    // The last byte is missing.
    (
        "last byte missing",
        "device k0 1 6 3 1 1201000200000040aaaabbbb0001000000010902200001010080320904000002ff00000007058102400000070502024000\n\
         open d0 1 6\n\
         descriptors d0\n",
        "ok\n\
         desc\n",
    ),
    // An endpoint descriptor of 6 bytes is too short.
    (
        "endpoint of 6 bytes",
        "device k0 1 6 3 1 1201000200000040aaaabbbb00010000000109021f0001010080320904000002ff00000006058102400007050202400000\n\
         open d0 1 6\n\
         descriptors d0\n",
        "ok\n\
         desc cfg 1 if 0.0 ff 00 00 ep 02 bulk 64 0\n",
    ),
    // An interface descriptor of 8 bytes is too short.
    (
        "interface of 8 bytes",
        "device k0 1 6 3 1 1201000200000040aaaabbbb00010000000109021f0001010080320804000002ff00000705810240000007050202400000\n\
         open d0 1 6\n\
         descriptors d0\n",
        "ok\n\
         desc cfg 1\n",
    ),
    // A total length of 8 is below the first descriptor's 9.
    (
        "total length of 8",
        "device k0 1 6 3 1 1201000200000040aaaabbbb000100000001090208000101008032\n\
         open d0 1 6\n\
         descriptors d0\n",
        "ok\n\
         desc\n",
    ),
    (
        "no interface",
        "device k0 1 6 3 1 1201000200000040aaaabbbb000100000001090209000101008032\n\
         open d0 1 6\n\
         descriptors d0\n",
        "ok\n\
         desc cfg 1\n",
    ),
    // The interfaces stand by rising number.
    (
        "interfaces",
        "device k0 1 6 3 1 1201000200000040aaaabbbb00010000000109021b0001010080320904010000ff0000000904000000ff000000\n\
         open d0 1 6\n\
         descriptors d0\n",
        "ok\n\
         desc cfg 1 if 0.0 ff 00 00 if 1.0 ff 00 00\n",
    ),
    // The settings of interface 0 stand in the order of their descriptors. The 5120 of endpoint 05 are 1024 bytes and two
    // further packets. A second configuration stands behind the first.
    (
        "settings",
        "device k0 1 6 3 1 1201000200000040aaaabbbb00010000000109023900020200803209040100000e01000009040001020300000007050400400000070505010014010904000001030102000705830308000a090209000001008032\n\
         open d0 1 6\n\
         descriptors d0\n",
        "ok\n\
         desc cfg 2 if 0.1 03 00 00 ep 04 control 64 0 ep 05 iso 1024 1 if 0.0 03 01 02 ep 83 interrupt 8 10 if 1.0 0e 01 00 cfg 1\n",
    ),
];

#[test]
fn writes_configurations_interfaces_and_endpoints(rt: HostRuntime) -> Result<(), Fail> {
    expect_rows(&rt, rt.alloc(), &[], ("", ""), CONFIGURATIONS.as_slice())
}

const DEVICES: [(&str, &str, &str); 3] = [
    (
        "device of vendor aaaa",
        "device k0 1 6 3 1 1201000200000040aaaabbbb000100000001\n\
         open d0 1 6\n\
         devdesc d0\n",
        "ok\n\
         device 0200 00 00 00 64 aaaa bbbb 0100 0 0 0 1\n",
    ),
    (
        "device of vendor 1d6b",
        "device k0 1 6 3 1 12011003ef0201096b1d0300130501020302\n\
         open d0 1 6\n\
         devdesc d0\n",
        "ok\n\
         device 0310 ef 02 01 9 1d6b 0003 0513 1 2 3 2\n",
    ),
    (
        "device that is not open",
        "device k0 1 6 3 1 1201000200000040aaaabbbb000100000001\n\
         devdesc d0\n\
         open d0 1 6\n\
         descriptors d1\n\
         descriptors d0\n",
        "condition\n\
         ok\n\
         condition\n\
         desc\n",
    ),
];

#[test]
fn writes_descriptors_of_open_devices(rt: HostRuntime) -> Result<(), Fail> {
    expect_rows(&rt, rt.alloc(), &[], ("", ""), DEVICES.as_slice())
}
