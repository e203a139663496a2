//! Lines on devices and interfaces: owners, settings, drivers, configurations and resets.

use super::expect_rows;
use std::test::Fail;

/// Whole scripts and what is written for them.
const CALLS: [(&str, &str, &str); 4] = [
    (
        "owners and alternate settings",
        "device k0 1 6 3 1 1201000200000040aaaabbbb0001000000010902200001010080320904000002ff0000000705810240000007050202400000\n\
         open d0 1 6\n\
         claim d0 0 i0\n\
         clone i1 i0\n\
         release i0\n\
         close i1\n\
         endpoint e0 i0 81 bulk-in\n\
         alt i0 0\n\
         close e0\n\
         alt i0 0\n\
         alt i0 1\n\
         getalt i0\n\
         release i0\n\
         claim d0 0 i0\n",
        "ok\n\
         ok\n\
         ok\n\
         error Busy interface is still in use\n\
         ok\n\
         ok\n\
         error Busy can't change alternate setting while endpoints are in use\n\
         ok\n\
         ok\n\
         error NotFound alternate setting not found (errno 22)\n\
         alt 0\n\
         ok\n\
         ok\n",
    ),
    (
        "kernel drivers",
        "device k0 1 6 3 1 1201000200000040aaaabbbb0001000000010902200001010080320904000002ff0000000705810240000007050202400000\n\
         driver k0 0\n\
         open d0 1 6\n\
         claim d0 0 i0\n\
         detachclaim d0 0 i0\n\
         attach d0 0\n\
         close i0\n\
         claim d0 0 i0\n\
         detach d0 0\n\
         detach d0 0\n\
         claim d0 0 i0\n",
        "ok\n\
         error Busy interface is busy (errno 16)\n\
         ok\n\
         error Busy kernel driver already attached (errno 16)\n\
         ok\n\
         error Busy interface is busy (errno 16)\n\
         ok\n\
         error Other no kernel driver attached (errno 61)\n\
         ok\n",
    ),
    (
        "configuration and reset",
        "device k0 1 6 3 1 1201000200000040aaaabbbb0001000000010902200001010080320904000002ff0000000705810240000007050202400000\n\
         open d0 1 6\n\
         setconfig d0 7\n\
         setconfig d0 0\n\
         active d0\n\
         claim d0 0 i0\n\
         setconfig d0 1\n\
         active d0\n\
         speed d0\n\
         clone d2 d0\n\
         reset d0\n\
         claim d0 0 i0\n\
         active d0\n\
         open d1 1 6\n",
        "ok\n\
         error NotFound configuration not found (errno 22)\n\
         ok\n\
         noconfig device is not configured\n\
         error NotFound interface not found (errno 2)\n\
         ok\n\
         config 1\n\
         speed High\n\
         ok\n\
         ok\n\
         error Disconnected device disconnected (errno 19)\n\
         config 1\n\
         error Disconnected device not found (errno 2)\n",
    ),
    (
        "armed refusal used once",
        "device k0 1 6 3 1 1201000200000040aaaabbbb0001000000010902200001010080320904000002ff0000000705810240000007050202400000\n\
         open d0 1 6\n\
         claim d0 0 i0\n\
         ! refuse k0 alt 71\n\
         alt i0 0\n\
         alt i0 0\n",
        "ok\n\
         ok\n\
         error Other failed to set alternate setting (errno 71)\n\
         ok\n",
    ),
];

#[test]
fn answers_calls_on_devices_and_interfaces(rt: HostRuntime) -> Result<(), Fail> {
    expect_rows(&rt, rt.alloc(), &[], ("", ""), CALLS.as_slice())
}

/// Whole scripts on a device of two settings and two configurations, and on one of two endpoints.
const HOSTS: [(&str, &str, &str); 9] = [
    (
        "a claim that detached the driver attaches it",
        "device k0 1 6 3 1 1201000200000040aaaabbbb0001000000020902290001010080320904000001ff000000070581024000000904000101ff000000070581024000000902120001020080320904010000ff000000\n\
         driver k0 0\n\
         open d0 1 6\n\
         claim d0 0 i0\n\
         detachclaim d0 0 i0\n\
         attach d0 0\n\
         close i0\n\
         detachclaim d0 0 i0\n\
         detach d0 0\n\
         close i0\n\
         attach d0 0\n\
         detach d0 0\n\
         detach d0 0\n\
         claim d0 0 i0\n\
         close i0\n\
         detachclaim d0 0 i0\n\
         close i0\n\
         claim d0 0 i0\n\
         detach d0 0\n\
         attach d0 0\n\
         setconfig d0 2\n\
         detach d0 0\n\
         attach d0 0\n",
        "ok\n\
         error Busy interface is busy (errno 16)\n\
         ok\n\
         error Busy kernel driver already attached (errno 16)\n\
         ok\n\
         ok\n\
         error Other no kernel driver attached (errno 61)\n\
         ok\n\
         error Busy kernel driver already attached (errno 16)\n\
         ok\n\
         error Other no kernel driver attached (errno 61)\n\
         ok\n\
         ok\n\
         ok\n\
         ok\n\
         error Busy interface is busy (errno 16)\n\
         ok\n\
         ok\n\
         ok\n\
         error NotFound interface not found (errno 22)\n\
         error NotFound interface not found (errno 22)\n",
    ),
    (
        "owners keep an interface, and endpoints its setting",
        "device k0 1 6 3 1 1201000200000040aaaabbbb0001000000020902290001010080320904000001ff000000070581024000000904000101ff000000070581024000000902120001020080320904010000ff000000\n\
         open d0 1 6\n\
         claim d0 0 i0\n\
         clone i1 i0\n\
         release i1\n\
         close i1\n\
         alt i0 1\n\
         getalt i0\n\
         ifdesc i0\n\
         alt i0 2\n\
         endpoint e0 i0 81 bulk-in\n\
         alt i0 0\n\
         halt e0\n\
         close e0\n\
         setconfig d0 2\n\
         alt i0 0\n\
         getalt i0\n\
         ifdesc i0\n",
        "ok\n\
         ok\n\
         ok\n\
         error Busy interface is still in use\n\
         ok\n\
         ok\n\
         alt 1\n\
         if 0.1 ff 00 00 ep 81 bulk 64 0\n\
         error NotFound alternate setting not found (errno 22)\n\
         ok\n\
         error Busy can't change alternate setting while endpoints are in use\n\
         ok\n\
         ok\n\
         error Busy device is busy (errno 16)\n\
         ok\n\
         alt 0\n\
         if 0.0 ff 00 00 ep 81 bulk 64 0\n",
    ),
    (
        "configurations are set and asked for",
        "device k0 1 6 3 1 1201000200000040aaaabbbb0001000000020902290001010080320904000001ff000000070581024000000904000101ff000000070581024000000902120001020080320904010000ff000000\n\
         open d0 1 6\n\
         active d0\n\
         setconfig d0 7\n\
         active d0\n\
         setconfig d0 0\n\
         active d0\n\
         claim d0 0 i0\n\
         setconfig d0 2\n\
         active d0\n\
         claim d0 0 i0\n\
         open d1 1 6\n\
         setconfig d1 1\n\
         close d1\n\
         claim d0 0 i0\n\
         active d0\n",
        "ok\n\
         config 1\n\
         error NotFound configuration not found (errno 22)\n\
         config 1\n\
         ok\n\
         noconfig device is not configured\n\
         error NotFound interface not found (errno 2)\n\
         ok\n\
         config 2\n\
         error NotFound interface not found (errno 2)\n\
         ok\n\
         ok\n\
         ok\n\
         ok\n\
         config 1\n",
    ),
    (
        "speeds by their codes, and a configuration that is not there",
        "device k0 1 1 1 9 1201000200000040aaaabbbb0001000000020902290001010080320904000001ff000000070581024000000904000101ff000000070581024000000902120001020080320904010000ff000000\n\
         device k1 1 2 2 9 1201000200000040aaaabbbb0001000000020902290001010080320904000001ff000000070581024000000904000101ff000000070581024000000902120001020080320904010000ff000000\n\
         device k2 1 3 3 9 1201000200000040aaaabbbb0001000000020902290001010080320904000001ff000000070581024000000904000101ff000000070581024000000902120001020080320904010000ff000000\n\
         device k3 1 4 5 9 1201000200000040aaaabbbb0001000000020902290001010080320904000001ff000000070581024000000904000101ff000000070581024000000902120001020080320904010000ff000000\n\
         device k4 1 5 6 9 1201000200000040aaaabbbb0001000000020902290001010080320904000001ff000000070581024000000904000101ff000000070581024000000902120001020080320904010000ff000000\n\
         device k5 1 6 4 9 1201000200000040aaaabbbb0001000000020902290001010080320904000001ff000000070581024000000904000101ff000000070581024000000902120001020080320904010000ff000000\n\
         open d0 1 1\n\
         speed d0\n\
         active d0\n\
         open d1 1 2\n\
         speed d1\n\
         active d1\n\
         open d2 1 3\n\
         speed d2\n\
         active d2\n\
         open d3 1 4\n\
         speed d3\n\
         active d3\n\
         open d4 1 5\n\
         speed d4\n\
         active d4\n\
         open d5 1 6\n\
         speed d5\n\
         active d5\n",
        "ok\n\
         speed Low\n\
         noconfig no descriptor found for active configuration 9\n\
         ok\n\
         speed Full\n\
         noconfig no descriptor found for active configuration 9\n\
         ok\n\
         speed High\n\
         noconfig no descriptor found for active configuration 9\n\
         ok\n\
         speed Super\n\
         noconfig no descriptor found for active configuration 9\n\
         ok\n\
         speed SuperPlus\n\
         noconfig no descriptor found for active configuration 9\n\
         ok\n\
         speed none\n\
         noconfig no descriptor found for active configuration 9\n",
    ),
    (
        "an armed refusal is used once, by its call",
        "device k0 1 6 3 1 1201000200000040aaaabbbb0001000000020902290001010080320904000001ff000000070581024000000904000101ff000000070581024000000902120001020080320904010000ff000000\n\
         open d0 1 6\n\
         ! refuse k0 open 101 ; refuse k0 readdesc 102 ; refuse k0 getconfig 103 ; refuse k0 getconfig 104 ; refuse k0 setconfig 105 ; refuse k0 claim 106 ; refuse k0 detachclaim 107 ; refuse k0 attach 108 ; refuse k0 attach 109 ; refuse k0 detach 110 ; refuse k0 alt 111 ; refuse k0 halt 112 ; refuse k0 speed 113\n\
         open d1 1 6\n\
         open d1 1 6\n\
         open d1 1 6\n\
         active d0\n\
         open d1 1 6\n\
         setconfig d1 2\n\
         setconfig d1 2\n\
         close d1\n\
         active d0\n\
         setconfig d0 1\n\
         claim d0 0 i0\n\
         detachclaim d0 0 i0\n\
         detachclaim d0 0 i0\n\
         close i0\n\
         attach d0 0\n\
         detach d0 0\n\
         claim d0 0 i0\n\
         alt i0 1\n\
         alt i0 1\n\
         getalt i0\n\
         endpoint e0 i0 81 bulk-in\n\
         halt e0\n\
         halt e0\n\
         speed d0\n\
         speed d0\n",
        "ok\n\
         error Other failed to open device (errno 101)\n\
         error Other failed to read descriptors (errno 102)\n\
         error Other failed to read sysfs bConfigurationValue\n\
         config 1\n\
         ok\n\
         error Other failed to set configuration (errno 105)\n\
         ok\n\
         ok\n\
         config 2\n\
         ok\n\
         error Other failed to claim interface (errno 106)\n\
         error Other failed to claim interface (errno 107)\n\
         ok\n\
         ok\n\
         error Other failed to attach kernel driver (errno 109)\n\
         error Other failed to detach kernel driver (errno 110)\n\
         ok\n\
         error Other failed to set alternate setting (errno 111)\n\
         ok\n\
         alt 1\n\
         ok\n\
         error Other failed to clear halt (errno 112)\n\
         ok\n\
         speed none\n\
         speed High\n",
    ),
    (
        "a device that is reset is gone",
        "device k0 1 6 3 1 1201000200000040aaaabbbb0001000000020902290001010080320904000001ff000000070581024000000904000101ff000000070581024000000902120001020080320904010000ff000000\n\
         open d0 1 6\n\
         ! refuse k0 reset 71\n\
         reset d0\n\
         reset d0\n\
         reset d0\n\
         active d0\n\
         close d0\n\
         open d0 1 6\n",
        "ok\n\
         error Other failed to reset device (errno 71)\n\
         ok\n\
         error Disconnected device disconnected (errno 19)\n\
         config 1\n\
         ok\n\
         error Disconnected device not found (errno 2)\n",
    ),
    (
        "an endpoint is an owner of its interface",
        "device k0 1 6 3 1 1201000200000040aaaabbbb0001000000010902200001010080320904000002ff0000000705810240000007050202400000\n\
         open d0 1 6\n\
         claim d0 0 i0\n\
         endpoint e0 i0 81 bulk-in\n\
         close i0\n\
         claim d0 0 i1\n\
         close e0\n\
         claim d0 0 i1\n",
        "ok\n\
         ok\n\
         ok\n\
         ok\n\
         error Busy interface is busy (errno 16)\n\
         ok\n\
         ok\n",
    ),
    (
        "the direction of an endpoint is looked at before its type, and its type before its use",
        "device k0 1 6 3 1 1201000200000040aaaabbbb0001000000010902200001010080320904000002ff0000000705810340000007050202400000\n\
         open d0 1 6\n\
         claim d0 0 i0\n\
         endpoint e0 i0 81 int-out\n\
         endpoint e0 i0 81 bulk-in\n\
         endpoint e0 i0 02 int-in\n\
         endpoint e0 i0 02 int-out\n\
         endpoint e0 i0 81 int-in\n\
         endpoint e1 i0 81 bulk-in\n\
         endpoint e1 i0 81 int-in\n\
         submitin e0 64\n\
         ! pkt k0 81 0102 ; reap\n\
         poll e0\n",
        "ok\n\
         ok\n\
         error Other incorrect endpoint direction\n\
         error Other incorrect endpoint type\n\
         error Other incorrect endpoint direction\n\
         error Other incorrect endpoint type\n\
         ok\n\
         error Other incorrect endpoint type\n\
         error Busy endpoint already in use\n\
         ok\n\
         done ok 2 64 0102\n\
         ticket 0 k0 81 ok 2 taken\n",
    ),
    (
        "armed refusals of an open",
        "device k0 1 6 3 1 1201000200000040aaaabbbb0001000000010902200001010080320904000002ff0000000705810240000007050202400000\n\
         ! refuse k0 open 1 ; refuse k0 open 19 ; refuse k0 open 2\n\
         open d0 1 6\n\
         open d0 1 6\n\
         open d0 1 6\n\
         open d0 1 6\n",
        "error PermissionDenied permission denied (errno 1)\n\
         error Other failed to open device (errno 19)\n\
         error Disconnected device not found (errno 2)\n\
         ok\n",
    ),
];

#[test]
fn drivers_owners_configurations_refusals_and_resets(rt: HostRuntime) -> Result<(), Fail> {
    expect_rows(&rt, rt.alloc(), &[], ("", ""), HOSTS.as_slice())
}
