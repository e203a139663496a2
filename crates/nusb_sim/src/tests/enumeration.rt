//! Lines on the tree of attributes and on packets of udev.

use super::expect_rows;
use std::test::Fail;

/// A bus with its root hub, and one device with one interface: lines that have no answer.
const TREE: (&str, &str) = (
    "entry 1-6 /sys/devices/pci0/usb1/1-6\n\
     entry 1-6.4.2 /sys/none\n\
     entry usb1 /sys/devices/pci0/usb1\n\
     entry 1-6:1.0 /sys/devices/pci0/usb1/1-6/1-6:1.0\n\
     attr /sys/devices/pci0/usb1/1-6 busnum =1\n\
     attr /sys/devices/pci0/usb1/1-6 devnum =6\n\
     attr /sys/devices/pci0/usb1/1-6 devpath =6\n\
     attr /sys/devices/pci0/usb1/1-6 idVendor =aaaa\n\
     attr /sys/devices/pci0/usb1/1-6 idProduct =bbbb\n\
     attr /sys/devices/pci0/usb1/1-6 bcdDevice =0100\n\
     attr /sys/devices/pci0/usb1/1-6 version 20322e30300a\n\
     attr /sys/devices/pci0/usb1/1-6 bDeviceClass =00\n\
     attr /sys/devices/pci0/usb1/1-6 bDeviceSubClass =00\n\
     attr /sys/devices/pci0/usb1/1-6 bDeviceProtocol =00\n\
     attr /sys/devices/pci0/usb1/1-6 speed =480\n\
     attr /sys/devices/pci0/usb1/1-6 product =Box\n\
     child /sys/devices/pci0/usb1/1-6 1-6:1.0\n\
     attr /sys/devices/pci0/usb1/1-6/1-6:1.0 bInterfaceNumber =00\n\
     attr /sys/devices/pci0/usb1/1-6/1-6:1.0 bInterfaceClass =ff\n\
     attr /sys/devices/pci0/usb1/1-6/1-6:1.0 bInterfaceSubClass =00\n\
     attr /sys/devices/pci0/usb1/1-6/1-6:1.0 bInterfaceProtocol =00\n\
     attr /sys/devices/pci0/usb1 busnum =1\n\
     attr /sys/devices/pci0/usb1 devnum =1\n\
     attr /sys/devices/pci0/usb1 devpath =0\n\
     attr /sys/devices/pci0/usb1 idVendor =1d6b\n\
     attr /sys/devices/pci0/usb1 idProduct =0002\n\
     attr /sys/devices/pci0/usb1 bcdDevice =0100\n\
     attr /sys/devices/pci0/usb1 version 20322e30300a\n\
     attr /sys/devices/pci0/usb1 bDeviceClass =00\n\
     attr /sys/devices/pci0/usb1 bDeviceSubClass =00\n\
     attr /sys/devices/pci0/usb1 bDeviceProtocol =00\n\
     attr /sys/devices/pci0/usb1 speed =480\n\
     attr /sys/devices/pci0/usb1 product =xHCI\n\
     link /sys/devices/pci0 driver ../bus/pci/drivers/xhci_hcd\n",
    "",
);

/// What follows the tree, and what is written for it.
const CALLS: [(&str, &str, &str); 11] = [
    (
        "listings, probing, selectors and buses",
        "list\n\
         probe /sys/devices/pci0/usb1/1-6\n\
         probe /nowhere\n\
         match /sys/devices/pci0/usb1/1-6 vidpid aaaa bbbb\n\
         match /sys/devices/pci0/usb1/1-6 class ff\n\
         match /sys/devices/pci0/usb1/1-6 class 03\n\
         buses\n",
        "list 1 1:6\n\
         info 1 6 6 aaaa bbbb 0100 0200 00 00 00 High none 426f78 none 0:ff:00:00:none\n\
         sysfs /nowhere/busnum io 2\n\
         match true\n\
         match true\n\
         match false\n\
         buses 1 1:XHCI:xhci_hcd:78484349\n",
    ),
    (
        "an attribute that cannot be read",
        "deny /sys/devices/pci0/usb1/1-6 idProduct 13\n\
         probe /sys/devices/pci0/usb1/1-6\n\
         list\n",
        "sysfs /sys/devices/pci0/usb1/1-6/idProduct io 13\n\
         list 0\n",
    ),
    (
        "a listing that is denied",
        "root 13\n\
         buses\n",
        "error PermissionDenied /sys/bus/usb/devices/ permission denied (errno 13)\n",
    ),
    (
        "a listing that is not there",
        "root 2\n\
         list\n",
        "error Other /sys/bus/usb/devices/ not found (errno 2)\n",
    ),
    (
        "an attribute that is no text",
        "attr /sys/devices/pci0/usb1/1-6 devnum ff\n\
         probe /sys/devices/pci0/usb1/1-6\n",
        "sysfs /sys/devices/pci0/usb1/1-6/devnum io 84\n",
    ),
    (
        "a bus number past a byte",
        "attr /sys/devices/pci0/usb1/1-6 busnum =256\n\
         probe /sys/devices/pci0/usb1/1-6\n",
        "sysfs /sys/devices/pci0/usb1/1-6/busnum parse 323536\n",
    ),
    (
        "a version of two digits",
        "attr /sys/devices/pci0/usb1/1-6 version =3.10\n\
         probe /sys/devices/pci0/usb1/1-6\n",
        "info 1 6 6 aaaa bbbb 0100 0310 00 00 00 High none 426f78 none 0:ff:00:00:none\n",
    ),
    (
        "a version with an empty part",
        "attr /sys/devices/pci0/usb1/1-6 version =2..0\n\
         probe /sys/devices/pci0/usb1/1-6\n",
        "sysfs /sys/devices/pci0/usb1/1-6/version parse 322e2e30\n",
    ),
    (
        "a device whose folder has its nine numbers alone",
        "attr /d busnum =2\n\
         attr /d devnum =9\n\
         attr /d idVendor =1234\n\
         attr /d idProduct =00ff\n\
         attr /d bcdDevice =0213\n\
         attr /d version =1.10\n\
         attr /d bDeviceClass =e0\n\
         attr /d bDeviceSubClass =01\n\
         attr /d bDeviceProtocol =02\n\
         probe /d\n",
        "info 2 9 - 1234 00ff 0213 0110 e0 01 02 none none none none\n",
    ),
    (
        "a device that is opened by its folder",
        "device k0 1 6 3 1 1201000200000040aaaabbbb0001000000010902200001010080320904000002ff0000000705810240000007050202400000\n\
         openpath d0 /sys/devices/pci0/usb1/1-6\n\
         openpath d0 /sys/devices/pci0/usb1/1-6\n\
         openpath d1 /nowhere\n\
         openpath d1 /sys/devices/pci0/usb1\n\
         speed d0\n",
        "ok\n\
         condition\n\
         sysfs /nowhere/busnum io 2\n\
         error Disconnected device not found (errno 2)\n\
         speed High\n",
    ),
    (
        "what no selector asks, and serial numbers",
        "attr /sys/devices/pci0/usb1/1-6 serial =12\n\
         match /sys/devices/pci0/usb1/1-6\n\
         match /sys/devices/pci0/usb1/1-6 serial =12\n\
         match /sys/devices/pci0/usb1/1-6 serial 3132\n\
         match /sys/devices/pci0/usb1/1-6 serial =1\n\
         match /sys/devices/pci0/usb1/1-6 vid AAAA class 00 classsub 00 00\n\
         match /sys/devices/pci0/usb1/1-6 classsubproto ff 00 01\n\
         match /nowhere vid aaaa\n",
        "match true\n\
         match true\n\
         match true\n\
         match false\n\
         match true\n\
         match false\n\
         sysfs /nowhere/busnum io 2\n",
    ),
];

#[test]
fn answers_calls_on_the_tree(rt: HostRuntime) -> Result<(), Fail> {
    expect_rows(&rt, rt.alloc(), &[], TREE, CALLS.as_slice())
}

/// Packets of udev, and what is written for them.
const PACKETS: [(&str, &str, &str); 3] = [
    (
        "a device that went, another group, and lengths",
        "uevent 2 6c69627564657600feedcafe18000000180000002f000000414354494f4e3d72656d6f7665004255534e554d3d303031004445564e554d3d30303600444556504154483d2f6400\n\
         uevent 1 6c69627564657600feedcafe18000000180000002f000000414354494f4e3d72656d6f7665004255534e554d3d303031004445564e554d3d30303600444556504154483d2f6400\n\
         uevent 2 6c69627564657600feedcafe18000000180000002f0000\n\
         uevent 2 6c69627564657600feedcafe180000001800000030000000414354494f4e3d72656d6f7665004255534e554d3d303031004445564e554d3d30303600444556504154483d2f6400\n\
         hotplug\n\
         hotplug\n\
         hotplug\n\
         hotplug\n\
         hotplug\n",
        "disconnected 1 6\n\
         pending\n\
         pending\n\
         pending\n\
         pending\n",
    ),
    (
        "packets of no device that comes or goes",
        "uevent 2 6c69627564657600feedcafeffffffffffffffff414354494f4e3d72656d6f7665004255534e554d3d303031004445564e554d3d30303600444556504154483d2f6400\n\
         uevent 2 6c69627564657600feedcafe180000001800000024000000414354494f4e3d72656d6f7665004445564e554d3d30303600444556504154483d2f6400\n\
         uevent 2 6c69627564657600feedcafe18000000180000002f000000414354494f4e3d6368616e6765004255534e554d3d303031004445564e554d3d30303600444556504154483d2f6400\n\
         hotplug\n\
         hotplug\n\
         hotplug\n",
        "pending\n\
         pending\n\
         pending\n",
    ),
    (
        "a device that came, and one whose folder tells of none",
        "entry 1-6 /sys/devices/pci0/usb1/1-6\n\
         entry 1-6.4.2 /sys/none\n\
         entry usb1 /sys/devices/pci0/usb1\n\
         entry 1-6:1.0 /sys/devices/pci0/usb1/1-6/1-6:1.0\n\
         attr /sys/devices/pci0/usb1/1-6 busnum =1\n\
         attr /sys/devices/pci0/usb1/1-6 devnum =6\n\
         attr /sys/devices/pci0/usb1/1-6 devpath =6\n\
         attr /sys/devices/pci0/usb1/1-6 idVendor =aaaa\n\
         attr /sys/devices/pci0/usb1/1-6 idProduct =bbbb\n\
         attr /sys/devices/pci0/usb1/1-6 bcdDevice =0100\n\
         attr /sys/devices/pci0/usb1/1-6 version 20322e30300a\n\
         attr /sys/devices/pci0/usb1/1-6 bDeviceClass =00\n\
         attr /sys/devices/pci0/usb1/1-6 bDeviceSubClass =00\n\
         attr /sys/devices/pci0/usb1/1-6 bDeviceProtocol =00\n\
         attr /sys/devices/pci0/usb1/1-6 speed =480\n\
         attr /sys/devices/pci0/usb1/1-6 product =Box\n\
         child /sys/devices/pci0/usb1/1-6 1-6:1.0\n\
         attr /sys/devices/pci0/usb1/1-6/1-6:1.0 bInterfaceNumber =00\n\
         attr /sys/devices/pci0/usb1/1-6/1-6:1.0 bInterfaceClass =ff\n\
         attr /sys/devices/pci0/usb1/1-6/1-6:1.0 bInterfaceSubClass =00\n\
         attr /sys/devices/pci0/usb1/1-6/1-6:1.0 bInterfaceProtocol =00\n\
         attr /sys/devices/pci0/usb1 busnum =1\n\
         attr /sys/devices/pci0/usb1 devnum =1\n\
         attr /sys/devices/pci0/usb1 devpath =0\n\
         attr /sys/devices/pci0/usb1 idVendor =1d6b\n\
         attr /sys/devices/pci0/usb1 idProduct =0002\n\
         attr /sys/devices/pci0/usb1 bcdDevice =0100\n\
         attr /sys/devices/pci0/usb1 version 20322e30300a\n\
         attr /sys/devices/pci0/usb1 bDeviceClass =00\n\
         attr /sys/devices/pci0/usb1 bDeviceSubClass =00\n\
         attr /sys/devices/pci0/usb1 bDeviceProtocol =00\n\
         attr /sys/devices/pci0/usb1 speed =480\n\
         attr /sys/devices/pci0/usb1 product =xHCI\n\
         link /sys/devices/pci0 driver ../bus/pci/drivers/xhci_hcd\n\
         uevent 2 6c69627564657600feedcafe18000000180000003c000000414354494f4e3d616464004255534e554d3d31004445564e554d3d3600444556504154483d2f2f646576696365732f706369302f757362312f312d36\n\
         uevent 2 6c69627564657600feedcafe18000000180000002d000000414354494f4e3d616464004255534e554d3d31004445564e554d3d3600444556504154483d2f6e6f7768657265\n\
         hotplug\n\
         hotplug\n",
        "connected 1 6 6 aaaa bbbb 0100 0200 00 00 00 High none 426f78 none 0:ff:00:00:none\n\
         pending\n",
    ),
];

#[test]
fn answers_polls_for_devices_that_come_and_go(rt: HostRuntime) -> Result<(), Fail> {
    expect_rows(&rt, rt.alloc(), &[], ("", ""), PACKETS.as_slice())
}

/// Values of attributes behind the tree, and what a probing of them writes.
const VALUES: [(&str, &str, &str); 11] = [
    (
        "a version whose parts have a plus",
        "attr /sys/devices/pci0/usb1/1-6 version 2b312e2b32\n\
         probe /sys/devices/pci0/usb1/1-6\n",
        "info 1 6 6 aaaa bbbb 0100 0102 00 00 00 High none 426f78 none 0:ff:00:00:none\n",
    ),
    (
        "a version of three parts",
        "attr /sys/devices/pci0/usb1/1-6 version 313233342e352e36\n\
         probe /sys/devices/pci0/usb1/1-6\n",
        "info 1 6 6 aaaa bbbb 0100 0506 00 00 00 High none 426f78 none 0:ff:00:00:none\n",
    ),
    (
        "a version with a prefix",
        "attr /sys/devices/pci0/usb1/1-6 version 3078322e30\n\
         probe /sys/devices/pci0/usb1/1-6\n",
        "sysfs /sys/devices/pci0/usb1/1-6/version parse 3078322e30\n",
    ),
    (
        "a speed with no name",
        "attr /sys/devices/pci0/usb1/1-6 speed 34383030\n\
         probe /sys/devices/pci0/usb1/1-6\n",
        "info 1 6 6 aaaa bbbb 0100 0200 00 00 00 none none 426f78 none 0:ff:00:00:none\n",
    ),
    (
        "a speed in words",
        "attr /sys/devices/pci0/usb1/1-6 speed 73757065722b0a\n\
         probe /sys/devices/pci0/usb1/1-6\n",
        "info 1 6 6 aaaa bbbb 0100 0200 00 00 00 SuperPlus none 426f78 none 0:ff:00:00:none\n",
    ),
    (
        "a text between spaces",
        "attr /sys/devices/pci0/usb1/1-6 product 20e280836120620a\n\
         probe /sys/devices/pci0/usb1/1-6\n",
        "info 1 6 6 aaaa bbbb 0100 0200 00 00 00 High none 612062 none 0:ff:00:00:none\n",
    ),
    (
        "an empty text",
        "attr /sys/devices/pci0/usb1/1-6 product 0a\n\
         probe /sys/devices/pci0/usb1/1-6\n",
        "info 1 6 6 aaaa bbbb 0100 0200 00 00 00 High none - none 0:ff:00:00:none\n",
    ),
    (
        "a chain of ports",
        "attr /sys/devices/pci0/usb1/1-6 devpath 312e342e320a\n\
         probe /sys/devices/pci0/usb1/1-6\n",
        "info 1 6 1.4.2 aaaa bbbb 0100 0200 00 00 00 High none 426f78 none 0:ff:00:00:none\n",
    ),
    (
        "a chain with an empty part",
        "attr /sys/devices/pci0/usb1/1-6 devpath 312e2e32\n\
         probe /sys/devices/pci0/usb1/1-6\n",
        "info 1 6 - aaaa bbbb 0100 0200 00 00 00 High none 426f78 none 0:ff:00:00:none\n",
    ),
    (
        "a port of two zeros",
        "attr /sys/devices/pci0/usb1/1-6 devpath 3030\n\
         probe /sys/devices/pci0/usb1/1-6\n",
        "info 1 6 0 aaaa bbbb 0100 0200 00 00 00 High none 426f78 none 0:ff:00:00:none\n",
    ),
    (
        "zeros in front",
        "attr /sys/devices/pci0/usb1/1-6 busnum 30303030303030303030303031300a\n\
         attr /sys/devices/pci0/usb1/1-6 idVendor 30303030303030303030303031300a\n\
         probe /sys/devices/pci0/usb1/1-6\n",
        "info 10 6 6 0010 bbbb 0100 0200 00 00 00 High none 426f78 none 0:ff:00:00:none\n",
    ),
];

#[test]
fn attributes_are_read_in_each_form(rt: HostRuntime) -> Result<(), Fail> {
    expect_rows(&rt, rt.alloc(), &[], TREE, VALUES.as_slice())
}

/// Folders, listings, selectors and packets behind the tree, and what is written for them.
const READINGS: [(&str, &str, &str); 10] = [
    ("the root folder", "probe /\n", "sysfs /busnum io 2\n"),
    (
        "a number behind a space",
        "attr / busnum 20323536\n\
         probe /\n",
        "sysfs /busnum parse 20323536\n",
    ),
    (
        "bytes that are no text",
        "attr / busnum ff\n\
         probe /\n",
        "sysfs /busnum io 84\n",
    ),
    (
        "an attribute that is denied after it was set",
        "attr / busnum 31\n\
         deny / busnum 13\n\
         probe /\n",
        "sysfs /busnum io 13\n",
    ),
    (
        "entries that are set again keep their places",
        "entry 1-7 /sys/devices/pci0/usb1\n\
         entry 1-6 /sys/devices/pci0/usb1\n\
         entry 1-7 /sys/devices/pci0/usb1/1-6\n\
         child /sys/devices/pci0/usb1/1-6 1-6:1.0\n\
         list\n\
         probe /sys/devices/pci0/usb1/1-6\n",
        "list 2 1:1 1:6\n\
         info 1 6 6 aaaa bbbb 0100 0200 00 00 00 High none 426f78 none 0:ff:00:00:none\n",
    ),
    (
        "a listing that fails otherwise",
        "root 2\n\
         root 5\n\
         buses\n",
        "error Other failed to open /sys/bus/usb/devices/ (errno 5)\n",
    ),
    (
        "interfaces by number and then by folder",
        "child /sys/devices/pci0/usb1/1-6 z:0\n\
         attr /sys/devices/pci0/usb1/1-6/z:0 bInterfaceNumber 3032\n\
         attr /sys/devices/pci0/usb1/1-6/z:0 bInterfaceClass 3031\n\
         attr /sys/devices/pci0/usb1/1-6/z:0 bInterfaceSubClass 3030\n\
         attr /sys/devices/pci0/usb1/1-6/z:0 bInterfaceProtocol 3030\n\
         attr /sys/devices/pci0/usb1/1-6/z:0 interface 7a3a30\n\
         child /sys/devices/pci0/usb1/1-6 b:0\n\
         attr /sys/devices/pci0/usb1/1-6/b:0 bInterfaceNumber 3031\n\
         attr /sys/devices/pci0/usb1/1-6/b:0 bInterfaceClass 3032\n\
         attr /sys/devices/pci0/usb1/1-6/b:0 bInterfaceSubClass 3030\n\
         attr /sys/devices/pci0/usb1/1-6/b:0 bInterfaceProtocol 3030\n\
         attr /sys/devices/pci0/usb1/1-6/b:0 interface 623a30\n\
         child /sys/devices/pci0/usb1/1-6 a:0\n\
         attr /sys/devices/pci0/usb1/1-6/a:0 bInterfaceNumber 30783031\n\
         attr /sys/devices/pci0/usb1/1-6/a:0 bInterfaceClass 3033\n\
         attr /sys/devices/pci0/usb1/1-6/a:0 bInterfaceSubClass 3030\n\
         attr /sys/devices/pci0/usb1/1-6/a:0 bInterfaceProtocol 3030\n\
         attr /sys/devices/pci0/usb1/1-6/a:0 interface 613a30\n\
         child /sys/devices/pci0/usb1/1-6 power\n\
         child /sys/devices/pci0/usb1/1-6 c:0\n\
         probe /sys/devices/pci0/usb1/1-6\n",
        "info 1 6 6 aaaa bbbb 0100 0200 00 00 00 High none 426f78 none 0:ff:00:00:none 1:03:00:00:613a30 1:02:00:00:623a30 2:01:00:00:7a3a30\n",
    ),
    (
        "what selectors ask",
        "attr /sys/devices/pci0/usb1/1-6 serial 31320a\n\
         match /sys/devices/pci0/usb1/1-6\n\
         match /sys/devices/pci0/usb1/1-6 vid aaaa\n\
         match /sys/devices/pci0/usb1/1-6 vidpid aaaa bbbc\n\
         match /sys/devices/pci0/usb1/1-6 class 00\n\
         match /sys/devices/pci0/usb1/1-6 class ff\n\
         match /sys/devices/pci0/usb1/1-6 class 03\n\
         match /sys/devices/pci0/usb1/1-6 classsub ff 00\n\
         match /sys/devices/pci0/usb1/1-6 classsubproto ff 00 01\n\
         match /sys/devices/pci0/usb1/1-6 serial =12\n\
         match /sys/devices/pci0/usb1/1-6 serial 31320a\n",
        "match true\n\
         match true\n\
         match false\n\
         match true\n\
         match true\n\
         match false\n\
         match true\n\
         match false\n\
         match true\n\
         match false\n",
    ),
    (
        "properties of which the last counts",
        "uevent 2 6c69627564657600feedcafe18000000180000002f000000414354494f4e3d72656d6f7665004255534e554d3d303031004445564e554d3d30303600444556504154483d2f6400\n\
         uevent 2 6c69627564657600feedcafe180000001800000053000000414354494f4e3d72656d6f766500414354494f4e3d616464004255534e554d3d31004445564e554d3d37004445564e554d3d3600444556504154483d2f2f646576696365732f706369302f757362312f312d36\n\
         hotplug\n\
         hotplug\n\
         hotplug\n",
        "disconnected 1 6\n\
         connected 1 6 6 aaaa bbbb 0100 0200 00 00 00 High none 426f78 none 0:ff:00:00:none\n\
         pending\n",
    ),
    (
        "packets of other groups, lengths, subsystems, types and actions",
        "uevent 1 6c69627564657600feedcafe18000000180000002f000000414354494f4e3d72656d6f7665004255534e554d3d303031004445564e554d3d30303600444556504154483d2f6400\n\
         uevent 2 6c69627564657600feedcafe180000001800000030000000414354494f4e3d72656d6f7665004255534e554d3d303031004445564e554d3d30303600444556504154483d2f6400\n\
         uevent 2 6c69627564657600feedcafe18000000180000003800000053554253595354454d3d6e657400414354494f4e3d72656d6f7665004255534e554d3d31004445564e554d3d3600444556504154483d2f64\n\
         uevent 2 6c69627564657600feedcafe180000001800000040000000444556545950453d7573625f696e7465726661636500414354494f4e3d72656d6f7665004255534e554d3d31004445564e554d3d3600444556504154483d2f64\n\
         uevent 2 6c69627564657600feedcafe180000001800000038000000414354494f4e3d6368616e676500414354494f4e3d72656d6f7665004255534e554d3d31004445564e554d3d3600444556504154483d2f64\n\
         uevent 2 6c69627564657600feedcafe180000001800000033000000414354494f4e3d72656d6f7665004255534e554d3d31004255534e554d3d78004445564e554d3d3600444556504154483d2f64\n\
         uevent 2 6c69627564657600feedcafe18000000180000002b000000414354494f4e3d72656d6f7665004255534e554d3d31004445564e554d3d360044455650415448ff3d2f64\n\
         uevent 2 6c69627564657600feedcafe18000000180000002d000000414354494f4e3d616464004255534e554d3d31004445564e554d3d3600444556504154483d2f6e6f7768657265\n\
         hotplug\n\
         hotplug\n\
         hotplug\n\
         hotplug\n\
         hotplug\n\
         hotplug\n\
         hotplug\n\
         hotplug\n",
        "pending\n\
         pending\n\
         pending\n\
         pending\n\
         pending\n\
         pending\n\
         pending\n\
         pending\n",
    ),
];

#[test]
fn folders_listings_selectors_and_packets(rt: HostRuntime) -> Result<(), Fail> {
    expect_rows(&rt, rt.alloc(), &[], TREE, READINGS.as_slice())
}

/// Drivers of buses behind the tree, and what a listing of buses writes.
const DRIVEN: [(&str, &str, &str); 8] = [
    (
        "a bus driven by ehci-pci",
        "link /sys/devices/pci0 driver ../bus/pci/drivers/ehci-pci\n\
         buses\n",
        "buses 1 1:EHCI:ehci-pci:78484349\n",
    ),
    (
        "a bus driven by OHCI",
        "link /sys/devices/pci0 driver ../bus/pci/drivers/OHCI\n\
         buses\n",
        "buses 1 1:OHCI:OHCI:78484349\n",
    ),
    (
        "a bus driven by uhci_hcd",
        "link /sys/devices/pci0 driver ../bus/pci/drivers/uhci_hcd\n\
         buses\n",
        "buses 1 1:UHCI:uhci_hcd:78484349\n",
    ),
    (
        "a bus driven by vhci_hcd.0",
        "link /sys/devices/pci0 driver ../bus/pci/drivers/vhci_hcd.0\n\
         buses\n",
        "buses 1 1:VHCI:vhci_hcd.0:78484349\n",
    ),
    (
        "a bus driven by hci",
        "link /sys/devices/pci0 driver ../bus/pci/drivers/hci\n\
         buses\n",
        "buses 1 1:none:hci:78484349\n",
    ),
    (
        "a bus driven by hci_xhci",
        "link /sys/devices/pci0 driver ../bus/pci/drivers/hci_xhci\n\
         buses\n",
        "buses 1 1:none:hci_xhci:78484349\n",
    ),
    (
        "a bus driven by dwc2",
        "link /sys/devices/pci0 driver ../bus/pci/drivers/dwc2\n\
         buses\n",
        "buses 1 1:none:dwc2:78484349\n",
    ),
    (
        "a bus driven by ahci_xhci",
        "link /sys/devices/pci0 driver ../bus/pci/drivers/ahci_xhci\n\
         buses\n",
        "buses 1 1:none:ahci_xhci:78484349\n",
    ),
];

#[test]
fn buses_are_told_by_their_drivers(rt: HostRuntime) -> Result<(), Fail> {
    expect_rows(&rt, rt.alloc(), &[], TREE, DRIVEN.as_slice())
}
