//! The driver on a simulated keyboard.

use crate::Keyboard;
use std::alloc::Global;
use std::test;
use usb_device::{Error, Fail, Host, NoMemory, Speed, TransferError};
use usb_device_bench::{SimBench, sent};

/// The descriptors of a boot keyboard.
const KEYBOARD: [u8; 52] = [
    18, 1, 0x10, 0x01, 0, 0, 0, 8, 0xaa, 0xaa, 0xbb, 0xbb, 0, 1, 0, 0, 0, 1, 9, 2, 34, 0, 1, 1, 0,
    0xa0, 50, 9, 4, 0, 0, 1, 3, 1, 1, 0, 9, 0x21, 0x11, 0x01, 0, 1, 0x22, 63, 0, 7, 5, 0x81, 3, 8,
    0, 10,
];

/// A keyboard that takes a report, and refuses the next.
fn new_host(alloc: Global) -> Result<Host, NoMemory> {
    SimBench::new(alloc, &KEYBOARD)?
        .speed(Speed::Low)
        .driver(0)?
        .accept(0x00)?
        .stall(0x00)?
        .host()
}

/// Whether the first report is taken, and the second refused.
fn sends_two(host: &mut Host) -> Result<bool, Fail<Error>> {
    let keyboard = Keyboard::open(host, 1, 6)?;
    let is_taken = keyboard.set_leds(host, 5).is_ok();
    let is_sent = matches!(sent(host, 0x00), Some([5]));
    let refused = keyboard.set_leds(host, 0);
    keyboard.close(host);
    let is_stall = matches!(refused, Err(Fail::Cause(TransferError::Stall)));
    Ok(is_taken && is_sent && is_stall)
}

#[test]
fn a_report_is_taken_or_refused(rt: HostRuntime) -> Result<(), test::Fail> {
    let mut host = new_host(rt.alloc())?;
    let is_so = matches!(sends_two(&mut host), Ok(true));
    assert!(rt; is_so);
    Ok(())
}
