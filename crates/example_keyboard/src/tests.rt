//! The driver on a simulated keyboard.

use crate::{End, Report, read_reports};
use std::alloc::Global;
use std::test;
use usb_device::{Error, Fail, NoMemory, Speed, TransferError};
use usb_device_bench::SimBench;

/// The descriptors of a boot keyboard: a device of one configuration of value 1, whose interface 0
/// is of the class, the subclass and the protocol 3, 1, 1 (HID 1.11, sections 4.1 to 4.3), with a HID
/// descriptor (section 6.2.1) and the interrupt IN endpoint 0x81 of packets of 8 bytes.
const KEYBOARD: [u8; 52] = [
    18, 1, 0x10, 0x01, 0, 0, 0, 8, 0xaa, 0xaa, 0xbb, 0xbb, 0, 1, 0, 0, 0, 1, 9, 2, 34, 0, 1, 1, 0,
    0xa0, 50, 9, 4, 0, 0, 1, 3, 1, 1, 0, 9, 0x21, 0x11, 0x01, 0, 1, 0x22, 63, 0, 7, 5, 0x81, 3, 8,
    0, 10,
];

/// The usage of the key `a` (HID Usage Tables, section 10).
const KEY_A: u8 = 4;

/// The bit of the left shift key among the modifiers (HID 1.11, section 8.3).
const LEFT_SHIFT: u8 = 2;

/// Shift is down, and `a` with it.
const SHIFT_A: [u8; 8] = [LEFT_SHIFT, 0, KEY_A, 0, 0, 0, 0, 0];

/// All keys are up.
const UP: [u8; 8] = [0; 8];

/// The reports of these.
const SHIFT_A_REPORT: Report = Report {
    modifiers: LEFT_SHIFT,
    keys: [KEY_A, 0, 0, 0, 0, 0],
};

const UP_REPORT: Report = Report {
    modifiers: 0,
    keys: [0; 6],
};

/// What the keyboard does.
#[derive(Debug)]
enum Case {
    /// It sends two reports, and is unplugged.
    TwoReports,
    /// It sends a report, and then its endpoint stalls.
    Stall,
    /// It sends a packet of 3 bytes, and then a report.
    ShortPacket,
    /// It sends nothing.
    Silence,
    /// It sends a report, and the next one comes after ten seconds.
    LateReport,
}

/// A case, how reading ends, and the reports that are read.
struct Row {
    case: Case,
    end: End,
    reports: &'static [Report],
}

const ROWS: [Row; 5] = [
    Row {
        case: Case::TwoReports,
        end: End::Unplugged,
        reports: &[SHIFT_A_REPORT, UP_REPORT],
    },
    Row {
        case: Case::Stall,
        end: End::Failed(TransferError::Stall),
        reports: &[SHIFT_A_REPORT],
    },
    Row {
        case: Case::ShortPacket,
        end: End::Unplugged,
        reports: &[UP_REPORT],
    },
    Row {
        case: Case::Silence,
        end: End::Silent,
        reports: &[],
    },
    Row {
        case: Case::LateReport,
        end: End::Silent,
        reports: &[SHIFT_A_REPORT],
    },
];

/// A keyboard of low speed to which the kernel's own driver is bound, and what it does.
fn bench_of(alloc: Global, case: &Case) -> Result<SimBench, NoMemory> {
    let bench = SimBench::new(alloc, &KEYBOARD)?
        .speed(Speed::Low)
        .driver(0)?;
    match case {
        Case::TwoReports => bench.packet(0x81, &SHIFT_A)?.packet(0x81, &UP)?.unplug(),
        Case::Stall => bench.packet(0x81, &SHIFT_A)?.stall(0x81),
        Case::ShortPacket => bench
            .packet(0x81, &[LEFT_SHIFT, 0, KEY_A])?
            .packet(0x81, &UP)?
            .unplug(),
        Case::Silence => Ok(bench),
        Case::LateReport => bench
            .packet(0x81, &SHIFT_A)?
            .clock(10_000_000_000)?
            .packet(0x81, &UP),
    }
}

/// Reads the reports of the keyboard at address 6 of bus 1, where the device of a bench is.
fn read(bench: SimBench, reports: &mut Vec<Report>) -> Result<End, Fail<Error>> {
    let mut host = bench.host()?;
    read_reports(&mut host, 1, 6, reports)
}

#[test]
fn reports_are_read_until_the_end(rt: HostRuntime) -> Result<(), test::Fail> {
    for row in &ROWS {
        let mut reports = Vec::new(rt.alloc());
        let end = read(bench_of(rt.alloc(), &row.case)?, &mut reports)?;
        assert_eq!(rt; end, row.end, "at {:?}", row.case);
        assert_eq!(rt; reports.as_slice(), row.reports, "at {:?}", row.case);
    }
    Ok(())
}

#[test]
fn no_keyboard_is_an_error(rt: HostRuntime) -> Result<(), test::Fail> {
    let mut reports = Vec::new(rt.alloc());
    let bench = SimBench::new(rt.alloc(), &KEYBOARD)?.at(1, 7);
    let end = read(bench, &mut reports);
    assert!(rt; matches!(end, Err(Fail::Cause(_))));
    assert!(rt; reports.is_empty());
    Ok(())
}
