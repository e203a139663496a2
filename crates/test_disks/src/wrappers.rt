//! Wrappers as bytes: Bulk-Only Transport, sections 5.1 and 5.2.

use std::test::Fail;
use usb_bot::{Command, Operation, Status};

/// A read of 2 blocks from block 5 on, with tag 0.
const READ: [u8; 31] = [
    0x55, 0x53, 0x42, 0x43, 0x00, 0x00, 0x00, 0x00, 0x00, 0x04, 0x00, 0x00, 0x80, 0x00, 0x0a, 0x28,
    0x00, 0x00, 0x00, 0x00, 0x05, 0x00, 0x00, 0x02, 0x00, 0x00, 0x00, 0x00, 0x00, 0x00, 0x00,
];

/// A write of 64 blocks from block 0x01020304 on, with tag 0x0a0b0c0d.
const WRITE: [u8; 31] = [
    0x55, 0x53, 0x42, 0x43, 0x0d, 0x0c, 0x0b, 0x0a, 0x00, 0x80, 0x00, 0x00, 0x00, 0x00, 0x0a, 0x2a,
    0x00, 0x01, 0x02, 0x03, 0x04, 0x00, 0x00, 0x40, 0x00, 0x00, 0x00, 0x00, 0x00, 0x00, 0x00,
];

/// A status with tag 0 that passed, and one with tag 0x0a0b0c0d that failed, with 0x01020304 bytes
/// of data not moved.
const PASSED: [u8; 13] = [0x55, 0x53, 0x42, 0x53, 0, 0, 0, 0, 0, 0, 0, 0, 0];

const FAILED: [u8; 13] = [
    0x55, 0x53, 0x42, 0x53, 0x0d, 0x0c, 0x0b, 0x0a, 0x04, 0x03, 0x02, 0x01, 0x01,
];

/// Commands, and their wrappers.
const COMMANDS: [(Command, [u8; 31]); 2] = [
    (
        Command {
            tag: 0,
            operation: Operation::Read,
            block: 5,
            count: 2,
        },
        READ,
    ),
    (
        Command {
            tag: 0x0a0b0c0d,
            operation: Operation::Write,
            block: 0x01020304,
            count: 64,
        },
        WRITE,
    ),
];

/// Statuses, and their wrappers.
const STATUSES: [(Status, [u8; 13]); 2] = [
    (
        Status {
            tag: 0,
            residue: 0,
            outcome: 0,
        },
        PASSED,
    ),
    (
        Status {
            tag: 0x0a0b0c0d,
            residue: 0x01020304,
            outcome: 1,
        },
        FAILED,
    ),
];

/// Bytes of the read's wrapper that are given, each at its place, and what is wrong with another
/// one there.
const GIVEN: [(usize, &str); 9] = [
    (0, "signature"),
    (3, "signature"),
    (9, "length of the data"),
    (12, "direction"),
    (13, "logical unit"),
    (14, "length of the command"),
    (15, "operation"),
    (16, "flags of the command"),
    (30, "padding"),
];

#[test]
fn wrappers_are_laid_out_as_the_standard_says(rt: HostRuntime) -> Result<(), Fail> {
    for (command, bytes) in COMMANDS {
        assert!(&rt; command.to_bytes() == bytes);
        assert!(&rt; Command::from_bytes(&bytes) == Some(command));
    }
    for (status, bytes) in STATUSES {
        assert!(&rt; status.to_bytes() == bytes);
        assert!(&rt; Status::from_bytes(&bytes) == Some(status));
    }
    Ok(())
}

#[test]
fn bytes_of_another_form_are_no_command(rt: HostRuntime) -> Result<(), Fail> {
    for (place, name) in GIVEN {
        let mut bytes = READ;
        bytes[place] ^= 1;
        assert!(&rt; Command::from_bytes(&bytes).is_none(), "{name}");
    }
    assert!(&rt; Command::from_bytes(&READ[..30]).is_none());
    assert!(&rt; Command::from_bytes(&[0; 32]).is_none());
    Ok(())
}

#[test]
fn bytes_of_another_form_are_no_status(rt: HostRuntime) -> Result<(), Fail> {
    for place in 0..4 {
        let mut bytes = PASSED;
        bytes[place] ^= 1;
        assert!(&rt; Status::from_bytes(&bytes).is_none());
    }
    assert!(&rt; Status::from_bytes(&PASSED[..12]).is_none());
    assert!(&rt; Status::from_bytes(&[0; 14]).is_none());
    Ok(())
}
