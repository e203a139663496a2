//! The drivers on a simulated device. Expected values come from the packets of the scripts.

use crate::{Echo, read_packet};
use std::test;
use usb_device::{Error, Fail, TransferError};
use usb_device_bench::{SimBench, sent};

/// A device descriptor, and a configuration with interface 0 and the bulk endpoints 0x81 and 0x02,
/// of packets of 64 bytes.
const DEVICE: [u8; 50] = [
    0x12, 0x01, 0x00, 0x02, 0x00, 0x00, 0x00, 0x40, 0xaa, 0xaa, 0xbb, 0xbb, 0x00, 0x01, 0x00, 0x00,
    0x00, 0x01, 0x09, 0x02, 0x20, 0x00, 0x01, 0x01, 0x00, 0x80, 0x32, 0x09, 0x04, 0x00, 0x00, 0x02,
    0xff, 0x00, 0x00, 0x00, 0x07, 0x05, 0x81, 0x02, 0x40, 0x00, 0x00, 0x07, 0x05, 0x02, 0x02, 0x40,
    0x00, 0x00,
];

/// Whether the device of a bench sends back what it is sent, and nothing is left open.
fn is_answered(bench: SimBench) -> Result<bool, Fail<Error>> {
    let mut host = bench.host()?;
    let mut echo = Echo::open(&mut host, 1, 6)?;
    let answer = echo.exchange(&mut host, &[1, 2, 3]);
    echo.close(&mut host);
    let is_back = matches!(&answer, Ok(bytes) if bytes.as_slice() == [1, 2, 3].as_slice());
    let is_sent = matches!(sent(&host, 0x02), Some([1, 2, 3]));
    Ok(is_back && is_sent && host.endpoint_count() == 0)
}

/// Whether the exchange with the device of a bench fails so.
fn is_failed(bench: SimBench, error: TransferError) -> Result<bool, Fail<Error>> {
    let mut host = bench.host()?;
    let mut echo = Echo::open(&mut host, 1, 6)?;
    let answer = echo.exchange(&mut host, &[1, 2, 3]);
    echo.close(&mut host);
    Ok(matches!(answer, Err(Fail::Cause(found)) if found == error))
}

#[test]
fn a_packet_comes_back(rt: HostRuntime) -> Result<(), test::Fail> {
    let bench = SimBench::new(rt.alloc(), &DEVICE)?
        .accept(0x02)?
        .packet(0x81, &[1, 2, 3])?;
    assert!(rt; is_answered(bench)?);
    Ok(())
}

#[test]
fn what_does_not_come_is_cancelled(rt: HostRuntime) -> Result<(), test::Fail> {
    let bench = SimBench::new(rt.alloc(), &DEVICE)?
        .accept(0x02)?
        .until(1_000_000_000)?;
    assert!(rt; is_failed(bench, TransferError::Cancelled)?);
    Ok(())
}

/// Whether a packet that comes is read, with nothing left open.
fn is_read(bench: SimBench) -> Result<bool, Fail<Error>> {
    let mut host = bench.host()?;
    let read = read_packet(&mut host)?;
    let is_there = matches!(&read, Some(done) if done.buffer.as_slice() == [1, 2, 3].as_slice());
    Ok(is_there && host.endpoint_count() == 0)
}

/// Whether none is read where none comes.
fn is_not_read(bench: SimBench) -> Result<bool, Fail<Error>> {
    let mut host = bench.host()?;
    Ok(read_packet(&mut host)?.is_none())
}

#[test]
fn a_packet_is_read(rt: HostRuntime) -> Result<(), test::Fail> {
    let bench = SimBench::new(rt.alloc(), &DEVICE)?.packet(0x81, &[1, 2, 3])?;
    assert!(rt; is_read(bench)?);
    Ok(())
}

#[test]
fn no_packet_is_read_where_none_comes(rt: HostRuntime) -> Result<(), test::Fail> {
    assert!(rt; is_not_read(SimBench::new(rt.alloc(), &DEVICE)?)?);
    Ok(())
}
