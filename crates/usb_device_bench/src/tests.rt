//! Benches of a device with a bulk OUT endpoint. Expected values come from USB 2.0 and from the rules
//! of the simulation.

ghost use Rattle.std.specs.Prelude.{◌<◌, ◌^◌, length};
ghost use Rattle.usb_device_host.specs.HandleStates.{StandsDevice};

use crate::{SimBench, sent};
use std::alloc::Global;
use std::process::Abort;
use std::test;
use usb_device::{
    Buffer, Bulk, ControlIn, ControlOut, ControlType, Device, Error, ErrorKind, Fail, Host,
    KernelCall, KernelStep, Out, Recipient, Speed, TransferError,
};

/// The descriptors of a device of one configuration of value 1 with interface 0, which has the bulk
/// OUT endpoint 0x02 of packets of 64 bytes (USB 2.0, section 9.6).
const PRINTER: [u8; 43] = [
    18, 1, 0, 2, 0, 0, 0, 64, 0xaa, 0xaa, 0xbb, 0xbb, 0, 1, 0, 0, 0, 1, 9, 2, 25, 0, 1, 1, 0, 0x80,
    50, 9, 4, 0, 0, 1, 0xff, 0, 0, 0, 7, 5, 0x02, 2, 64, 0, 0,
];

/// How a transfer to the device at address 9 of bus 2 ended, if it did.
fn send(
    alloc: Global,
    host: &mut Host,
    bytes: &[u8],
) -> Result<Option<Result<(), TransferError>>, Fail<Error>>
    requires small { length bytes.now < 2 ^ 31 }
{
    let buffer = Buffer::from_slice(alloc, bytes)?;
    let mut endpoint = Device::open_at(host, 2, 9)?
        .into_interface(host, 0)?
        .into_endpoint::<Bulk, Out>(host, 0x02)?;
    let submitted = endpoint.submit(host, buffer);
    let done = match submitted {
        Ok(()) => endpoint.wait_next_complete(host, 1_000_000_000),
        Err(_) => None,
    };
    endpoint.close(host);
    match done {
        Some(done) => Ok(Some(done.status)),
        None => Ok(None),
    }
}

/// Whether the host of `a_device_takes_what_is_sent` does.
fn takes_what_is_sent(alloc: Global, host: &mut Host) -> Result<bool, Fail<Error>> {
    let is_taken = send(alloc, host, &[1, 2, 3])? == Some(Ok(()));
    let is_stalled = send(alloc, host, &[])? == Some(Err(TransferError::Stall));
    let is_faulty = send(alloc, host, &[4])? == Some(Err(TransferError::Fault));
    host.rest();
    let refused = send(alloc, host, &[5]);
    let is_busy = matches!(refused, Err(Fail::Cause(error)) if error.kind() == ErrorKind::Busy);
    let is_last = matches!(sent(host, 0x02), Some([4])) && sent(host, 0x00).is_none();
    Ok(is_taken && is_stalled && is_faulty && is_busy && is_last)
}

/// A request of the vendor that sends a byte.
fn request(byte: &[u8; 1]) -> ControlOut<'_>
    ensures short { length result.bytes.now < 2 ^ 16 }
{
    ControlOut {
        control_type: ControlType::Vendor,
        recipient: Recipient::Device,
        request: 1,
        value: 0,
        index: 0,
        bytes: byte,
    }
}

/// A request of the vendor that asks for two bytes.
const QUESTION: ControlIn = ControlIn {
    control_type: ControlType::Vendor,
    recipient: Recipient::Device,
    request: 2,
    value: 0,
    index: 0,
    length: 2,
};

/// Whether a device takes a byte, and refuses the next. Both were sent.
fn takes_one_request(host: &mut Host, device: &Device) -> bool
    requires stands { StandsDevice host.old device.now }
    ensures stands { StandsDevice host.new device.now }
{
    let is_taken = device.control_out(host, request(&[7]), 1000).is_ok();
    let is_first = matches!(sent(host, 0x00), Some([7]));
    let refused = device.control_out(host, request(&[8]), 1000);
    let is_refused = matches!(refused, Err(Fail::Cause(TransferError::Stall)));
    is_taken && is_first && is_refused && matches!(sent(host, 0x00), Some([8]))
}

/// Whether a device answers a question with two bytes, and refuses the next.
fn answers_one_question(host: &mut Host, device: &Device) -> bool
    requires stands { StandsDevice host.old device.now }
    ensures stands { StandsDevice host.new device.now }
{
    let answer = device.control_in(host, QUESTION, 1000);
    let is_answered = matches!(&answer, Ok(bytes) if bytes.as_slice() == [1, 2].as_slice());
    let refused = device.control_in(host, QUESTION, 1000);
    is_answered && matches!(&refused, Err(Fail::Cause(TransferError::Stall)))
}

/// Whether the host of `a_control_transfer_has_an_address_for_each_direction` does both.
fn makes_requests(host: &mut Host) -> Result<bool, Fail<Error>> {
    let device = Device::open_at(host, 1, 6)?;
    let is_taken = takes_one_request(host, &device);
    let is_answered = answers_one_question(host, &device);
    device.close(host);
    Ok(is_taken && is_answered)
}

/// Whether the steps of a host set its clock, and leave one event.
fn leaves_one_event(host: &mut Host, clock: u64) -> bool {
    host.rest();
    host.kernel().now() == clock && host.kernel().journal().len() == 1
}

/// What is done at the host of a bench.
enum Case {
    /// Bytes are sent.
    Sends,
    /// Requests are made.
    Requests,
    /// The steps are made.
    Steps,
}

/// Compares what is found at the host of a bench. It is owned here alone, since a function that owns
/// one is slow to prove.
fn expect(rt: &impl Abort, alloc: Global, bench: SimBench, case: &Case) -> Result<(), test::Fail> {
    let mut host = bench.host()?;
    let is_so = match case {
        Case::Sends => matches!(takes_what_is_sent(alloc, &mut host), Ok(true)),
        Case::Requests => matches!(makes_requests(&mut host), Ok(true)),
        Case::Steps => leaves_one_event(&mut host, 5),
    };
    assert!(rt; is_so);
    Ok(())
}

#[test]
fn a_device_takes_what_is_sent(rt: HostRuntime) -> Result<(), test::Fail> {
    let bench = SimBench::new(rt.alloc(), &PRINTER)?
        .at(2, 9)
        .accept(0x02)?
        .stall(0x02)?
        .fail(0x02, 71)?
        .refuse(KernelCall::Claim, 16)?;
    expect(&rt, rt.alloc(), bench, &Case::Sends)
}

#[test]
fn of_steps_with_nothing_to_act_on_the_unplug_alone_is_an_event(
    rt: HostRuntime,
) -> Result<(), test::Fail> {
    let bench = SimBench::new(rt.alloc(), &PRINTER)?
        .speed(Speed::Full)
        .configuration(0)
        .driver(0)?
        .places(1)
        .packet(0x81, &[1, 2])?
        .echo(0x02, 0x81)?
        .clock(5)?
        .step(KernelStep::Timer)?
        .reap()?
        .unplug()?;
    expect(&rt, rt.alloc(), bench, &Case::Steps)
}

#[test]
fn a_control_transfer_has_an_address_for_each_direction(rt: HostRuntime) -> Result<(), test::Fail> {
    let bench = SimBench::new(rt.alloc(), &PRINTER)?
        .accept(0x00)?
        .stall(0x00)?
        .packet(0x80, &[1, 2])?
        .stall(0x80)?;
    expect(&rt, rt.alloc(), bench, &Case::Requests)
}
