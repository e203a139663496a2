//! The driver on a simulated device. Expected values come from the packets of the scripts, and from
//! USB 2.0, section 5.8.3: a message ends with a packet that is shorter than the maximum.

ghost use Rattle.usb_device_host.specs.HostBus.{bus_of};
ghost use Rattle.example_messages.specs.Endpoints.{IsOpen};

use crate::{Fault, LONGEST_ANSWER, Messages};
use std::test;
use usb_device::{Body, Error, ErrorKind, Event, Fail, Host, NoMemory};
use usb_device_bench::SimBench;

/// A device descriptor, and a configuration with interface 0 and the bulk endpoints 0x81 and 0x02,
/// of packets of 64 bytes.
const DEVICE: [u8; 50] = [
    0x12, 0x01, 0x00, 0x02, 0x00, 0x00, 0x00, 0x40, 0xaa, 0xaa, 0xbb, 0xbb, 0x00, 0x01, 0x00, 0x00,
    0x00, 0x01, 0x09, 0x02, 0x20, 0x00, 0x01, 0x01, 0x00, 0x80, 0x32, 0x09, 0x04, 0x00, 0x00, 0x02,
    0xff, 0x00, 0x00, 0x00, 0x07, 0x05, 0x81, 0x02, 0x40, 0x00, 0x00, 0x07, 0x05, 0x02, 0x02, 0x40,
    0x00, 0x00,
];

/// The bytes of a full packet.
const FULL: [u8; 64] = [7; 64];

/// The bytes of two full packets and two bytes more.
const TWO_FULL_AND_TWO: [u8; 130] = [7; 130];

/// A request of a full transfer, and of 88 bytes more.
const LONG: [u8; 600] = [9; 600];

/// A request, and its answer.
#[derive(Drop)]
struct Turn {
    request: &'static [u8],
    answer: Result<&'static [u8], Fault>,
}

/// A request that is answered with these bytes.
fn answered(answer: &'static [u8]) -> Turn {
    Turn {
        request: &[1, 2, 3],
        answer: Ok(answer),
    }
}

/// A request that is not answered.
fn failed(fault: Fault) -> Turn {
    Turn {
        request: &[1, 2, 3],
        answer: Err(fault),
    }
}

/// Whether an answer is this.
fn is_answer(found: &Result<Vec<u8>, Fail<Fault>>, wanted: &Result<&'static [u8], Fault>) -> bool {
    match (found, wanted) {
        (Ok(found), Ok(wanted)) => found.as_slice() == *wanted,
        (Err(Fail::Cause(found)), Err(wanted)) => found == wanted,
        _ => false,
    }
}

/// Whether the device at address 6 of bus 1 answers requests so, one after another. After a fault
/// the driver starts anew, which is an error where the device is gone.
fn answers(host: &mut Host, turns: &[Turn]) -> Result<bool, Fail<Error>> {
    let mut messages = Messages::open(host, 1, 6)?;
    let mut all = true;
    for turn in turns {
        let request = turn.request;
        let answer = messages.ask(host, request);
        all &= is_answer(&answer, &turn.answer);
        if answer.is_err() {
            messages = match messages.restart(host) {
                Ok(messages) => messages,
                Err(error) => return Err(Fail::Cause(error)),
            };
        }
    }
    messages.close(host);
    Ok(all)
}

/// Whether the device of a bench answers requests so, and nothing is left open.
fn bench_answers(bench: SimBench, turns: &[Turn]) -> Result<bool, Fail<Error>> {
    let mut host = bench.host()?;
    let all = answers(&mut host, turns)?;
    Ok(all && host.endpoint_count() == 0)
}

/// Whether these are the transfers of bytes that a journal has, in order.
fn is_sent(journal: &[Event], wanted: &[&[u8]]) -> bool {
    let mut wanted = wanted.iter();
    for event in journal {
        if let Event::Submit {
            body: Body::Sent(bytes),
            ..
        } = event
        {
            match wanted.next() {
                Some(next) if bytes.as_slice() == *next => {}
                _ => return false,
            }
        }
    }
    wanted.next().is_none()
}

/// Whether a request is sent so, whatever its answer is.
fn sends(bench: SimBench, request: &[u8], wanted: &[&[u8]]) -> Result<bool, Fail<Error>> {
    let mut host = bench.host()?;
    let mut messages = Messages::open(&mut host, 1, 6)?;
    let _ = messages.ask(&mut host, request);
    messages.close(&mut host);
    Ok(is_sent(host.kernel().journal(), wanted))
}

#[test]
fn a_request_is_answered(rt: HostRuntime) -> Result<(), test::Fail> {
    let bench = SimBench::new(rt.alloc(), &DEVICE)?
        .accept(0x02)?
        .packet(0x81, &[4, 5])?;
    assert!(rt; bench_answers(bench, &[answered(&[4, 5])])?);
    Ok(())
}

#[test]
fn an_answer_of_several_packets_is_one_message(rt: HostRuntime) -> Result<(), test::Fail> {
    let bench = SimBench::new(rt.alloc(), &DEVICE)?
        .accept(0x02)?
        .packet(0x81, &FULL)?
        .packet(0x81, &FULL)?
        .packet(0x81, &[7, 7])?
        .accept(0x02)?
        .packet(0x81, &FULL)?
        .packet(0x81, &[])?;
    let turns = [answered(&TWO_FULL_AND_TWO), answered(&FULL)];
    assert!(rt; bench_answers(bench, &turns)?);
    Ok(())
}

#[test]
fn an_empty_answer_is_one(rt: HostRuntime) -> Result<(), test::Fail> {
    let bench = SimBench::new(rt.alloc(), &DEVICE)?
        .accept(0x02)?
        .packet(0x81, &[])?
        .accept(0x02)?
        .packet(0x81, &[4])?;
    assert!(rt; bench_answers(bench, &[answered(&[]), answered(&[4])])?);
    Ok(())
}

#[test]
fn a_stall_is_cleared_and_the_next_request_is_answered(rt: HostRuntime) -> Result<(), test::Fail> {
    let bench = SimBench::new(rt.alloc(), &DEVICE)?
        .stall(0x02)?
        .accept(0x02)?
        .packet(0x81, &FULL)?
        .stall(0x81)?
        .accept(0x02)?
        .packet(0x81, &[4, 5])?;
    let turns = [
        failed(Fault::Stalled),
        failed(Fault::Stalled),
        answered(&[4, 5]),
    ];
    assert!(rt; bench_answers(bench, &turns)?);
    Ok(())
}

#[test]
fn a_late_answer_is_none_of_the_next_request(rt: HostRuntime) -> Result<(), test::Fail> {
    let bench = SimBench::new(rt.alloc(), &DEVICE)?
        .accept(0x02)?
        .clock(10_000_000_000)?
        .packet(0x81, &[9])?
        .accept(0x02)?
        .packet(0x81, &[4, 5])?;
    let turns = [failed(Fault::TimedOut), answered(&[4, 5])];
    assert!(rt; bench_answers(bench, &turns)?);
    Ok(())
}

#[test]
fn no_request_follows_a_fault_before_a_restart(rt: HostRuntime) -> Result<(), test::Fail> {
    let bench = SimBench::new(rt.alloc(), &DEVICE)?.accept(0x02)?;
    let mut host = bench.host()?;
    let mut messages = Messages::open(&mut host, 1, 6)?;
    let first = messages.ask(&mut host, &[1]);
    let second = messages.ask(&mut host, &[2]);
    messages.close(&mut host);
    assert!(rt; is_answer(&first, &Err(Fault::TimedOut)));
    assert!(rt; is_answer(&second, &Err(Fault::Unsettled)));
    assert!(rt; is_sent(host.kernel().journal(), &[&[1]]));
    Ok(())
}

/// Whether a restart is refused as that of a device that is gone.
fn is_refused(host: &mut Host, messages: Messages) -> bool
    requires stands { IsOpen (bus_of host.old) messages }
{
    match messages.restart(host) {
        Ok(messages) => {
            messages.close(host);
            false
        }
        Err(error) => error.kind() == ErrorKind::Disconnected,
    }
}

#[test]
fn an_unplugged_device_answers_no_more(rt: HostRuntime) -> Result<(), test::Fail> {
    let bench = SimBench::new(rt.alloc(), &DEVICE)?
        .accept(0x02)?
        .packet(0x81, &FULL)?
        .unplug()?;
    let mut host = bench.host()?;
    let mut messages = Messages::open(&mut host, 1, 6)?;
    let answer = messages.ask(&mut host, &[1]);
    let is_refused = is_refused(&mut host, messages);
    assert!(rt; is_answer(&answer, &Err(Fault::Unplugged)));
    assert!(rt; is_refused);
    assert_eq!(rt; host.endpoint_count(), 0);
    Ok(())
}

#[test]
fn an_answer_without_end_is_too_long(rt: HostRuntime) -> Result<(), test::Fail> {
    let mut bench = SimBench::new(rt.alloc(), &DEVICE)?.accept(0x02)?;
    for _ in 0..LONGEST_ANSWER / 64 + 8 {
        bench = bench.packet(0x81, &FULL)?;
    }
    assert!(rt; bench_answers(bench, &[failed(Fault::TooLong)])?);
    Ok(())
}

#[test]
fn a_request_is_sent_as_one_message(rt: HostRuntime) -> Result<(), test::Fail> {
    let bench = SimBench::new(rt.alloc(), &DEVICE)?.accept(0x02)?;
    assert!(rt; sends(bench, &[1, 2, 3], &[&[1, 2, 3]])?);
    let bench = SimBench::new(rt.alloc(), &DEVICE)?.accept(0x02)?;
    assert!(rt; sends(bench, &[], &[&[]])?);
    let bench = SimBench::new(rt.alloc(), &DEVICE)?
        .accept(0x02)?
        .accept(0x02)?;
    assert!(rt; sends(bench, &FULL, &[&FULL, &[]])?);
    let mut bench = SimBench::new(rt.alloc(), &DEVICE)?;
    for _ in 0..10 {
        bench = bench.accept(0x02)?;
    }
    assert!(rt; sends(bench, &LONG, &[&LONG[..512], &LONG[512..]])?);
    Ok(())
}

#[test]
fn no_device_is_an_error(rt: HostRuntime) -> Result<(), test::Fail> {
    let bench = SimBench::new(rt.alloc(), &DEVICE)?.at(1, 7);
    assert!(rt; matches!(bench_answers(bench, &[]), Err(Fail::Cause(_))));
    Ok(())
}
