//! The simulated kernel: what is not there, and copies of steps. What the kernel makes of its calls
//! and steps else is asked by scripts.

ghost use Rattle.std.specs.Prelude.{◌≡◌, IfOk, None};
ghost use Rattle.usb_kernel.specs.Submissions.{IsWhole};
ghost use Rattle.usb_kernel.specs.Steps.{HasErrno};

use crate::devices::{DEVICE, new_kernel};
use crate::steps::{ACK, packet};
use std::alloc::Global;
use std::test::Fail;
use usb_desc::{NoMemory, TransferType};
use usb_kernel::{Body, Bytes, Done, Event, Kernel, KernelCall, KernelStep, Submission, Submitted};
use usb_xfer::Buffer;

/// Makes room for a step and applies it.
pub fn apply(kernel: &mut Kernel, step: KernelStep) -> Result<Option<Done>, NoMemory>
    requires errno { HasErrno step }
{
    kernel.reserve(1)?;
    Ok(kernel.step_once(step))
}

/// A bulk transfer of endpoint 0x81 that wants 64 bytes.
fn wanting(alloc: Global, device: u8) -> Result<Submission, NoMemory>
    ensures whole { IfOk result IsWhole }
    ensures deadline { IfOk result (λ s. s.deadline ≡ None) }
{
    let buffer = Buffer::new(alloc, 64)?;
    Ok(Submission {
        device,
        endpoint: 0x81,
        kind: TransferType::Bulk,
        maximum: 64,
        deadline: None,
        setup: None,
        buffer,
    })
}

/// Whether device 2, which there is not, refuses each call, and so does interface 0 of device 0
/// once no configuration is active.
fn refuses_calls(kernel: &mut Kernel) -> bool {
    kernel.set_configuration(2, 1) == Err(19)
        && kernel.claim(2, 0) == Err(19)
        && kernel.release(2, 0) == Err(19)
        && kernel.configuration(2) == Err(19)
        && matches!(kernel.read_descriptors(2), Err(19))
        && kernel.set_configuration(0, 0) == Ok(())
        && kernel.set_interface(0, 0, 0) == Err(22)
}

/// Whether a transfer of device 2 is ticket 0, which is refused and has its buffer back.
fn is_refused(alloc: Global, kernel: &mut Kernel) -> Result<bool, NoMemory> {
    let Ok(submitted) = kernel.submit(wanting(alloc, 2)?) else {
        return Ok(false);
    };
    match submitted.clone()? {
        Submitted::Refused(done) => {
            let done = done.clone()?;
            let is_so = done.ticket == 0 && done.status == 19 && done.refused && done.count == 0;
            Ok(is_so && done.buffer.is_empty() && done.buffer.requested_len() == 64)
        }
        Submitted::Queued(_) => Ok(false),
    }
}

/// Whether a copy of a transfer of device 0 is ticket 1.
fn is_queued(alloc: Global, kernel: &mut Kernel) -> Result<bool, NoMemory> {
    let copy = wanting(alloc, 0)?.clone()?;
    Ok(matches!(kernel.submit(copy), Ok(Submitted::Queued(1))))
}

/// Whether a copy of the last event is that of ticket 1, which wants 64 bytes.
fn copies_event(events: &[Event]) -> Result<bool, NoMemory> {
    let Some(event) = events.last() else {
        return Ok(false);
    };
    match event.clone()? {
        Event::Submit {
            ticket,
            device,
            endpoint,
            maximum,
            body,
            capacity,
            deadline,
        } => {
            let is_place = device == 0 && endpoint == 0x81;
            let is_size = maximum == 64 && capacity == 64 && deadline.is_none();
            let wants = matches!(body.clone()?, Body::Wanted(64));
            Ok(ticket == 1 && is_place && is_size && wants)
        }
        _ => Ok(false),
    }
}

/// Steps on a device that there is not, on endpoints with nothing that is open, and with no ticket
/// to reap. Endpoint 0x81, which sends, acknowledges nothing.
fn idle_step(alloc: Global, number: u8) -> KernelStep
    ensures errno { HasErrno result }
{
    match number {
        0 => ACK,
        1 => KernelStep::Ack {
            device: 0,
            endpoint: 0x81,
        },
        2 => KernelStep::Fail {
            device: 0,
            endpoint: 0x02,
            errno: 5,
        },
        3 => KernelStep::Packet {
            device: 0,
            endpoint: 0x82,
            bytes: Bytes::from_vec(Vec::new(alloc)),
        },
        4 => KernelStep::Unplug { device: 2 },
        5 => KernelStep::Clock { to: 5 },
        6 => KernelStep::Refuse {
            device: 0,
            call: KernelCall::Submit,
            errno: 5,
        },
        7 => KernelStep::Reap { ticket: None },
        8 => KernelStep::Reap { ticket: Some(1) },
        _ => KernelStep::Reap { ticket: Some(9) },
    }
}

/// How many of these steps left no event behind those of the two transfers, before one did.
fn idle_steps(alloc: Global, kernel: &mut Kernel) -> u8 {
    for number in 0..10 {
        let reaped = apply(kernel, idle_step(alloc, number));
        if !matches!(reaped, Ok(None)) || kernel.journal().len() != 2 {
            return number;
        }
    }
    10
}

/// Whether what is not there is refused, and leaves no event.
fn is_right(alloc: Global, kernel: &mut Kernel) -> Result<bool, NoMemory> {
    let is_refused = refuses_calls(kernel) && is_refused(alloc, kernel)?;
    let is_queued = is_queued(alloc, kernel)? && copies_event(kernel.journal())?;
    Ok(is_refused && is_queued && idle_steps(alloc, kernel) == 10)
}

#[test]
fn what_is_not_there_is_refused_and_leaves_no_event(rt: HostRuntime) -> Result<(), Fail> {
    let mut kernel = new_kernel(rt.alloc(), &DEVICE)?;
    assert!(rt; matches!(is_right(rt.alloc(), &mut kernel), Ok(true)));
    Ok(())
}

/// Whether a copy of a step is a packet of these bytes on endpoint 0x81 of device 0.
fn copies_packet(step: &KernelStep, sent: &[u8]) -> Result<bool, NoMemory> {
    match step.clone()? {
        KernelStep::Packet {
            device,
            endpoint,
            bytes,
        } => Ok(device == 0 && endpoint == 0x81 && bytes.into_vec().as_slice() == sent),
        _ => Ok(false),
    }
}

#[test]
fn a_copy_of_a_step_has_its_bytes(rt: HostRuntime) -> Result<(), Fail> {
    let step = packet(rt.alloc(), &[8, 9])?;
    assert!(rt; copies_packet(&step, &[8, 9])?);
    Ok(())
}

/// Whether each of so many tickets of one endpoint gets its packet, and is reaped, from the last to
/// the first.
fn are_reaped_backwards(alloc: Global, kernel: &mut Kernel, count: u64) -> Result<bool, NoMemory> {
    for _ in 0..count {
        if kernel.submit(wanting(alloc, 0)?).is_err() {
            return Err(NoMemory);
        }
    }
    for _ in 0..count {
        let _ = apply(kernel, packet(alloc, &[7])?)?;
    }
    for ticket in (0..count).rev() {
        if kernel.reap(ticket).is_none() {
            return Ok(false);
        }
    }
    Ok(kernel.unreaped() == 0)
}

#[test]
fn each_of_many_tickets_is_found_without_a_search(rt: HostRuntime) -> Result<(), Fail> {
    let alloc = rt.alloc();
    let mut kernel = new_kernel(alloc, &DEVICE)?;
    let reaped = are_reaped_backwards(alloc, &mut kernel, 200_000)?;
    assert!(&rt; reaped);
    Ok(())
}
