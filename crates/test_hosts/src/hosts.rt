//! Hosts: the host that their tests begin with, and what is done at it.

ghost use Rattle.std.specs.Prelude.{IfOk};
ghost use Rattle.std.specs.List.{All};
ghost use Rattle.usb_kernel.specs.Steps.{HasErrno};

mod examples;
mod handles;
mod rooms;
mod slots;
mod transfers;

use crate::devices::{DEVICE, new_kernel};
use crate::hosts::examples::{do_as_said, has_none};
use crate::hosts::handles::{has_texts, is_mapped, is_timed};
use crate::hosts::rooms::has_room;
use crate::hosts::slots::has_slots;
use crate::hosts::transfers::{has_packet, is_cancelled_in_time, leaves_room};
use crate::steps::{ACK, packet};
use std::alloc::Global;
use std::process::Abort;
use std::test::Fail;
use usb_device::{Bytes, Host, KernelStep, NoMemory};

/// The bytes of the packet that comes.
const PACKET: [u8; 3] = [1, 2, 3];

/// A line of one step, a packet that comes to this endpoint.
fn new_line(alloc: Global, endpoint: u8) -> Result<Vec<KernelStep>, NoMemory>
    ensures errnos { IfOk result (λ steps. All HasErrno steps.items) }
{
    let packet = KernelStep::Packet {
        device: 0,
        endpoint,
        bytes: Bytes::from_slice(alloc, &PACKET)?,
    };
    match vec![in alloc; packet] {
        Ok(steps) => Ok(steps),
        Err(_) => Err(NoMemory),
    }
}

/// A line of packets that come to endpoint 0x81, each with a reap behind it.
fn new_lines(alloc: Global, count: usize) -> Result<Vec<KernelStep>, NoMemory>
    ensures errnos { IfOk result (λ steps. All HasErrno steps.items) }
{
    let mut steps = Vec::new(alloc);
    'packets: for _ in 0..count {
        let packet = packet(alloc, &PACKET)?;
        let reap = KernelStep::Reap { ticket: None };
        if steps.push(packet).is_err() || steps.push(reap).is_err() {
            return Err(NoMemory);
        }
    }
    Ok(steps)
}

/// A line of a packet that comes to endpoint 0x81, and of one that is taken at endpoint 0x02, each
/// with a reap behind it.
fn new_exchange(alloc: Global) -> Result<Vec<KernelStep>, NoMemory>
    ensures errnos { IfOk result (λ steps. All HasErrno steps.items) }
{
    let packet = packet(alloc, &PACKET)?;
    let reap = KernelStep::Reap { ticket: None };
    let last = KernelStep::Reap { ticket: None };
    match vec![in alloc; packet, reap, ACK, last] {
        Ok(steps) => Ok(steps),
        Err(_) => Err(NoMemory),
    }
}

/// A host of a kernel with device 0 at address 6 of bus 1, and the steps of a line.
fn new_host(alloc: Global, steps: Vec<KernelStep>) -> Result<Host, NoMemory>
    requires errnos { All HasErrno steps.items }
{
    let mut kernel = new_kernel(alloc, &DEVICE)?;
    kernel.reserve(steps.len())?;
    let mut host = Host::new(alloc, kernel);
    host.lend_steps(steps);
    Ok(host)
}

/// What is done at a new host.
enum Case {
    /// A packet is read.
    Packet,
    /// A packet that doesn't come is waited for until its deadline.
    Deadline,
    /// What is opened and claimed is closed again and again.
    Room,
    /// The debug texts of the device and of its interface are written.
    Texts,
    /// A control transfer is waited for, and something is made of its bytes.
    Mapped,
    /// The timer has its turn at the deadline of a control transfer.
    Timed,
    /// Transfers are submitted and taken, one after the other and three at once.
    Slots,
    /// Room is made for steps beside the one of the line, and given up.
    Rooms,
    /// The examples of doc comments are run.
    Examples,
}

/// Compares what is found at a new host with the steps of a line. It is owned here alone.
fn expect(rt: &impl Abort, alloc: Global, steps: Vec<KernelStep>, case: &Case) -> Result<(), Fail>
    requires errnos { All HasErrno steps.items }
{
    let mut host = new_host(alloc, steps)?;
    assert!(rt; is_so(alloc, &mut host, case));
    Ok(())
}

fn is_so(alloc: Global, host: &mut Host, case: &Case) -> bool {
    match case {
        Case::Packet => has_packet(alloc, host),
        Case::Deadline => is_cancelled_in_time(alloc, host),
        Case::Room => leaves_room(alloc, host),
        Case::Texts => matches!(has_texts(alloc, host), Ok(true)),
        Case::Mapped => is_mapped(host),
        Case::Timed => is_timed(host),
        Case::Slots => has_slots(alloc, host),
        Case::Rooms => matches!(has_room(host), Ok(true)),
        Case::Examples => matches!(do_as_said(host), Ok(true)),
    }
}

#[test]
fn a_short_driver_reads_a_packet(rt: HostRuntime) -> Result<(), Fail> {
    expect(&rt, rt.alloc(), new_line(rt.alloc(), 0x81)?, &Case::Packet)
}

#[test]
fn a_read_is_cancelled_at_its_deadline(rt: HostRuntime) -> Result<(), Fail> {
    expect(
        &rt,
        rt.alloc(),
        new_line(rt.alloc(), 0x80)?,
        &Case::Deadline,
    )
}

#[test]
fn memory_of_a_closed_handle_is_used_again(rt: HostRuntime) -> Result<(), Fail> {
    expect(&rt, rt.alloc(), new_line(rt.alloc(), 0x81)?, &Case::Room)
}

#[test]
fn debug_texts_name_the_handles(rt: HostRuntime) -> Result<(), Fail> {
    expect(&rt, rt.alloc(), new_line(rt.alloc(), 0x81)?, &Case::Texts)
}

#[test]
fn what_a_control_transfer_brings_is_mapped(rt: HostRuntime) -> Result<(), Fail> {
    expect(&rt, rt.alloc(), new_line(rt.alloc(), 0x80)?, &Case::Mapped)
}

#[test]
fn a_timer_turn_cancels_what_is_due(rt: HostRuntime) -> Result<(), Fail> {
    expect(&rt, rt.alloc(), new_line(rt.alloc(), 0x80)?, &Case::Timed)
}

#[test]
fn slots_of_tickets_that_ended_are_used_again(rt: HostRuntime) -> Result<(), Fail> {
    expect(&rt, rt.alloc(), new_lines(rt.alloc(), 104)?, &Case::Slots)
}

#[test]
fn room_for_steps_stands_beside_those_that_are_left(rt: HostRuntime) -> Result<(), Fail> {
    expect(&rt, rt.alloc(), new_line(rt.alloc(), 0x81)?, &Case::Rooms)
}

#[test]
fn examples_of_comments_do_what_they_say(rt: HostRuntime) -> Result<(), Fail> {
    let is_none = has_none(rt.alloc(), Vec::new(rt.alloc()))?;
    assert!(&rt; is_none);
    expect(&rt, rt.alloc(), new_exchange(rt.alloc())?, &Case::Examples)
}
