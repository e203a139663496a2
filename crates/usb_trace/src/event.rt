//! An event is done again.

ghost use Rattle.std.specs.Prelude.{◌≡◌, ◌+◌, ◌≤◌, ◌<◌, ◌∷◌, [], ℕ, length, nat_lt, IfOk, IsTrue};
ghost use Rattle.usb_kernel.specs.declared.event.Event.{Event};
ghost use Rattle.usb_kernel.specs.Submissions.{body_of, WantsWhole};
ghost use Rattle.usb_kernel.specs.Steps.{stepped, after_discard, devices_stepped, armed_stepped, HasErrno};
ghost use Rattle.usb_kernel_devices.specs.Errnos.{IsErrno};
ghost use Rattle.usb_kernel.specs.Acts.{acts, wants_whole};
ghost use Rattle.usb_trace.specs.Replays.{IsReplaying, IsAppended, IsBodyOf, CanBeDone, is_below, step_for};

use std::alloc::Global;
use usb_desc::{NoMemory, TransferType};
use usb_kernel::{Body, Bytes, Event, Kernel, KernelStep, Submission, Submitted};
use usb_xfer::Buffer;

/// Whether a kernel's journal has more events than before.
fn has_grown(kernel: &Kernel, before: usize) -> bool
    ensures more { result ≡ nat_lt before (length kernel.now.past) }
{
    before < kernel.journal().len()
}

/// Applies a step, and answers whether it acted.
fn acts(kernel: &mut Kernel, step: KernelStep) -> bool
    requires spare { 1 ≤ kernel.old.spare }
    requires errno { HasErrno step }
    ensures grew { result ≡ nat_lt (length kernel.old.past) (length kernel.new.past) }
    ensures past { kernel.new.past
        ≡ stepped kernel.old.devices kernel.old.clock kernel.old.past step }
    ensures devices { kernel.new.devices ≡ devices_stepped kernel.old.devices step }
    ensures armed { kernel.new.armed ≡ armed_stepped kernel.old.armed step }
    ensures spare { kernel.new.spare + 1 ≡ kernel.old.spare }
{
    let before = kernel.journal().len();
    let _ = kernel.step_once(step);
    has_grown(kernel, before)
}

/// Whether a body wants whole packets.
fn asks_whole(maximum: usize, body: &Body) -> bool
    ensures value { result ≡ wants_whole maximum body.now }
{
    match body {
        Body::Wanted(wanted) => {
            *wanted == maximum || (maximum > 0 && *wanted > 0 && *wanted % maximum == 0)
        }
        Body::Sent(_) => true,
    }
}

/// The same, which is what the kernel asks of a submission.
fn wants_whole(maximum: usize, body: &Body) -> bool
    ensures value { result ≡ wants_whole maximum body.now }
    ensures whole { IsTrue result → WantsWhole maximum body.now }
{
    asks_whole(maximum, body)
}

/// A buffer for a body.
fn buffer(alloc: Global, endpoint: u8, body: Body) -> Result<Buffer, NoMemory>
    requires body { IsBodyOf endpoint body }
    ensures body { IfOk result (λ b. body_of endpoint b ≡ body) }
{
    match body {
        Body::Wanted(wanted) => Buffer::new(alloc, wanted),
        Body::Sent(bytes) => Ok(Buffer::from_vec(bytes.into_vec())),
    }
}

/// A submission is done again. It answers whether it acts. Where it does not, the kernel is of no
/// further use.
fn submit(
    kernel: &mut Kernel,
    alloc: Global,
    ticket: u64,
    device: u8,
    endpoint: u8,
    maximum: usize,
    body: Body,
    capacity: usize,
    deadline: Option<u64>,
) -> Result<bool, NoMemory>
    requires replaying { IsReplaying kernel.old }
    requires body { IsBodyOf endpoint body }
    ensures acts { IfOk result (λ yes. yes ≡ acts kernel.old.past
        (Event.Submit ticket device endpoint maximum body capacity deadline)) }
    ensures past { IfOk result (λ yes. IsTrue yes → IsAppended kernel.old.past kernel.new.past
        (Event.Submit ticket device endpoint maximum body capacity deadline)) }
    ensures replaying { IfOk result (λ yes. IsTrue yes → IsReplaying kernel.new) }
    ensures spare { kernel.new.spare ≡ kernel.old.spare }
{
    if ticket != kernel.tickets() || !wants_whole(maximum, &body) {
        return Ok(false);
    }
    let submission = Submission {
        device,
        endpoint,
        kind: TransferType::Control,
        maximum,
        deadline,
        setup: None,
        buffer: buffer(alloc, endpoint, body)?,
    };
    match kernel.submit(submission) {
        Ok(Submitted::Queued(_)) => Ok(true),
        Ok(Submitted::Refused(_)) => Ok(false),
        Err(_) => Err(NoMemory),
    }
}

/// A refused submission is done again. It answers whether it acts.
fn refuse(
    kernel: &mut Kernel,
    alloc: Global,
    ticket: u64,
    device: u8,
    endpoint: u8,
    maximum: usize,
    body: Body,
    capacity: usize,
    errno: u16,
) -> Result<bool, NoMemory>
    requires replaying { IsReplaying kernel.old }
    requires body { IsBodyOf endpoint body }
    requires errno { IsErrno errno }
    ensures acts { IfOk result (λ yes. yes ≡ acts kernel.old.past
        (Event.Refuse ticket device endpoint maximum body capacity errno)) }
    ensures past { IfOk result (λ yes. IsTrue yes → IsAppended kernel.old.past kernel.new.past
        (Event.Refuse ticket device endpoint maximum body capacity errno)) }
    ensures replaying { IfOk result (λ yes. IsTrue yes → IsReplaying kernel.new) }
    ensures spare { kernel.new.spare ≡ kernel.old.spare }
{
    if ticket != kernel.tickets() {
        return Ok(false);
    }
    let submission = Submission {
        device,
        endpoint,
        kind: TransferType::Control,
        maximum,
        deadline: None,
        setup: None,
        buffer: buffer(alloc, endpoint, body)?,
    };
    match kernel.refuse(submission, errno) {
        Ok(_) => Ok(true),
        Err(_) => Err(NoMemory),
    }
}

/// Discards a ticket, and answers whether that acted.
fn discard(kernel: &mut Kernel, ticket: u64) -> bool
    requires replaying { IsReplaying kernel.old }
    ensures acts { result ≡ acts kernel.old.past (Event.Discard ticket) }
    ensures past { IsTrue result →
        IsAppended kernel.old.past kernel.new.past (Event.Discard ticket) }
    ensures replaying { IsTrue result → IsReplaying kernel.new }
    ensures spare { kernel.new.spare ≡ kernel.old.spare }
{
    let before = kernel.journal().len();
    kernel.discard(ticket);
    has_grown(kernel, before)
}

/// The step as which an event came.
fn step_for(event: Event) -> KernelStep
    requires done { CanBeDone event }
    ensures step { result ≡ step_for event }
    ensures errno { HasErrno result }
{
    match event {
        Event::Packet {
            device,
            endpoint,
            bytes,
        } => KernelStep::Packet {
            device,
            endpoint,
            bytes,
        },
        Event::Ack { device, endpoint } => KernelStep::Ack { device, endpoint },
        Event::Echo {
            device,
            output,
            input,
        } => KernelStep::Echo {
            device,
            output,
            input,
        },
        Event::Fail {
            device,
            endpoint,
            errno,
        } => KernelStep::Fail {
            device,
            endpoint,
            errno,
        },
        Event::Reap { ticket } => KernelStep::Reap {
            ticket: Some(ticket),
        },
        Event::Unplug { device } => KernelStep::Unplug { device },
        _ => KernelStep::Timer,
    }
}

/// An event that came as a step is done again. It answers whether it acts.
fn step_again(kernel: &mut Kernel, event: Event) -> bool
    requires replaying { IsReplaying kernel.old }
    requires done { CanBeDone event }
    requires spare { 1 ≤ kernel.old.spare }
    requires below { IsTrue (is_below event) }
    ensures acts { result ≡ acts kernel.old.past event }
    ensures past { IsTrue result → IsAppended kernel.old.past kernel.new.past event }
    ensures replaying { IsTrue result → IsReplaying kernel.new }
    ensures spare { kernel.new.spare + 1 ≡ kernel.old.spare }
{
    acts(kernel, step_for(event))
}

/// Does an event again at a kernel to which the events before it were done. It answers whether the
/// event acts. Where it does not, the kernel is of no further use.
pub(crate) fn do_again(kernel: &mut Kernel, alloc: Global, event: Event) -> Result<bool, NoMemory>
    requires replaying { IsReplaying kernel.old }
    requires done { CanBeDone event }
    requires spare { 1 ≤ kernel.old.spare }
    ensures acts { IfOk result (λ yes. yes ≡ acts kernel.old.past event) }
    ensures past { IfOk result (λ yes. IsTrue yes →
        IsAppended kernel.old.past kernel.new.past event) }
    ensures replaying { IfOk result (λ yes. IsTrue yes → IsReplaying kernel.new) }
    ensures spare { kernel.old.spare ≤ kernel.new.spare + 1 }
{
    match event {
        Event::Submit {
            ticket,
            device,
            endpoint,
            maximum,
            body,
            capacity,
            deadline,
        } => submit(
            kernel, alloc, ticket, device, endpoint, maximum, body, capacity, deadline,
        ),
        Event::Refuse {
            ticket,
            device,
            endpoint,
            maximum,
            body,
            capacity,
            errno,
        } => refuse(
            kernel, alloc, ticket, device, endpoint, maximum, body, capacity, errno,
        ),
        Event::Discard { ticket } => Ok(discard(kernel, ticket)),
        event => Ok(step_again(kernel, event)),
    }
}
