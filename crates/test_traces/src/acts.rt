//! What happens at a kernel whose journal is written.

ghost use Rattle.std.specs.Prelude.{IfOk};
ghost use Rattle.usb_kernel.specs.Submissions.{IsWhole};
ghost use Rattle.usb_kernel.specs.Steps.{HasErrno};

use std::alloc::Global;
use usb_desc::{NoMemory, TransferType};
use usb_kernel::{Bytes, Descriptors, Kernel, KernelStep, SimDevice, Submission};
use usb_xfer::Buffer;

/// An event at device 0. There is no device 9.
#[derive(Clone, Copy)]
pub enum Act {
    /// A transfer that wants one packet of this size, at an endpoint.
    Want(u8, u16),
    /// The same with a deadline.
    WantBy(u8, u16, u64),
    /// The same at device 9.
    WantNothing(u8, u16),
    /// A transfer of these bytes, in one packet of at most 64.
    Send(u8, &'static [u8]),
    Packet(u8, &'static [u8]),
    Ack(u8),
    Echo(u8, u8),
    Stall(u8),
    /// The greatest errno.
    FailLast(u8),
    Discard(u64),
    Reap(u64),
    Unplug,
}

/// A kernel with device 0, which has no descriptors.
pub fn new_kernel(alloc: Global) -> Result<Kernel, NoMemory> {
    let device = SimDevice {
        bus: 1,
        address: 6,
        speed: 3,
        config: 1,
        bytes: Descriptors::from_slice(alloc, &[])?,
        drivers: Bytes::from_vec(Vec::new(alloc)),
    };
    match vec![in alloc; (0, device)] {
        Ok(devices) => Kernel::new(alloc, devices),
        Err(_) => Err(NoMemory),
    }
}

/// A transfer that wants one packet.
fn wanting(
    alloc: Global,
    device: u8,
    endpoint: u8,
    maximum: u16,
    deadline: Option<u64>,
) -> Result<Submission, NoMemory>
    ensures whole { IfOk result IsWhole }
{
    Ok(Submission {
        device,
        endpoint: endpoint | 0x80,
        kind: TransferType::Bulk,
        maximum: usize::from(maximum),
        deadline,
        setup: None,
        buffer: Buffer::new(alloc, usize::from(maximum))?,
    })
}

/// A transfer of the first 64 of these bytes.
fn sending(alloc: Global, endpoint: u8, bytes: &[u8]) -> Result<Submission, NoMemory>
    ensures whole { IfOk result IsWhole }
{
    Ok(Submission {
        device: 0,
        endpoint: endpoint & 0x0f,
        kind: TransferType::Bulk,
        maximum: 64,
        deadline: None,
        setup: None,
        buffer: Buffer::from_slice(alloc, &bytes[..bytes.len().min(64)])?,
    })
}

fn submit(kernel: &mut Kernel, submission: Submission) -> Result<(), NoMemory>
    requires whole { IsWhole submission }
{
    match kernel.submit(submission) {
        Ok(_) => Ok(()),
        Err(_) => Err(NoMemory),
    }
}

fn apply(kernel: &mut Kernel, step: KernelStep) -> Result<(), NoMemory>
    requires errno { HasErrno step }
{
    kernel.reserve(1)?;
    let _ = kernel.step_once(step);
    Ok(())
}

fn fail(kernel: &mut Kernel, endpoint: u8, errno: u16) -> Result<(), NoMemory> {
    if errno == 0 || errno > 4095 {
        return Ok(());
    }
    apply(
        kernel,
        KernelStep::Fail {
            device: 0,
            endpoint,
            errno,
        },
    )
}

/// Lets it happen.
pub fn perform(alloc: Global, kernel: &mut Kernel, act: Act) -> Result<(), NoMemory> {
    match act {
        Act::Want(endpoint, maximum) => {
            submit(kernel, wanting(alloc, 0, endpoint, maximum, None)?)
        }
        Act::WantBy(endpoint, maximum, deadline) => submit(
            kernel,
            wanting(alloc, 0, endpoint, maximum, Some(deadline))?,
        ),
        Act::WantNothing(endpoint, maximum) => {
            submit(kernel, wanting(alloc, 9, endpoint, maximum, None)?)
        }
        Act::Send(endpoint, bytes) => submit(kernel, sending(alloc, endpoint, bytes)?),
        Act::Packet(endpoint, bytes) => apply(
            kernel,
            KernelStep::Packet {
                device: 0,
                endpoint,
                bytes: Bytes::from_slice(alloc, bytes)?,
            },
        ),
        Act::Ack(endpoint) => apply(
            kernel,
            KernelStep::Ack {
                device: 0,
                endpoint,
            },
        ),
        Act::Echo(output, input) => apply(
            kernel,
            KernelStep::Echo {
                device: 0,
                output,
                input,
            },
        ),
        Act::Stall(endpoint) => fail(kernel, endpoint, 32),
        Act::FailLast(endpoint) => fail(kernel, endpoint, 4095),
        Act::Discard(ticket) => {
            kernel.discard(ticket);
            Ok(())
        }
        Act::Reap(ticket) => {
            let _ = kernel.reap(ticket);
            Ok(())
        }
        Act::Unplug => apply(kernel, KernelStep::Unplug { device: 0 }),
    }
}
