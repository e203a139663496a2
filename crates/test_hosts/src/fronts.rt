//! What stands at the front of an endpoint, and the room for steps, of the simulated kernel.
//! Expected values come from the rules of the simulation.

ghost use Rattle.std.specs.Prelude.{◌≡◌, IfOk, None};
ghost use Rattle.usb_kernel.specs.Submissions.{IsWhole};

use crate::devices::{DEVICE, new_kernel};
use crate::kernel::apply;
use crate::steps::ACK;
use std::alloc::Global;
use std::test::Fail;
use usb_desc::{NoMemory, TransferType};
use usb_kernel::{Kernel, Submission};
use usb_xfer::Buffer;

/// A bulk transfer of endpoint 0x02 of device 0 that sends these bytes in packets of two bytes.
fn sending(alloc: Global, bytes: &[u8; 3]) -> Result<Submission, NoMemory>
    ensures whole { IfOk result IsWhole }
{
    let buffer = Buffer::from_slice(alloc, bytes)?;
    Ok(Submission {
        device: 0,
        endpoint: 0x02,
        kind: TransferType::Bulk,
        maximum: 2,
        deadline: None,
        setup: None,
        buffer,
    })
}

/// Whether so many transfers of endpoint 0x02 are open, and this is the packet at the front.
fn stands(kernel: &Kernel, count: usize, expected: &[u8]) -> bool {
    let is_there = match kernel.front_packet(0, 0x02) {
        Some(packet) => packet == expected,
        None => false,
    };
    let is_size = kernel.front_maximum(0, 0x02) == Some(2) && kernel.has_open(0, 0x02);
    is_there && is_size && kernel.open_count(0, 0x02) == count
}

/// Whether no transfer of an endpoint is open.
fn is_empty(kernel: &Kernel, device: u8, endpoint: u8) -> bool {
    let has_none = !kernel.has_open(device, endpoint) && kernel.open_count(device, endpoint) == 0;
    has_none
        && kernel.front_packet(device, endpoint).is_none()
        && kernel.front_maximum(device, endpoint).is_none()
}

/// Whether two transfers stand at the front of their endpoint until each of their packets is
/// acknowledged.
fn stand_in_order(alloc: Global, kernel: &mut Kernel) -> Result<bool, NoMemory> {
    for bytes in [[1, 2, 3], [4, 5, 6]] {
        if kernel.submit(sending(alloc, &bytes)?).is_err() {
            return Err(NoMemory);
        }
    }
    let elsewhere = is_empty(kernel, 0, 0x81) && is_empty(kernel, 1, 0x02);
    let mut is_so = elsewhere && stands(kernel, 2, &[1, 2]);
    for (count, packet) in [
        (2, [3].as_slice()),
        (1, [4, 5].as_slice()),
        (1, [6].as_slice()),
    ] {
        apply(kernel, ACK)?;
        is_so = is_so && stands(kernel, count, packet);
    }
    apply(kernel, ACK)?;
    Ok(is_so && is_empty(kernel, 0, 0x02))
}

/// Whether room that was made for steps is there until it is given up or used.
fn has_room(kernel: &mut Kernel) -> Result<bool, NoMemory> {
    kernel.reserve(3)?;
    let made = kernel.room();
    kernel.give_up_room(2);
    let left = kernel.room();
    kernel.give_up_room(5);
    let _ = apply(kernel, ACK)?;
    Ok(made >= 3 && left == 2 && kernel.room() == 1)
}

#[test]
fn a_front_stands_until_its_last_packet(rt: HostRuntime) -> Result<(), Fail> {
    let mut kernel = new_kernel(rt.alloc(), &DEVICE)?;
    assert!(rt; matches!(stand_in_order(rt.alloc(), &mut kernel), Ok(true)));
    assert!(rt; matches!(has_room(&mut kernel), Ok(true)));
    Ok(())
}
