//! An endpoint on the bus over a kernel alone. Expected values come from the rules of the
//! simulation.

ghost use Rattle.std.specs.Prelude.{IfOk};
ghost use Rattle.usb_device_endpoint.specs.KernelBusCalls.{bus_of};
ghost use Rattle.usb_device_endpoint.specs.Handles.{Stands};

use crate::endpoints::{Case, expect};
use crate::outcomes::is_text;
use futures::task::Poll;
use std::alloc::Global;
use std::test::Fail;
use usb_desc::NoMemory;
use usb_device_endpoint::{Endpoint, KernelBus};
use usb_xfer::{Bulk, In, TransferError};

/// The bulk IN endpoint 0x81 of device 0, with packets of 64 bytes.
pub fn open(alloc: Global, bus: &mut KernelBus) -> Result<Endpoint<Bulk, In>, NoMemory>
    ensures stands { IfOk result (λ e. Stands (bus_of bus.new) e) }
{
    let key = bus.open()?;
    Ok(Endpoint::new(alloc, 0, 0x81, 64, key))
}

/// Lengths of transfers, and whether one is refused at once or pending.
const LENGTHS: [(usize, bool); 5] = [
    (0, true),
    (63, true),
    (100, true),
    (64, false),
    (128, false),
];

/// Whether a transfer of a length is submitted, and the next completion is that of its refusal, or
/// is not there.
fn is_right(
    bus: &mut KernelBus,
    endpoint: &mut Endpoint<Bulk, In>,
    len: usize,
    is_refused: bool,
) -> bool
    requires stands { Stands (bus_of bus.old) endpoint.old }
    ensures stands { Stands (bus_of bus.new) endpoint.new }
{
    if len > 128 || endpoint.pending() >= 64 {
        return false;
    }
    let Ok(buffer) = endpoint.allocate(len) else {
        return false;
    };
    if endpoint.submit(bus, buffer).is_err() || endpoint.pending() == 0 {
        return false;
    }
    match endpoint.next_complete().poll(bus) {
        Poll::Ready(completion) => {
            is_refused && completion.status == Err(TransferError::InvalidArgument)
        }
        Poll::Pending => !is_refused,
    }
}

fn are_right(bus: &mut KernelBus, endpoint: &mut Endpoint<Bulk, In>) -> bool
    requires stands { Stands (bus_of bus.old) endpoint.old }
    ensures stands { Stands (bus_of bus.new) endpoint.new }
{
    for (len, is_refused) in &LENGTHS {
        if !is_right(bus, endpoint, *len, *is_refused) {
            return false;
        }
    }
    true
}

pub fn is_right_endpoint(alloc: Global, bus: &mut KernelBus) -> bool {
    let Ok(mut endpoint) = open(alloc, bus) else {
        return false;
    };
    let text = format!(in alloc; "{endpoint:?}");
    let is_at = endpoint.endpoint_address() == 0x81 && endpoint.max_packet_size() == 64;
    let are_right = are_right(bus, &mut endpoint);
    endpoint.close(bus);
    let expected = "Endpoint { address: 0x81, type: Bulk, direction: In }";
    is_at && are_right && is_text(text.ok(), expected)
}

#[test]
fn an_endpoint_has_its_text_and_refuses_invalid_lengths(rt: HostRuntime) -> Result<(), Fail> {
    expect(&rt, rt.alloc(), &Case::Endpoint)
}
