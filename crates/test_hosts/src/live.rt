//! Rows of cells: what their tests begin with, and their calls.

ghost use Rattle.std.specs.Prelude.{◌<◌, ◌^◌};

mod loops;
mod rows;
mod threads;

use crate::kernel::apply;
use crate::steps::packet;
use futures::task::Poll;
use std::alloc::Global;
use std::process::Abort;
use usb_desc::{NoMemory, TransferType};
use usb_device_endpoint::Route;
use usb_kernel::Kernel;
use usb_live::{LiveEndpoint, OwnerSeat, Receipt, Tally};
use usb_xfer::{Buffer, Notify};

/// The bulk IN endpoint 0x81 of device 0, with packets of at most 64 bytes.
fn route() -> Route {
    Route {
        device: 0,
        endpoint: 0x81,
        kind: TransferType::Bulk,
        maximum: 64,
        key: 7,
    }
}

/// The owner's endpoint.
pub fn open<'a>(
    rt: &impl Abort,
    alloc: Global,
    owner: OwnerSeat,
    notify: &'a Notify,
) -> LiveEndpoint<'a> {
    match LiveEndpoint::new(alloc, owner, route(), notify, Tally::new()) {
        Ok(endpoint) => endpoint,
        Err(_) => panic!(rt; "no memory"),
    }
}

/// A packet comes to endpoint 0x81 of device 0.
pub fn feed(alloc: Global, kernel: &mut Kernel, bytes: &[u8]) -> Result<(), NoMemory> {
    apply(kernel, packet(alloc, bytes)?)?;
    Ok(())
}

/// Submits a buffer of this length, and says whether it got a ticket.
pub fn submit(
    alloc: Global,
    endpoint: &mut LiveEndpoint<'_>,
    kernel: &mut Kernel,
    len: usize,
) -> Option<u64>
    requires small { len < 2 ^ 31 }
{
    let Ok(buffer) = Buffer::new(alloc, len) else {
        return None;
    };
    endpoint.submit(kernel, buffer).ok()
}

/// A copy of the receipt of the oldest transfer, if there is one.
pub fn poll(endpoint: &mut LiveEndpoint<'_>) -> Option<Receipt> {
    if endpoint.pending() == 0 {
        return None;
    }
    match endpoint.try_next_complete() {
        Poll::Ready(receipt) => receipt.clone().ok(),
        Poll::Pending => None,
    }
}
