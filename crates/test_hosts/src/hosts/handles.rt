//! Debug texts of a host's handles, and a control transfer by a future on its host.

ghost use Rattle.std.specs.Prelude.{IfOk, IsSome};
ghost use Rattle.usb_device.specs.Futures.{StandsFuture};

use crate::hosts::PACKET;
use crate::outcomes::is_text;
use std::alloc::Global;
use usb_device::{
    ControlIn, ControlType, Device, Error, Fail, Host, MapResult, MaybeFuture, NoMemory, Recipient,
    TransferError, TransferFuture,
};

/// Whether the device and its interface 0 have their debug texts.
pub fn has_texts(alloc: Global, host: &mut Host) -> Result<bool, Fail<Error>> {
    let device = Device::open_at(host, 1, 6)?;
    let of_device = format!(in alloc; "{device:?}");
    let interface = device.into_interface(host, 0)?;
    let of_interface = format!(in alloc; "{interface:?}");
    interface.close(host);
    let is_device = is_text(of_device.ok(), "Device");
    Ok(is_device && is_text(of_interface.ok(), "Interface { number: 0 }"))
}

/// A request of a vendor for up to 64 bytes.
fn vendor_request() -> ControlIn {
    ControlIn {
        control_type: ControlType::Vendor,
        recipient: Recipient::Device,
        request: 1,
        value: 2,
        index: 0,
        length: 64,
    }
}

/// Starts a control transfer by a handle of the device, which is closed then. Its deadline is so
/// many nanoseconds away.
fn start(host: &mut Host, timeout: u64) -> Result<TransferFuture, NoMemory>
    ensures future { IfOk result (StandsFuture host.new) }
    ensures unanswered { IfOk result (λ f. IsSome f.ticket) }
{
    let Ok(device) = Device::open_at(host, 1, 6) else {
        return Err(NoMemory);
    };
    let started = device.start_control_in(host, vendor_request(), timeout);
    device.close(host);
    started
}

/// Whether the length of what a control transfer brings is that of the packet.
pub fn is_mapped(host: &mut Host) -> bool {
    match start(host, 1_000_000_000) {
        Ok(future) => {
            let length = future.on(host).map_ok(|bytes: Vec<u8>| bytes.len());
            length.wait() == Ok(PACKET.len())
        }
        Err(_) => false,
    }
}

/// Whether the timer cancels a control transfer at its deadline, before its packet comes.
pub fn is_timed(host: &mut Host) -> bool {
    match start(host, 0) {
        Ok(future) => {
            host.timer();
            matches!(future.wait(host), Err(TransferError::Cancelled))
        }
        Err(_) => false,
    }
}
