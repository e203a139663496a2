//! Transfers of a host's endpoint, and what is kept of handles that are closed. Expected values
//! come from the rules of the simulation.

use crate::hosts::PACKET;
use std::alloc::Global;
use usb_device::{Buffer, Bulk, Bus, Completion, Device, Error, Fail, Host, In, TransferError};

/// A second, in nanoseconds.
const SECOND: u64 = 1_000_000_000;

/// Reads one packet from the device at bus 1 and address 6, within a second.
fn read_packet(alloc: Global, host: &mut Host) -> Result<Option<Completion>, Fail<Error>> {
    let Ok(buffer) = Buffer::new(alloc, 64) else {
        return Err(Fail::Memory);
    };
    let device = Device::open_at(host, 1, 6)?;
    let interface = device.into_interface(host, 0)?;
    let mut endpoint = interface.into_endpoint::<Bulk, In>(host, 0x81)?;
    let done = match endpoint.submit(host, buffer) {
        Ok(()) => Ok(endpoint.wait_next_complete(host, 1_000_000_000)),
        Err(_) => Err(Fail::Memory),
    };
    endpoint.close(host); // cancels what is on its way
    done
}

/// Reads one packet from the device at bus 1 and address 6. A second from now it is cancelled.
fn read_by_deadline(alloc: Global, host: &mut Host) -> Result<Option<Completion>, Fail<Error>> {
    let Ok(buffer) = Buffer::new(alloc, 64) else {
        return Err(Fail::Memory);
    };
    let device = Device::open_at(host, 1, 6)?;
    let interface = device.into_interface(host, 0)?;
    let mut endpoint = interface.into_endpoint::<Bulk, In>(host, 0x81)?;
    let deadline = host.now().saturating_add(SECOND);
    let done = match endpoint.submit_with_deadline(host, buffer, SECOND) {
        Ok(()) => {
            let mut done = endpoint.wait_next_complete(host, u64::MAX);
            if done.is_none() {
                host.idle(deadline); // the timer cancels it
                done = endpoint.wait_next_complete(host, u64::MAX);
            }
            Ok(done)
        }
        Err(_) => Err(Fail::Memory),
    };
    endpoint.close(host);
    done
}

/// Whether a packet that doesn't come is cancelled after a second.
pub fn is_cancelled_in_time(alloc: Global, host: &mut Host) -> bool {
    match read_by_deadline(alloc, host) {
        Ok(Some(done)) => done.status == Err(TransferError::Cancelled) && host.now() == SECOND,
        _ => false,
    }
}

/// Whether the packet is read.
pub fn has_packet(alloc: Global, host: &mut Host) -> bool {
    match read_packet(alloc, host) {
        Ok(Some(done)) => done.buffer.as_slice() == PACKET.as_slice(),
        _ => false,
    }
}

/// Opens the device, claims its interface, opens an endpoint, submits, closes all and reaps, again
/// and again. Says whether each table has room for at most one entry then.
pub fn leaves_room(alloc: Global, host: &mut Host) -> bool {
    for _ in 0..100_000 {
        if read_packet(alloc, host).is_err() {
            return false;
        }
        let _ = host.turn();
    }
    host.device_capacity() <= 1 && host.interface_capacity() <= 1 && host.endpoint_count() == 0
}
