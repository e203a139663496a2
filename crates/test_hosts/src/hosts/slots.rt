//! The slots of a host's tickets. Expected values come from the rules of the simulation.

ghost use Rattle.usb_device_endpoint.specs.Handles.{Stands};
ghost use Rattle.usb_device_host.specs.HostBus.{bus_of};

use crate::hosts::PACKET;
use std::alloc::Global;
use usb_device::{Buffer, Bulk, Bus, Device, Endpoint, Error, Fail, Host, In};

/// Submits a buffer, where it can be.
fn submit(alloc: Global, host: &mut Host, endpoint: &mut Endpoint<Bulk, In>) -> bool
    requires stands { Stands (bus_of host.old) endpoint.old }
    ensures stands { Stands (bus_of host.new) endpoint.new }
{
    if endpoint.pending() >= 64 {
        return false;
    }
    match Buffer::new(alloc, 64) {
        Ok(buffer) => endpoint.submit(host, buffer).is_ok(),
        Err(_) => false,
    }
}

/// Waits for the first pending transfer, and takes it. Says whether it has the packet.
fn take(host: &mut Host, endpoint: &mut Endpoint<Bulk, In>) -> bool
    requires stands { Stands (bus_of host.old) endpoint.old }
    ensures stands { Stands (bus_of host.new) endpoint.new }
{
    if endpoint.pending() == 0 {
        return false;
    }
    match endpoint.wait_next_complete(host, 1_000_000_000) {
        Some(done) => done.buffer.as_slice() == PACKET.as_slice(),
        None => false,
    }
}

/// Whether a hundred transfers, one after the other, stand in one slot.
fn are_in_one(alloc: Global, host: &mut Host, endpoint: &mut Endpoint<Bulk, In>) -> bool
    requires stands { Stands (bus_of host.old) endpoint.old }
    ensures stands { Stands (bus_of host.new) endpoint.new }
{
    'rounds: for _ in 0..100 {
        let submitted = submit(alloc, host, endpoint);
        let taken = take(host, endpoint);
        if !submitted || !taken || host.slot_count() != 1 {
            return false;
        }
    }
    true
}

/// Whether a transfer is lent from its reap until it is taken, and not before or after.
fn is_lent(alloc: Global, host: &mut Host, endpoint: &mut Endpoint<Bulk, In>) -> bool
    requires stands { Stands (bus_of host.old) endpoint.old }
    ensures stands { Stands (bus_of host.new) endpoint.new }
{
    let ticket = host.tickets();
    let submitted = submit(alloc, host, endpoint);
    let before = host.reaped(ticket).is_none();
    let _ = host.turn(); // its packet comes
    let _ = host.turn(); // and it is reaped
    let lent = match host.reaped(ticket) {
        Some(transfer) => transfer.control_in_data() == PACKET.as_slice(),
        None => false,
    };
    let taken = take(host, endpoint);
    submitted && before && lent && taken && host.reaped(ticket).is_none()
}

/// Whether three transfers that are pending at once stand in three slots, which stay.
fn are_in_three(alloc: Global, host: &mut Host, endpoint: &mut Endpoint<Bulk, In>) -> bool
    requires stands { Stands (bus_of host.old) endpoint.old }
    ensures stands { Stands (bus_of host.new) endpoint.new }
{
    'submits: for _ in 0..3 {
        if !submit(alloc, host, endpoint) {
            return false;
        }
    }
    let pending = host.slot_count();
    'takes: for _ in 0..3 {
        if !take(host, endpoint) {
            return false;
        }
    }
    pending == 3 && host.slot_count() == 3
}

/// What is found of the slots at bulk IN endpoint 0x81 of the device at bus 1 and address 6.
fn find(alloc: Global, host: &mut Host) -> Result<bool, Fail<Error>> {
    let device = Device::open_at(host, 1, 6)?;
    let interface = device.into_interface(host, 0)?;
    let mut endpoint = interface.into_endpoint::<Bulk, In>(host, 0x81)?;
    let one = are_in_one(alloc, host, &mut endpoint);
    let lent = is_lent(alloc, host, &mut endpoint);
    let three = are_in_three(alloc, host, &mut endpoint);
    endpoint.close(host);
    Ok(one && lent && three)
}

/// Whether the slots are used again, and their transfers lent.
pub fn has_slots(alloc: Global, host: &mut Host) -> bool {
    matches!(find(alloc, host), Ok(true))
}
