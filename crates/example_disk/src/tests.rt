//! The driver on a simulated disk. Expected values come from the rules of the disk: its blocks hold
//! zeros at first, and a command that passes its end fails and moves nothing. A command is three
//! transfers (Bulk-Only Transport, section 5): a wrapper, the data and the status.

ghost use Rattle.std.specs.Prelude.{◌≡◌, ◌+◌, ◌<◌, ◌≤◌, ◌^◌, [], IfOk};
ghost use Rattle.usb_device_endpoint.specs.Handles.{Stands};
ghost use Rattle.usb_device_host.specs.HostBus.{bus_of};
ghost use Rattle.usb_device_host.specs.HandleStates.{StandsInterface};
ghost use Rattle.usb_bot.specs.Clients.{StandBoth};
ghost use Rattle.usb_bot_disk.specs.DiskCalls.{disk_bus_of};

use crate::{Fault, Partition};
use std::alloc::Global;
use std::test;
use usb_bot::{BotClient, BotError};
use usb_bot_disk::{BlockDisk, DiskBus};
use usb_device::{Bulk, Device, Endpoint, Error, Fail, Host, In, Interface, Out};
use usb_device_bench::SimBench;

/// A device of one configuration of value 1 with interface 0, which has the bulk endpoints 0x81 and
/// 0x02, of packets of 64 bytes.
const DEVICE: [u8; 50] = [
    0x12, 0x01, 0x00, 0x02, 0x00, 0x00, 0x00, 0x40, 0xaa, 0xaa, 0xbb, 0xbb, 0x00, 0x01, 0x00, 0x00,
    0x00, 0x01, 0x09, 0x02, 0x20, 0x00, 0x01, 0x01, 0x00, 0x80, 0x32, 0x09, 0x04, 0x00, 0x00, 0x02,
    0x08, 0x06, 0x50, 0x00, 0x07, 0x05, 0x81, 0x02, 0x40, 0x00, 0x00, 0x07, 0x05, 0x02, 0x02, 0x40,
    0x00, 0x00,
];

/// The bytes of two blocks.
const ONES: [u8; 512] = [0x11; 512];

const TWOS: [u8; 512] = [0x22; 512];

/// A client over both endpoints.
fn open_client(host: &mut Host) -> Result<BotClient, Fail<Error>>
    ensures stand { IfOk result (StandBoth (bus_of host.new)) }
{
    let interface = Device::open_at(host, 1, 6)?.into_interface(host, 0)?;
    match interface.endpoint::<Bulk, In>(host, 0x81) {
        Ok(inp) => with_input(host, interface, inp),
        Err(error) => {
            interface.close(host);
            Err(error)
        }
    }
}

/// A client over the IN endpoint and the OUT endpoint beside it.
fn with_input(
    host: &mut Host,
    interface: Interface,
    inp: Endpoint<Bulk, In>,
) -> Result<BotClient, Fail<Error>>
    requires interface { StandsInterface host.old interface }
    requires inp { Stands (bus_of host.old) inp }
    requires none { inp.pending ≡ [] }
    ensures stand { IfOk result (StandBoth (bus_of host.new)) }
{
    match interface.into_endpoint::<Bulk, Out>(host, 0x02) {
        Ok(out) => {
            if 512 % inp.max_packet_size() == 0 {
                return Ok(BotClient::new(out, inp));
            }
            inp.close(host);
            out.close(host);
            Err(Fail::Memory)
        }
        Err(error) => {
            inp.close(host);
            Err(error)
        }
    }
}

/// A bus with a disk of six blocks, and a partition of it.
fn open_partition(
    alloc: Global,
    first: u32,
    blocks: u32,
) -> Result<(DiskBus, Partition), Fail<Error>>
    requires fits { first + blocks ≤ 2 ^ 32 }
    ensures stand { IfOk result (λ opened. StandBoth (disk_bus_of opened.0) opened.1.client) }
{
    let disk = BlockDisk::new(alloc, 6)?;
    let mut host = SimBench::new(alloc, &DEVICE)?.host()?;
    let client = open_client(&mut host)?;
    let bus = DiskBus::new(host, disk, 0, 0x02, 0x81);
    Ok((bus, Partition::new(client, first, blocks)))
}

/// Whether a read answered a block of this value.
fn holds(answer: Result<Vec<u8>, Fault>, byte: u8) -> bool {
    match answer {
        Ok(bytes) => bytes.len() == 512 && bytes.iter().all(|b| *b == byte),
        Err(_) => false,
    }
}

/// Whether a block of a disk's bytes has this value.
fn block_is(bytes: &[u8], block: usize, byte: u8) -> bool
    requires small { block < 2 ^ 16 }
{
    match bytes.get(block * 512..block * 512 + 512) {
        Some(bytes) => bytes.iter().all(|b| *b == byte),
        None => false,
    }
}

/// Whether a partition of three blocks reads what was written to its first and its last.
fn keeps_blocks(bus: &mut DiskBus, partition: &mut Partition) -> bool
    requires stand { StandBoth (disk_bus_of bus.old) partition.old.client }
    ensures stand { StandBoth (disk_bus_of bus.new) partition.new.client }
{
    let before = partition.read(bus, 0);
    let wrote_first = partition.write(bus, 0, &ONES);
    let wrote_last = partition.write(bus, 2, &TWOS);
    let first = partition.read(bus, 0);
    let middle = partition.read(bus, 1);
    let last = partition.read(bus, 2);
    let reads = holds(before, 0) && holds(first, 0x11) && holds(middle, 0) && holds(last, 0x22);
    reads && wrote_first.is_ok() && wrote_last.is_ok()
}

#[test]
fn a_partition_has_its_own_blocks_of_the_disk(rt: HostRuntime) -> Result<(), test::Fail> {
    let (mut bus, mut partition) = open_partition(rt.alloc(), 2, 3)?;
    let keeps = keeps_blocks(&mut bus, &mut partition);
    partition.close(&mut bus);
    assert!(rt; keeps);
    let disk = bus.disk().as_slice();
    for (block, byte) in [(0, 0), (1, 0), (2, 0x11), (3, 0), (4, 0x22), (5, 0)] {
        assert!(rt; block_is(disk, block, byte), "block {block}");
    }
    assert_eq!(rt; bus.host_mut().endpoint_count(), 0);
    Ok(())
}

#[test]
fn a_block_outside_is_not_asked_for(rt: HostRuntime) -> Result<(), test::Fail> {
    let (mut bus, mut partition) = open_partition(rt.alloc(), 2, 3)?;
    let blocks = partition.blocks();
    let behind = partition.read(&mut bus, 3);
    let far = partition.read(&mut bus, 4_294_967_295);
    let wrote = partition.write(&mut bus, 3, &ONES);
    let last = partition.read(&mut bus, 2);
    partition.close(&mut bus);
    assert_eq!(rt; blocks, 3);
    assert!(rt; matches!(&behind, Err(Fault::Outside)));
    assert!(rt; matches!(&far, Err(Fault::Outside)));
    assert!(rt; matches!(&wrote, Err(Fault::Outside)));
    assert!(rt; holds(last, 0));
    assert_eq!(rt; bus.host_mut().tickets(), 3);
    Ok(())
}

#[test]
fn the_disk_fails_a_block_that_it_does_not_have(rt: HostRuntime) -> Result<(), test::Fail> {
    let (mut bus, mut partition) = open_partition(rt.alloc(), 5, 2)?;
    let behind = partition.read(&mut bus, 1);
    let wrote = partition.write(&mut bus, 1, &ONES);
    let first = partition.read(&mut bus, 0);
    partition.close(&mut bus);
    let failed = BotError::Failed { residue: 512 };
    assert!(rt; matches!(&behind, Err(Fault::Disk(error)) if *error == failed));
    assert!(rt; matches!(&wrote, Err(Fault::Disk(error)) if *error == failed));
    assert!(rt; holds(first, 0));
    Ok(())
}
