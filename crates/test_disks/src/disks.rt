//! A disk of four blocks behind the bulk endpoints 0x02 and 0x81 of device 0. Expected values come
//! from Bulk-Only Transport, and from the rules of the disk: its blocks hold zeros at first.

ghost use Rattle.std.specs.Prelude.{◌≡◌, [], IfOk};
ghost use Rattle.usb_device_endpoint.specs.Handles.{Stands};
ghost use Rattle.usb_device_host.specs.HostBus.{bus_of};
ghost use Rattle.usb_device_host.specs.HandleStates.{StandsInterface};
ghost use Rattle.usb_bot.specs.Clients.{StandBoth};
ghost use Rattle.usb_bot_disk.specs.DiskCalls.{disk_bus_of};

use std::alloc::Global;
use std::test::Fail as TestFail;
use usb_bot::{BotClient, BotError};
use usb_bot_disk::{BlockDisk, DiskBus};
use usb_device::{
    Bulk, Bytes, Descriptors, Device, Endpoint, Error, Fail, Host, In, Interface, Kernel, NoMemory,
    Out, SimDevice,
};

/// The descriptors of a device of one configuration of value 1 with interface 0, which has bulk IN
/// endpoint 0x81 and bulk OUT endpoint 0x02 of packets of 64 bytes.
const DEVICE: [u8; 50] = [
    0x12, 0x01, 0x00, 0x02, 0x00, 0x00, 0x00, 0x40, 0xaa, 0xaa, 0xbb, 0xbb, 0x00, 0x01, 0x00, 0x00,
    0x00, 0x01, 0x09, 0x02, 0x20, 0x00, 0x01, 0x01, 0x00, 0x80, 0x32, 0x09, 0x04, 0x00, 0x00, 0x02,
    0x08, 0x06, 0x50, 0x00, 0x07, 0x05, 0x81, 0x02, 0x40, 0x00, 0x00, 0x07, 0x05, 0x02, 0x02, 0x40,
    0x00, 0x00,
];

/// Two blocks.
const BLOCKS: [u8; 1024] = [0x5a; 1024];

/// A host of a kernel with device 0, at address 6 of bus 1, in the configuration of value 1.
fn new_host(alloc: Global) -> Result<Host, NoMemory> {
    let device = SimDevice {
        bus: 1,
        address: 6,
        speed: 3,
        config: 1,
        bytes: Descriptors::from_slice(alloc, &DEVICE)?,
        drivers: Bytes::from_vec(Vec::new(alloc)),
    };
    match vec![in alloc; (0, device)] {
        Ok(devices) => Ok(Host::new(alloc, Kernel::new(alloc, devices)?)),
        Err(_) => Err(NoMemory),
    }
}

/// A client over both endpoints.
fn open_client(host: &mut Host) -> Result<BotClient, Fail<Error>>
    ensures stand { IfOk result (StandBoth (bus_of host.new)) }
{
    let interface = Device::open_at(host, 1, 6)?.into_interface(host, 0)?;
    match interface.endpoint::<Bulk, In>(host, 0x81) {
        Ok(inp) => with_input(host, interface, inp),
        Err(error) => {
            interface.close(host);
            Err(error)
        }
    }
}

/// A client over the IN endpoint and the OUT endpoint beside it.
fn with_input(
    host: &mut Host,
    interface: Interface,
    inp: Endpoint<Bulk, In>,
) -> Result<BotClient, Fail<Error>>
    requires interface { StandsInterface host.old interface }
    requires inp { Stands (bus_of host.old) inp }
    requires none { inp.pending ≡ [] }
    ensures stand { IfOk result (StandBoth (bus_of host.new)) }
{
    match interface.into_endpoint::<Bulk, Out>(host, 0x02) {
        Ok(out) => {
            if 512 % inp.max_packet_size() == 0 {
                return Ok(BotClient::new(out, inp));
            }
            inp.close(host);
            out.close(host);
            Err(Fail::Memory)
        }
        Err(error) => {
            inp.close(host);
            Err(error)
        }
    }
}

/// Whether a read answered so many bytes of this value.
fn holds(answer: Result<Vec<u8>, BotError>, byte: u8, count: usize) -> bool {
    match answer {
        Ok(bytes) => bytes.len() == count && bytes.iter().all(|b| *b == byte),
        Err(_) => false,
    }
}

/// Whether a command failed with this residue.
fn has_failed<T: Drop>(answer: Result<T, BotError>, bytes: u32) -> bool {
    match answer {
        Err(BotError::Failed { residue }) => residue == bytes,
        _ => false,
    }
}

/// Whether the blocks hold zeros, then what is written to the last two, and whether commands that
/// pass the end fail and change nothing.
fn keeps_blocks(bus: &mut DiskBus, client: &mut BotClient) -> bool
    requires stand { StandBoth (disk_bus_of bus.old) client.old }
    ensures stand { StandBoth (disk_bus_of bus.new) client.new }
{
    let zeros = client.read(bus, 3, 1);
    let wrote = client.write(bus, 2, &BLOCKS);
    let last = client.read(bus, 2, 2);
    let first = client.read(bus, 0, 2);
    let behind = client.read(bus, 3, 2);
    let passed = client.write(bus, 3, &BLOCKS);
    let still = client.read(bus, 3, 1);
    let reads = holds(zeros, 0, 512) && holds(last, 0x5a, 1024) && holds(first, 0, 1024);
    let fails = has_failed(behind, 1024) && has_failed(passed, 1024) && holds(still, 0x5a, 512);
    reads && fails && wrote.is_ok() && bus.disk().blocks() == 4
}

/// Whether the bytes of the disk are those of the two blocks that were written, behind zeros.
fn is_written(bytes: &[u8]) -> bool {
    let half = bytes.len() / 2;
    let zeros = bytes[..half].iter().all(|b| *b == 0);
    let written = bytes[half..].iter().all(|b| *b == 0x5a);
    half == 1024 && zeros && written
}

/// Whether a client finds a disk as it is said to be.
fn is_so(alloc: Global) -> Result<bool, NoMemory> {
    let disk = BlockDisk::new(alloc, 4)?;
    let mut host = new_host(alloc)?;
    let Ok(mut client) = open_client(&mut host) else {
        return Ok(false);
    };
    let mut bus = DiskBus::new(host, disk, 0, 0x02, 0x81);
    let keeps = keeps_blocks(&mut bus, &mut client);
    client.close(&mut bus);
    Ok(keeps && is_written(bus.disk().as_slice()) && bus.host_mut().tickets() == 21)
}

#[test]
fn blocks_that_were_written_are_read(rt: HostRuntime) -> Result<(), TestFail> {
    let is_so = is_so(rt.alloc())?;
    assert!(&rt; is_so);
    Ok(())
}
