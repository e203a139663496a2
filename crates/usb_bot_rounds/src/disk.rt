//! A disk of 256 blocks on a bus, and a client of it.

ghost use Rattle.std.specs.Prelude.{◌≡◌, ◌≢◌, ◌%◌, [], Ok, IfOk, OnOk, IfErr, OnErr, IsErr};
ghost use Rattle.usb_desc.specs.declared.error.Fail.TheVariants.{Memory};
ghost use Rattle.usb_device_endpoint.specs.Handles.{Stands};
ghost use Rattle.usb_device.specs.KeptHandles.{StandBesideInterface};
ghost use Rattle.usb_device_host.specs.HostBus.{bus_of};
ghost use Rattle.usb_device_host.specs.HandleStates.{StandsDevice, StandsInterface};
ghost use Rattle.usb_bot.specs.Clients.{StandBoth};
ghost use Rattle.usb_bot_disk.specs.DiskCalls.{disk_bus_of};
ghost use Rattle.usb_bot_law.specs.Serving.{Serves};
ghost use Rattle.usb_bot_rounds.specs.Rounds.{zeros};
ghost use Rattle.usb_bot_rounds.specs.Starts.{first_device, kernel_with, first_host, held_host, claimed_host, listening_host, opened_host, first_interface, out, inp};

use std::alloc::Global;
use usb_bot::BotClient;
use usb_bot_disk::{BlockDisk, DiskBus};
use usb_desc::NoMemory;
use usb_device::{
    Bulk, Bytes, Descriptors, Device, Endpoint, Error, Fail, Host, In, Interface, Kernel, Out,
    SimDevice,
};

/// The descriptors of the device: one configuration with one interface, a bulk IN endpoint 0x81 and
/// a bulk OUT endpoint 0x02 of packets of 64 bytes.
const DESCRIPTORS: [u8; 50] = [
    0x12, 0x01, 0x00, 0x02, 0x00, 0x00, 0x00, 0x40, 0xaa, 0xaa, 0xbb, 0xbb, 0x00, 0x01, 0x00, 0x00,
    0x00, 0x01, 0x09, 0x02, 0x20, 0x00, 0x01, 0x01, 0x00, 0x80, 0x32, 0x09, 0x04, 0x00, 0x00, 0x02,
    0xff, 0x00, 0x00, 0x00, 0x07, 0x05, 0x81, 0x02, 0x40, 0x00, 0x00, 0x07, 0x05, 0x02, 0x02, 0x40,
    0x00, 0x00,
];

/// The device, at address 6 of bus 1.
fn new_device(alloc: Global) -> Result<SimDevice, NoMemory>
    ensures device { IfOk result (λ device. device ≡ first_device) }
{
    Ok(SimDevice {
        bus: 1,
        address: 6,
        speed: 3,
        config: 1,
        bytes: Descriptors::from_slice(alloc, &DESCRIPTORS)?,
        drivers: Bytes::from_vec(Vec::new(alloc)),
    })
}

/// A kernel with this device alone, whose number is 0.
fn new_kernel(alloc: Global, device: SimDevice) -> Result<Kernel, NoMemory>
    ensures kernel { IfOk result (λ kernel. kernel ≡ kernel_with device) }
{
    match vec![in alloc; (0, device)] {
        Ok(devices) => Kernel::new(alloc, devices),
        Err(_) => Err(NoMemory),
    }
}

/// A host with the device alone.
#[tactic(auto, unfolding(crate::specs::Starts::first_host))]
fn new_host(alloc: Global) -> Result<Host, NoMemory>
    ensures host { IfOk result (λ host. host ≡ first_host) }
{
    let device = new_device(alloc)?;
    Ok(Host::new(alloc, new_kernel(alloc, device)?))
}

/// What was opened, unless memory was lacking. Nothing else may have refused it.
fn unrefused<T>(opened: Result<T, Fail<Error>>) -> Result<T, NoMemory>
    requires memory { IfErr opened (λ e. e ≡ Memory) }
    ensures ok { IfOk result (λ handle. opened ≡ Ok handle) }
    ensures err { OnErr result (IsErr opened) }
{
    match opened {
        Ok(handle) => Ok(handle),
        Err(Fail::Memory) => Err(NoMemory),
        Err(Fail::Cause(_)) => unreachable!(),
    }
}

/// Opens the device.
fn open_device(host: &mut Host) -> Result<Device, NoMemory>
    requires first { host.old ≡ first_host }
    ensures host { OnOk result (host.new ≡ held_host) }
    ensures device { IfOk result (λ device. device ≡ 0) }
    ensures stands { IfOk result (StandsDevice host.new) }
{
    unrefused(Device::open_at(host, 1, 6))
}

/// Opens the device, and claims its interface.
fn open_interface(host: &mut Host) -> Result<Interface, NoMemory>
    requires first { host.old ≡ first_host }
    ensures host { OnOk result (host.new ≡ claimed_host) }
    ensures interface { IfOk result (λ interface. interface ≡ first_interface) }
    ensures stands { IfOk result (StandsInterface host.new) }
{
    let device = open_device(host)?;
    unrefused(device.into_interface(host, 0))
}

/// Opens the IN endpoint.
fn open_input(interface: &Interface, host: &mut Host) -> Result<Endpoint<Bulk, In>, NoMemory>
    requires first { host.old ≡ claimed_host }
    requires key { interface.now.key ≡ 0 }
    requires interface { StandsInterface host.old interface.now }
    ensures host { OnOk result (host.new ≡ listening_host) }
    ensures endpoint { IfOk result (λ endpoint. endpoint ≡ inp) }
    ensures interface { StandsInterface host.new interface.now }
    ensures stands { IfOk result (Stands (bus_of host.new)) }
{
    unrefused(interface.endpoint::<Bulk, In>(host, 0x81))
}

/// Opens the OUT endpoint, which then holds the claim of the interface.
fn open_output(interface: Interface, host: &mut Host) -> Result<Endpoint<Bulk, Out>, NoMemory>
    requires first { host.old ≡ listening_host }
    requires key { interface.key ≡ 0 }
    requires interface { StandsInterface host.old interface }
    ensures host { OnOk result (host.new ≡ opened_host) }
    ensures endpoint { IfOk result (λ endpoint. endpoint ≡ out) }
    ensures handles { StandBesideInterface host.old host.new interface.key }
{
    unrefused(interface.into_endpoint::<Bulk, Out>(host, 0x02))
}

/// Opens both endpoints.
fn open_endpoints(host: &mut Host) -> Result<(Endpoint<Bulk, Out>, Endpoint<Bulk, In>), NoMemory>
    requires first { host.old ≡ first_host }
    ensures host { OnOk result (host.new ≡ opened_host) }
    ensures endpoints { IfOk result (λ ends. (ends.0 ≡ out) × (ends.1 ≡ inp)) }
{
    let interface = open_interface(host)?;
    match open_input(&interface, host) {
        Ok(inp) => match open_output(interface, host) {
            Ok(out) => Ok((out, inp)),
            Err(error) => {
                inp.close(host);
                Err(error)
            }
        },
        Err(error) => {
            interface.close(host);
            Err(error)
        }
    }
}

/// A new disk of 256 blocks, and a new client.
///
/// # Errors
///
/// Want of memory.
pub(crate) fn new_disk(alloc: Global) -> Result<(DiskBus, BotClient), NoMemory>
    ensures serves { IfOk result (λ made. Serves made.0 made.1 zeros) }
    ensures stand { IfOk result (λ made. StandBoth (disk_bus_of made.0) made.1) }
{
    let disk = BlockDisk::new(alloc, 256)?;
    let mut host = new_host(alloc)?;
    let (out, inp) = open_endpoints(&mut host)?;
    let client = BotClient::new(out, inp);
    Ok((DiskBus::new(host, disk, 0, 0x02, 0x81), client))
}
