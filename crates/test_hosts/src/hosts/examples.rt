//! The examples of doc comments, as they stand there, at a host whose device sends a packet and takes
//! one.

ghost use Rattle.std.specs.Prelude.{◌≡◌, ◌≢◌, []};
ghost use Rattle.usb_device_endpoint.specs.Handles.{Stands};
ghost use Rattle.usb_device_host.specs.HostBus.{bus_of};

use crate::hosts::PACKET;
use std::alloc::Global;
use usb_desc::NoMemory;
use usb_device::{Bulk, Device, Endpoint, Error, Fail, Host, In, Kernel, Out, SimDevice};
use usb_io::{EndpointRead, EndpointWrite};
use usb_msg::MsgClient;

/// Whether a host of a kernel with these devices has none at address 6 of bus 1.
pub fn has_none(alloc: Global, devices: Vec<(u8, SimDevice)>) -> Result<bool, NoMemory> {
    let kernel = Kernel::new(alloc, devices)?;
    let mut host = Host::new(alloc, kernel);
    let opened = Device::open_at(&mut host, 1, 6);
    match opened {
        Ok(device) => {
            device.close(&mut host);
            Ok(false)
        }
        Err(_) => Ok(true),
    }
}

/// The number of the vendor of the device.
fn vendor_of(host: &mut Host) -> Result<u16, Fail<Error>> {
    let device = Device::open_at(host, 1, 6)?;
    let vendor = device.device_descriptor(host).vendor_id();
    device.close(host);
    Ok(vendor)
}

/// Whether the alternate setting 1 of interface 0 is selected.
fn selects_other(host: &mut Host) -> Result<bool, Fail<Error>> {
    let device = Device::open_at(host, 1, 6)?;
    let interface = device.into_interface(host, 0)?;
    let selected = interface.set_alt_setting(host, 1);
    interface.close(host);
    Ok(selected.is_ok())
}

/// Whether a reader gives the bytes of the packet.
fn reads(host: &mut Host, endpoint: Endpoint<Bulk, In>) -> bool
    requires stands { Stands (bus_of host.old) endpoint }
{
    let mut reader = EndpointRead::new(endpoint, 512);
    reader.set_read_timeout(1_000_000_000);
    let mut bytes = [0; 64];
    let read = reader.read(host, &mut bytes);
    reader.close(host);
    matches!(read, Ok(3)) && bytes[0] == PACKET[0] && bytes[2] == PACKET[2]
}

/// Whether a writer takes three bytes, and they arrive.
fn writes(host: &mut Host, endpoint: Endpoint<Bulk, Out>) -> bool
    requires stands { Stands (bus_of host.old) endpoint }
{
    let mut writer = EndpointWrite::new(endpoint, 512);
    let wrote = writer.write(host, &[1, 2, 3]);
    let flushed = writer.flush(host);
    writer.close(host);
    matches!(wrote, Ok(3)) && flushed.is_ok()
}

/// Reads and writes at the device's endpoints.
fn streams(host: &mut Host) -> Result<bool, Fail<Error>> {
    let interface = Device::open_at(host, 1, 6)?.into_interface(host, 0)?;
    let endpoint = interface.into_endpoint::<Bulk, In>(host, 0x81)?;
    let is_read = reads(host, endpoint);
    let interface = Device::open_at(host, 1, 6)?.into_interface(host, 0)?;
    let endpoint = interface.into_endpoint::<Bulk, Out>(host, 0x02)?;
    let is_written = writes(host, endpoint);
    Ok(is_read && is_written)
}

/// The tag of a request, which is sent by a client over two endpoints with nothing pending.
fn tag_of(
    host: &mut Host,
    out: Endpoint<Bulk, Out>,
    inp: Endpoint<Bulk, In>,
) -> Result<u32, NoMemory>
    requires out { Stands (bus_of host.old) out }
    requires inp { Stands (bus_of host.old) inp }
    requires apart { out.key ≢ inp.key }
    requires out_idle { out.pending ≡ [] }
    requires in_idle { inp.pending ≡ [] }
{
    match MsgClient::new(out, inp) {
        Ok(mut client) => {
            let tag = client.request(host, &[1, 2, 3]);
            client.close(host);
            tag.map_err(|_| NoMemory)
        }
        Err((out, inp)) => {
            out.close(host);
            inp.close(host);
            Err(NoMemory)
        }
    }
}

/// Makes a request of the device.
fn asks(host: &mut Host) -> Result<bool, Fail<Error>> {
    let interface = Device::open_at(host, 1, 6)?.into_interface(host, 0)?;
    match interface.endpoint::<Bulk, In>(host, 0x81) {
        Ok(inp) => match interface.into_endpoint::<Bulk, Out>(host, 0x02) {
            Ok(out) => Ok(tag_of(host, out, inp)? == 0),
            Err(error) => {
                inp.close(host);
                Err(error)
            }
        },
        Err(error) => {
            interface.close(host);
            Err(error)
        }
    }
}

/// Whether the examples do at a host what they say.
pub fn do_as_said(host: &mut Host) -> Result<bool, Fail<Error>> {
    let is_vendor = vendor_of(host)? == 0xaaaa;
    let is_refused = !selects_other(host)?;
    Ok(is_vendor && is_refused && streams(host)? && asks(host)?)
}
