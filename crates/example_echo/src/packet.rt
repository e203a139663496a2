//! One packet, read from a device that is opened for it: the shortest driver.

ghost use Rattle.example_echo.specs.Packets.{ReadsPacket};

use usb_device::{Buffer, Bulk, Completion, Device, Error, Fail, Host, In};

/// Reads one packet from the device at bus 1, address 6, within a second.
pub fn read_packet(host: &mut Host) -> Result<Option<Completion>, Fail<Error>>
    ensures reads { ReadsPacket host.old host.new result }
{
    let buffer = Buffer::new(host.allocator(), 64)?;
    let device = Device::open_at(host, 1, 6)?;
    let interface = device.into_interface(host, 0)?;
    let mut endpoint = interface.into_endpoint::<Bulk, In>(host, 0x81)?;
    let done = match endpoint.submit(host, buffer) {
        Ok(()) => Ok(endpoint.wait_next_complete(host, 1_000_000_000)),
        Err(_) => Err(Fail::Memory),
    };
    endpoint.close(host); // cancels what is pending
    done
}
