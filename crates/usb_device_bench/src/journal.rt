//! What a driver sent, for its tests to look at.

ghost use Rattle.std.specs.Prelude.{◌≡◌, option_map};
ghost use Rattle.usb_device_bench.specs.Sent.{sent_by, last_sent};

use usb_device_host::Host;
use usb_kernel::{Body, Event};

/// The bytes of the last transfer that was submitted to the OUT endpoint of this address, if any was
/// that the kernel did not refuse. With the address 0x00 it is that of the last control transfer that
/// sends bytes, without its setup packet. The device need not have taken them.
pub fn sent(host: &Host, endpoint: u8) -> Option<&[u8]>
    ensures bytes { option_map (λ b. b.now) result ≡ last_sent endpoint host.now.kernel.past }
{
    let journal = host.kernel().journal();
    let mut found = None;
    for event in journal {
        found = sent_by(event, endpoint).or(found);
    }
    found
}

/// The bytes of the transfer that an event submits to the OUT endpoint of this address.
fn sent_by(event: &Event, endpoint: u8) -> Option<&[u8]>
    ensures bytes { option_map (λ b. b.now) result ≡ sent_by endpoint event.now }
{
    match event {
        Event::Submit {
            endpoint: address,
            body: Body::Sent(bytes),
            ..
        } if *address == endpoint => Some(bytes.as_slice()),
        _ => None,
    }
}
