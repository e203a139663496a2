//! The line of a poll for devices that came or went.

ghost use Rattle.std.specs.Prelude.{◌≡◌, ◌++◌, OnOk, string_bytes};
ghost use Rattle.usb_session_tree.specs.Events.{connected_line, disconnected_line, event_line, hotplug_line};

use crate::devices::push_device;
use futures::task::Poll;
use usb_desc::NoMemory;
use usb_enum::{DeviceId, DeviceInfo, HotplugEvent};
use usb_session_text::{end_line, push_number_part};

/// Appends a device that came: `connected`, and the device with its interfaces.
#[tactic(auto, unfolding(crate::specs::Events::connected_line))]
fn write_connected(out: &mut String, device: &DeviceInfo) -> Result<(), NoMemory>
    ensures text { OnOk result
        (string_bytes out.new ≡ string_bytes out.old ++ connected_line device.now) }
{
    out.push_str("connected ")?;
    push_device(out, device)?;
    end_line(out)
}

/// Appends a device that went: `disconnected BUS ADDR`.
#[tactic(auto, unfolding(crate::specs::Events::disconnected_line))]
fn write_disconnected(out: &mut String, id: DeviceId) -> Result<(), NoMemory>
    ensures text { OnOk result
        (string_bytes out.new ≡ string_bytes out.old ++ disconnected_line id) }
{
    out.push_str("disconnected")?;
    push_number_part(out, u64::from(id.bus()))?;
    push_number_part(out, u64::from(id.address()))?;
    end_line(out)
}

/// Appends an event.
fn write_event(out: &mut String, event: &HotplugEvent) -> Result<(), NoMemory>
    ensures text { OnOk result
        (string_bytes out.new ≡ string_bytes out.old ++ event_line event.now) }
{
    match event {
        HotplugEvent::Connected(device) => write_connected(out, device),
        HotplugEvent::Disconnected(id) => write_disconnected(out, *id),
    }
}

/// Appends the answer of a poll: a device that came or went, or `pending`.
pub fn write_hotplug(out: &mut String, polled: &Poll<HotplugEvent>) -> Result<(), NoMemory>
    ensures text { OnOk result
        (string_bytes out.new ≡ string_bytes out.old ++ hotplug_line polled.now) }
{
    match polled {
        Poll::Ready(event) => write_event(out, event),
        Poll::Pending => {
            out.push_str("pending\n")?;
            Ok(())
        }
    }
}
