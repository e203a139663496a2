//! The packets of udev that a script declares.

ghost use Rattle.std.specs.Prelude.{◌≡◌, IfOk};
ghost use Rattle.usb_session_tree.specs.Packets.{packet_of, packets_of};

use std::alloc::Global;
use std::collections::VecDeque;
use usb_desc::NoMemory;
use usb_enum::UdevPacket;
use usb_kernel::Bytes;
use usb_script_lines::Item;

/// The packet that a line declares.
fn packet_of(alloc: Global, item: &Item) -> Result<Option<UdevPacket>, NoMemory>
    ensures packet { IfOk result (λ p. p ≡ packet_of item.now) }
{
    match item {
        Item::Uevent { groups, bytes } => {
            let bytes = Bytes::from_slice(alloc, bytes.as_slice())?;
            Ok(Some(UdevPacket {
                groups: *groups,
                bytes,
            }))
        }
        _ => Ok(None),
    }
}

/// The packets that the lines declare, in order.
#[tactic(auto, unfolding(crate::specs::Packets::packets_of))]
pub fn packets_of(alloc: Global, items: &[Item]) -> Result<VecDeque<UdevPacket>, NoMemory>
    ensures packets { IfOk result (λ q. q.items ≡ packets_of items.now) }
{
    let mut packets = VecDeque::new(alloc);
    for item in items {
        if let Some(packet) = packet_of(alloc, item)? {
            let Ok(()) = packets.push_back(packet) else {
                return Err(NoMemory);
            };
        }
    }
    Ok(packets)
}
