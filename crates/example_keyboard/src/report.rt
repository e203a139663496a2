//! Reports of a boot keyboard.

ghost use Rattle.std.specs.Prelude.{◌≡◌};
ghost use Rattle.example_keyboard.specs.Reports.{report_of};

/// A report of a boot keyboard (HID 1.11, appendix B, descriptor 1): the modifier keys that are
/// down, a bit for each, and the usages of up to six other keys, where 0 is none.
#[derive(Clone, Copy, PartialEq, Eq, Debug, Drop)]
pub struct Report {
    pub modifiers: u8,
    pub keys: [u8; 6],
}

impl Report {
    /// The report that a packet is. It has 8 bytes: the modifiers, one that is reserved, and the
    /// keys.
    pub fn from_packet(packet: &[u8]) -> Option<Report>
        ensures report { result ≡ report_of packet.now }
    {
        if packet.len() != 8 {
            return None;
        }
        Some(Report {
            modifiers: packet[0],
            keys: [
                packet[2], packet[3], packet[4], packet[5], packet[6], packet[7],
            ],
        })
    }
}
