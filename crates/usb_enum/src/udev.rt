//! Packets of udev.

ghost use Rattle.std.specs.Prelude.{◌≡◌, ◌==◌, ◌≤◌, ◌+◌, nat_eq, length, codes};
ghost use Rattle.std.specs.List.{list_any, starts_with};
ghost use Rattle.std.specs.Option.{option_map, option_to_list};
ghost use Rattle.usb_enum.specs.Announcements.{notice_of_announcement};
ghost use Rattle.usb_enum.specs.Udev.{received, magic, number_at, section, property_bytes, property, properties, last_value, last_or, is_foreign, notice_of, notice_in};

use usb_enum_sysfs::decimal_byte;

/// The first bytes of each packet: a name, and a number with its high bytes first.
const MAGIC: [u8; 12] = *b"libudev\0\xfe\xed\xca\xfe";

/// The most bytes of a packet that are received.
const RECEIVED: usize = 8192;

/// What a packet tells: that a device came or went, where it is, and the path of its folder below
/// `/sys`.
#[derive(Clone, Copy)]
pub struct Announcement<'p> {
    pub added: bool,
    pub busnum: u8,
    pub address: u8,
    pub path: &'p str,
}

/// What a packet tells, where it tells of a device that came or went.
pub fn notice_in(packet: &[u8]) -> Option<Announcement<'_>>
    ensures notice { option_map notice_of_announcement result ≡ notice_in packet.now }
{
    match property_bytes(received(packet)) {
        Some(bytes) => notice_of(bytes),
        None => None,
    }
}

/// A packet, as far as it is received.
fn received(packet: &[u8]) -> &[u8]
    ensures bytes { result.now ≡ received packet.now }
{
    if packet.len() <= RECEIVED {
        return packet;
    }
    let (front, _rest) = packet.split_at(RECEIVED);
    front
}

fn property_bytes(packet: &[u8]) -> Option<&[u8]>
    ensures bytes { option_map (λ b. b.now) result ≡ property_bytes packet.now }
{
    if packet.len() < 24 || !packet.starts_with(&MAGIC) {
        return None;
    }
    section(packet, number_at(packet, 16), number_at(packet, 20))
}

/// The number of 32 bits at a place, low bytes first.
fn number_at(packet: &[u8], at: usize) -> u32
    requires { at + 4 ≤ length packet.now }
    ensures number { result ≡ number_at packet.now at }
{
    u32::from_le_bytes([packet[at], packet[at + 1], packet[at + 2], packet[at + 3]])
}

fn section(packet: &[u8], offset: u32, len: u32) -> Option<&[u8]>
    ensures bytes { option_map (λ b. b.now) result ≡ section offset len packet.now }
{
    let offset = offset as usize;
    let end = offset + len as usize;
    if end <= packet.len() {
        Some(&packet[offset..end])
    } else {
        None
    }
}

/// The key and the value of a property, where it is one.
fn property(entry: &[u8]) -> Option<(&str, &str)>
    ensures property { option_map (λ p. (p.0.now, p.1.now)) result ≡ property entry.now }
{
    match str::from_utf8(entry) {
        Ok(text) => text.split_once('='),
        Err(_) => None,
    }
}

/// The last value of a key.
fn last_value<'p>(bytes: &'p [u8], wanted: &str) -> Option<&'p str>
    ensures value { option_map (λ v. v.now) result ≡ last_value wanted.now (properties bytes.now) }
{
    let mut found = None;
    for entry in bytes.split(|b| *b == 0) {
        found = later_value(found, entry, wanted);
    }
    found
}

/// The value of this entry, where it has the key, else the one found before.
fn later_value<'p>(found: Option<&'p str>, entry: &'p [u8], wanted: &str) -> Option<&'p str>
    ensures value { option_map (λ v. v.now) result
        ≡ last_or (option_map (λ v. v.now) found.entry) wanted.now
        (option_to_list (property entry.now)) }
{
    match property(entry) {
        Some((key, value)) if key == wanted => Some(value),
        _ => found,
    }
}

/// Whether the packet is of no device that comes or goes.
fn has_foreign(bytes: &[u8]) -> bool
    ensures value { result ≡ list_any is_foreign (properties bytes.now) }
{
    for entry in bytes.split(|b| *b == 0) {
        if is_foreign_entry(entry) {
            return true;
        }
    }
    false
}

fn is_foreign_entry(entry: &[u8]) -> bool
    ensures value { result ≡ list_any is_foreign (option_to_list (property entry.now)) }
{
    match property(entry) {
        Some((key, value)) => is_foreign(key, value),
        None => false,
    }
}

fn is_foreign(key: &str, value: &str) -> bool
    ensures value { result ≡ is_foreign (key.now, value.now) }
{
    match key {
        "SUBSYSTEM" => value != "usb",
        "DEVTYPE" => value != "usb_device",
        "ACTION" => value != "add" && value != "remove",
        _ => false,
    }
}

fn notice_of(bytes: &[u8]) -> Option<Announcement<'_>>
    ensures notice { option_map notice_of_announcement result ≡ notice_of (properties bytes.now) }
{
    if has_foreign(bytes) {
        return None;
    }
    let action = last_value(bytes, "ACTION")?;
    let busnum = decimal_byte(last_value(bytes, "BUSNUM")?)?;
    let address = decimal_byte(last_value(bytes, "DEVNUM")?)?;
    let path = last_value(bytes, "DEVPATH")?;
    Some(Announcement {
        added: action == "add",
        busnum,
        address,
        path,
    })
}
