//! The tree of attributes of a session: what the lines of a script tell of it, of packets of udev and
//! of devices that are looked for, and the printed lines of enumeration, each appended to a text.
#![tactic(auto)]

mod attributes;
mod buses;
mod devices;
mod events;
mod listings;
mod packets;
mod parts;
mod selecting;
mod trees;

pub use attributes::{write_match, write_sysfs_error};
pub use buses::write_buses;
pub use devices::write_info;
pub use events::write_hotplug;
pub use listings::write_devices;
pub use packets::packets_of;
pub use selecting::{match_at, probe_at};
pub use trees::tree_of;
