//! A simulated disk behind Bulk-Only Transport (USB Mass Storage Class, Bulk-Only Transport,
//! revision 1.0): its blocks, how it answers commands packet by packet, and a bus on which it does.
#![tactic(auto)]

mod blank;
mod blanks;
mod block_disk;
mod blocks;
mod disk_bus;
mod stage;

pub use block_disk::BlockDisk;
pub use disk_bus::DiskBus;
pub use stage::Stage;
