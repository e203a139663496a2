//! To its client a simulated disk is a plain list of blocks: laws of reads and writes over the bus
//! with a disk, from a new disk and a new client on.
#![tactic(auto)]

mod laws;

pub use laws::{calls_are_of_blocks, disk_is_list, new_disk_serves, writes_are_gathered};
