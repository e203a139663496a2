//! Tests of disks: the wrappers of commands and statuses as bytes, clients of Bulk-Only Transport at
//! a host, and such a client on a bus with a simulated disk.
#![tactic(auto)]

#[cfg(test)]
mod clients;
#[cfg(test)]
mod disks;
#[cfg(test)]
mod wrappers;
