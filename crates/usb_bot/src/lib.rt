//! Bulk-Only Transport (USB Mass Storage Class, Bulk-Only Transport, revision 1.0): a client that
//! reads and writes blocks of a disk over two endpoints.
#![tactic(auto)]

mod client;
mod commands;
mod error;
mod judging;
mod laws;
mod stages;
mod wrapper;

pub use client::BotClient;
pub use error::BotError;
pub use laws::wrappers_are_read_back;
pub use wrapper::{Command, Operation, Status};
