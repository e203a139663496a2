//! Messages: requests over a writer and responses over a reader, with tags.
#![tactic(auto)]

mod client;
mod error;
mod faults;
mod frames;
mod gathering;
mod laws;
mod requests;
mod responses;
mod sending;
#[cfg(test)]
mod tests;

pub use client::MsgClient;
pub use error::{Ending, MsgError};
pub use laws::responses_are_messages;
