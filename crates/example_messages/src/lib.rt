//! A driver of a device that answers messages, to be copied: it opens the device, claims its
//! interface, and asks over two bulk endpoints. A message is the bytes of packets up to one that is
//! shorter than the maximum packet size (USB 2.0, section 5.8.3).
//!
//! The tests (`tests.rt`) run it on a device that is simulated, by the crate `usb_device_bench`.
#![tactic(auto)]

mod ask;
mod fault;
mod messages;
#[cfg(test)]
mod tests;

pub use ask::LONGEST_ANSWER;
pub use fault::Fault;
pub use messages::Messages;
