//! A driver of a boot keyboard (HID 1.11, appendix B), to be copied: it opens the device, claims its
//! interface, and reads reports from its interrupt endpoint until it is unplugged.
//!
//! The tests (`tests.rt`) run it on a device that is simulated, by the crate `usb_device_bench`.
#![tactic(auto)]

mod driver;
mod end;
mod report;
#[cfg(test)]
mod tests;

pub use driver::read_reports;
pub use end::End;
pub use report::Report;
