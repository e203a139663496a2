//! The lines of a trace.

use crate::fate_line::FateLine;
use usb_kernel::Event;

/// A line of a trace.
#[derive(Drop)]
pub enum TraceLine {
    First,
    Event(Event),
    Fate(FateLine),
    Last,
}
