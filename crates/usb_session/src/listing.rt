//! `list` and `buses`: the devices and the buses of the tree.

ghost use Rattle.usb_session_calls.specs.Answered.{Answers};
ghost use Rattle.usb_session.specs.Listings.{list_answer, buses_answer};

use crate::session::Session;
use usb_desc::{Fail, NoMemory};
use usb_enum::{list_buses, list_devices};
use usb_session_text::write_error;
use usb_session_tree::{write_buses, write_devices};

impl Session {
    /// `list`: the devices of the listing, or why there is none.
    pub(crate) fn list(&self, line: &mut String) -> Result<(), NoMemory>
        ensures answered { Answers self.now self.now line.old line.new result list_answer }
    {
        match list_devices(*line.allocator(), &self.tree) {
            Ok(devices) => write_devices(line, &devices),
            Err(Fail::Cause(error)) => write_error(line, &error),
            Err(Fail::Memory) => Err(NoMemory),
        }
    }

    /// `buses`: the buses, or why there is no listing.
    pub(crate) fn buses(&self, line: &mut String) -> Result<(), NoMemory>
        ensures answered { Answers self.now self.now line.old line.new result buses_answer }
    {
        match list_buses(*line.allocator(), &self.tree) {
            Ok(buses) => write_buses(line, &buses),
            Err(Fail::Cause(error)) => write_error(line, &error),
            Err(Fail::Memory) => Err(NoMemory),
        }
    }
}
