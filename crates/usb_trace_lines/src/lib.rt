//! The lines of traces. A trace is the journal of a kernel as a text: a first line, a line for each
//! event, one for the fate of each ticket, and a last line. Here a trace is written, and single
//! lines are read.
#![tactic(auto)]

mod fate_line;
mod line;
mod lines;
mod order;
mod reading;
mod sized;
mod telling;
mod types;
mod words;
mod writing;

pub use fate_line::FateLine;
pub use line::TraceLine;
pub use lines::{Failed, Lines, MAX_LINE};
pub use order::Phase;
pub use sized::can_be_written;
pub use telling::{LineText, read_line};
pub use types::journal_is_typed;
pub use writing::write_trace;
