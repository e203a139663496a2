//! Traces: the journal of a kernel as a text, and the check of such a text.
#![tactic(auto)]

mod check;
mod error;
mod event;
mod laws;
mod replay;
mod text;

pub use check::{Verdict, check_trace};
pub use error::TraceError;
pub use laws::{check_written, typed_is_trace, written_is_trace};
pub use usb_trace_lines::{Failed, Lines, MAX_LINE, write_trace};
