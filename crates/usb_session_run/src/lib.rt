//! A session: reads a script, answers it and writes the answers.
#![tactic(auto)]

mod checking;
mod generation;
mod live;
mod memory;
mod outside;
mod program;
mod reading;
mod rounds;
mod run;
mod standard;
mod sure;
mod tracing;
mod writing;

pub use memory::{MemSink, MemSource};
pub use outside::{Failed, Gathers, Sink, Source};
pub use program::{end_program, lack_memory, refuse_words, run_program};
pub use run::{Ran, run_script, run_session};
pub use standard::{StdSink, StdSource};
pub use sure::{SureSink, SureSource};
pub use usb_kernel::Kernel;
pub use usb_live::{Gate, OpenGate, Seen};
pub use usb_script::{Script, SessionError, generate, parse_script};
pub use usb_script_lines::{Item, Steps};
pub use usb_session::Summary;
