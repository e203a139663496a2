//! The lines of scripts for the simulated host, each by itself: its words, and the item that it gives.
#![tactic(auto)]

mod by_letter;
mod control_forms;
mod copies;
mod fields;
mod form;
mod item;
mod line;
mod other_forms;
mod reading;
mod several_forms;
mod tree_forms;

pub use item::Item;
pub use line::{read_line, read_words};
pub use reading::Reading;
pub use usb_script_words::{
    ControlData, ControlTarget, Criterion, Data, EndpointKind, Errno, FileName, Framing, Length,
    Name, Path, ReadLength, Selector, Setup, Steps, StringIndex, Target, Timeout, number_between,
};
