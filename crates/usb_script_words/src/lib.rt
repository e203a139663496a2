//! The words of a script, what each of them spells, and the steps of the simulation as lines tell
//! them.
#![tactic(auto)]

mod control;
mod endpoint_kind;
mod error_number;
mod fields;
mod framing;
mod kernel_steps;
mod length;
mod line;
mod line_bytes;
mod line_error;
mod name;
mod places;
mod read_length;
mod selector;
mod step;
mod string_index;
mod timeout;
mod words;

pub use control::{ControlTarget, Setup, data_length, setup_and_more};
pub use endpoint_kind::EndpointKind;
pub use error_number::Errno;
pub use fields::{
    four_words, no_word, one_and_more, one_word, six_words, three_and_more, three_words,
    two_and_more, two_words,
};
pub use framing::Framing;
pub use kernel_steps::Steps;
pub use length::Length;
pub use line::{own_steps, steps};
pub use line_bytes::{ControlData, Data};
pub use line_error::LineError;
pub use name::Name;
pub use places::{FileName, Path, Target, value};
pub use read_length::ReadLength;
pub use selector::{Criterion, Selector};
pub use string_index::StringIndex;
pub use timeout::Timeout;
pub use words::{
    MAX_TIME, byte, call, errno, hex_byte, hex_word, is_skipped, number, number_between, reads,
    skip_spaces, split_first_line, split_words,
};
