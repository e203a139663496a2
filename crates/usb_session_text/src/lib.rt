//! The printed lines of a session: answers of calls, and fates of tickets. Each is appended to a text.
#![tactic(auto)]

mod calls;
mod completions;
mod controls;
mod descriptors;
mod devices;
mod settings;
mod tickets;
mod words;

pub use calls::{write_condition, write_error, write_ok, write_result};
pub use completions::{write_count, write_now, write_polled, write_waited};
pub use controls::{
    write_descriptor, write_languages, write_pending, write_received, write_sent, write_string,
};
pub use descriptors::{write_descriptors, write_interface};
pub use devices::write_device;
pub use settings::{
    word_of_speed, write_alt_setting, write_configuration, write_no_configuration, write_speed,
};
pub use tickets::write_ticket;
pub use words::{
    end_line, push_bytes, push_class_code, push_four_digits, push_number, push_number_part,
    push_space, push_two_digits,
};
