//! The answers of a session: its state, what each line of a script is answered, the end of the session and the fates
//! of its tickets.
#![tactic(auto)]

mod answer;
mod awaiting;
mod claiming;
mod client_names;
mod cloning;
mod closing;
mod ending;
mod endpoints;
mod families;
mod fates;
mod laws;
mod listing;
mod now;
mod opening;
mod probing;
mod reader_names;
mod session;
mod stepping;
mod summary;
mod watching;
mod writer_names;

pub use fates::{tickets, write_fate};
pub use laws::{
    clients_are_served, controls_are_served, endpoints_are_served_in_order, fates_are_final,
    framed_readers_follow, lines_print_what_they_took, polls_answer_for_their_place,
    readers_hand_over, scripts_go_on, writers_tell,
};
pub use session::Session;
pub use summary::Summary;
pub use usb_device::Host;
