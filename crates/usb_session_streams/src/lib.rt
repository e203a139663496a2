//! The calls of readers, writers and clients of messages at a host, as lines of a session: when a
//! call is barred, what it prints, what it leaves of the host, and laws of it. Each line is appended
//! to a text.
#![tactic(auto)]

mod client_laws;
mod client_lines;
mod client_needs;
mod clients;
mod faults;
mod flushes;
mod needs;
mod read_needs;
mod reader_laws;
mod reads;
mod submissions;
mod writer_laws;
mod writes;
mod wrote;

pub use client_laws::{client_calls_go_on, client_calls_keep};
pub use clients::{request, response, write_count};
pub use faults::{write_io_fault, write_read_fault, write_write_fault};
pub use flushes::{flush, flush_end, poll_flush, poll_flush_end};
pub use needs::{MOST_PENDING, MOST_UNREAPED, bars_need, bars_transfers};
pub use read_needs::read_need;
pub use reader_laws::{calls_hand_over, framed_calls_follow, reader_calls_go_on};
pub use reads::{write_buffer, write_consumed_end, write_is_end, write_read};
pub use submissions::{submit, submit_end};
pub use writer_laws::{calls_tell, writer_calls_go_on};
pub use writes::{poll_write, write};
pub use wrote::write_wrote;
