//! Rows of cells: the owner of a queue of transfers and the handler of its completions share 64 cells, with no lock between them.
#![tactic(auto)]

mod endpoint;
mod entry;
mod gates;
mod handler;
mod laws;
mod locked;
mod looping;
mod plays;
mod round;
mod row;
mod runs;
mod seats;
mod view;

pub use endpoint::{LiveEndpoint, live_endpoint_is_send};
pub use entry::{Entry, LiveError, Receipt, Tally};
pub use gates::{Gate, OpenGate, Seen, open_gate_is_send, seen_is_send_and_sync};
pub use laws::{each_step_of_the_handler_keeps_the_rule, each_step_of_the_owner_keeps_the_rule};
pub use locked::{LiveKernel, live_kernel_is_send_and_sync};
pub use looping::event_loop;
pub use round::Round;
pub use row::Row;
pub use runs::{LiveRun, live_run};
pub use seats::{CellStep, HandlerSeat, OwnerSeat, handler_seat_is_send, owner_seat_is_send};
pub use view::{Handled, HandlerCell, Owned, OwnerCell, Side, Transfer, View};
