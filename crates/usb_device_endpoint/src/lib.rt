//! Endpoints over any bus: queues of transfers, whose completions are taken in the order of
//! submission. The bus is what an endpoint asks of whatever lies below it, as a trait whose clauses
//! are its whole meaning.
#![tactic(auto)]

mod bus;
mod endpoint;
mod enter;
mod kernel_bus;
mod kernel_slots;
mod laws;
mod next_complete;
mod route;
mod waits;

pub use bus::Bus;
pub use endpoint::Endpoint;
pub use kernel_bus::KernelBus;
pub use laws::{calls_keep_other_endpoints, completions_come_in_order, tickets_end_once};
pub use next_complete::NextComplete;
pub use route::{Route, Turn};
