//! The ledger of a host: open devices, claimed interfaces, their endpoints and the tickets of these,
//! and who owns what, kept as counts and bits.
#![tactic(auto)]

mod devices;
mod ends;
mod ledger;
mod opened;
mod owners;
mod place;
mod pool;
mod standing;
mod ticket_slots;

pub use devices::Devices;
pub use ends::TicketEnd;
pub use ledger::{Ending, Ledger};
pub use opened::OpenDevice;
pub use owners::{Claim, EndedClaim};
