//! Rounds of commands at a simulated disk: each writes blocks, and reads them again.
#![tactic(auto)]

mod disk;
mod round;
mod rounds;
mod tally;

pub use rounds::run_rounds;
pub use tally::Tally;
