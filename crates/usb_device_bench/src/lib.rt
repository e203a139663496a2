//! A bench for the tests of drivers: a host with one simulated device, which makes the steps that a
//! test lists; and what a driver sent.
#![tactic(auto)]

mod bench;
mod journal;
#[cfg(test)]
mod tests;

pub use bench::SimBench;
pub use journal::sent;
