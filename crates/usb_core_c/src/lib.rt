//! The host for callers in C and in Rust. Each export calls functions of the crates below, and says
//! their clauses again. Only `parts` walks by itself, since a caller in C is told places.
#![tactic(auto)]

pub mod descriptors;
pub mod parts;
pub mod session;
pub mod strings;
