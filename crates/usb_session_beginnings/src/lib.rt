//! That the answers to the first lines of a script are the first of its answers: a law over all scripts.
#![tactic(auto)]

mod laws;

pub use laws::beginnings_are_answered_alike;
