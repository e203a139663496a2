//! How large what the journal of a script's run has is, and which way it goes: laws over all scripts.
#![tactic(auto)]

mod laws;

pub use laws::{bounded_journals_are_directed, bounded_journals_are_sized, journals_are_bounded};
