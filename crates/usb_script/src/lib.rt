//! Whole scripts: their lines in order, the rules that look back at the lines before, and why a
//! script is not answered; and scripts that are generated, in which as many messages as are asked
//! for go from a writer to a reader, over a device that echoes each packet.
#![tactic(auto)]

mod error;
mod generated;
mod laws;
mod lines;
mod message;
mod order;
mod round_trip;
mod script;

pub use error::SessionError;
pub use generated::generate;
pub use laws::generated_scripts_parse;
pub use script::{MAX_SCRIPT, Script, parse_script};
