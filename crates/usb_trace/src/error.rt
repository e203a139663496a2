//! Why a text has no verdict.

use std::error::Error;
use std::fmt;

/// Why a text has no verdict. Lines are counted from 1.
#[derive(Clone, Copy, Debug, PartialEq, Eq)]
pub enum TraceError {
    /// The first line that no trace can have there. Behind the last line of a text comes one that
    /// is missing.
    Malformed { line: u32 },
    /// Memory ran out.
    Memory,
}

impl fmt::Display for TraceError {
    fn fmt<W: fmt::Write>(&self, f: &mut fmt::Formatter<W>) -> fmt::Result {
        match self {
            TraceError::Malformed { line } => write!(f, "malformed line {line}"),
            TraceError::Memory => f.write_str("out of memory"),
        }
    }
}

impl Error for TraceError {}
