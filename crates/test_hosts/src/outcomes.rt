//! What values print.

use std::alloc::Global;
use std::fmt::Display;

/// Whether there is a text, and it is this one.
pub fn is_text(text: Option<String>, expected: &str) -> bool {
    match text {
        Some(text) => text.as_str() == expected,
        None => false,
    }
}

/// Whether this is printed.
pub fn prints(alloc: Global, value: &impl Display, expected: &str) -> bool {
    is_text(value.to_string(alloc).ok(), expected)
}
