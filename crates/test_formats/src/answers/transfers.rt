//! Answers to questions on transfers that failed.

use crate::answers::decimal_of;
use std::alloc::AllocError;
use usb_desc::NoMemory;
use usb_xfer::{format_os_error_code, status_word, transfer_status};

/// The word of a status, or of that of a refused submission, and the text of its error, if any.
pub fn write_status(out: &mut String, errno: &str, is_refused: bool) -> Result<(), AllocError> {
    let errno = decimal_of(errno);
    let word = status_word(*out.allocator(), is_refused, errno)?;
    out.push_str(word.as_str())?;
    match transfer_status(is_refused, errno) {
        Ok(()) => Ok(()),
        Err(error) => write!(out, ", {error}"),
    }
}

/// A text to which an error code was appended.
pub fn write_code(out: &mut String, errno: &str) -> Result<(), AllocError> {
    out.push_str("refused: ")?;
    match format_os_error_code(out, u32::from(decimal_of(errno))) {
        Ok(()) => Ok(()),
        Err(NoMemory) => Err(AllocError),
    }
}
