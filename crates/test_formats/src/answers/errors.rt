//! Answers to questions on errors and faults.

use crate::answers::decimal_of;
use std::alloc::{AllocError, Global};
use usb_desc::{NoMemory, StringError};
use usb_error::{ActiveConfigurationError, Error, ErrorKind, GetDescriptorError, IoFault};
use usb_script::SessionError;
use usb_xfer::TransferError;

/// A word and the number behind it, which is 0 if there is none.
fn word_and_number(text: &str) -> (&str, u16) {
    let (word, number) = text.split_once(" ").unwrap_or((text, ""));
    (word, decimal_of(number))
}

/// The kind, the code and the text of the error of a call.
pub fn write_error(out: &mut String, call: &str) -> Result<(), AllocError> {
    let (word, errno) = word_and_number(call);
    // what is written is that of a copy
    let error = error_of(word, errno).clone()?;
    write!(out, "{} {:?} {error}", error.kind(), error.os_error())
}

fn error_of(call: &str, errno: u16) -> Error {
    match call {
        "open" => Error::open(errno),
        "read_descriptors" => Error::read_descriptors(errno),
        "set_configuration" => Error::set_configuration(errno),
        "reset" => Error::reset(errno),
        "claim" => Error::claim(errno),
        "detach" => Error::detach(errno),
        "attach" => Error::attach(errno),
        "set_alt_setting" => Error::set_alt_setting(errno),
        "clear_halt" => Error::clear_halt(errno),
        "listing" => Error::listing(errno),
        _ => error_without_code(call),
    }
}

const NOT_CONFIGURED: ActiveConfigurationError = ActiveConfigurationError {
    configuration_value: 0,
};

const NO_DESCRIPTOR: ActiveConfigurationError = ActiveConfigurationError {
    configuration_value: 17,
};

fn error_without_code(name: &str) -> Error {
    match name {
        "invalid_device_descriptor" => Error::invalid_device_descriptor(),
        "configuration" => Error::configuration(),
        "settings_in_use" => Error::settings_in_use(),
        "interface_in_use" => Error::interface_in_use(),
        "not_configured" => Error::from(NOT_CONFIGURED),
        "no_descriptor" => Error::from(NO_DESCRIPTOR),
        "no_endpoint" => Error::no_endpoint(),
        "wrong_direction" => Error::wrong_direction(),
        "wrong_type" => Error::wrong_type(),
        "no_packet_size" => Error::no_packet_size(),
        _ => Error::endpoint_in_use(),
    }
}

/// The kind and the text of a copy of a fault.
pub fn write_fault(out: &mut String, cause: &str) -> Result<(), AllocError> {
    match copied_fault(*out.allocator(), cause) {
        Ok(fault) => show_fault(out, &fault),
        Err(NoMemory) => Err(AllocError),
    }
}

fn show_fault(out: &mut String, fault: &IoFault) -> Result<(), AllocError> {
    write!(out, "{:?} {fault}", fault.kind)?;
    // its field holds what it prints
    if !out.as_str().ends_with(fault.text.as_str()) {
        out.push_str(", and another text in its field")?;
    }
    Ok(())
}

fn copied_fault(alloc: Global, cause: &str) -> Result<IoFault, NoMemory> {
    let fault = fault_of(alloc, cause)?;
    fault.clone()
}

fn fault_of(alloc: Global, cause: &str) -> Result<IoFault, NoMemory> {
    let (word, number) = word_and_number(cause);
    let transfer = TransferError::from_errno(number);
    match word {
        "transfer" => IoFault::from_transfer(alloc, transfer),
        "descriptor" => IoFault::from_descriptor(alloc, GetDescriptorError::Transfer(transfer)),
        "invalid_descriptor" => {
            IoFault::from_descriptor(alloc, GetDescriptorError::InvalidDescriptor)
        }
        "not_configured" => IoFault::from_active(alloc, NOT_CONFIGURED),
        "no_descriptor" => IoFault::from_active(alloc, NO_DESCRIPTOR),
        _ => IoFault::from_error(alloc, error_of(word, number)),
    }
}

/// The text of a kind, or of an error of another type.
pub fn write_text(out: &mut String, name: &str) -> Result<(), AllocError> {
    let error = match name {
        "no_memory" => return write!(out, "{NoMemory}"),
        "invalid_string" => return write!(out, "{}", StringError::Invalid),
        "memory_of_string" => return write!(out, "{}", StringError::Memory),
        "unsupported" => return write!(out, "{}", ErrorKind::Unsupported),
        "too_long" => SessionError::TooLong,
        "read_fault" => SessionError::ReadFault,
        "write_fault" => SessionError::WriteFault,
        _ => SessionError::Memory,
    };
    write!(out, "{error}")
}
