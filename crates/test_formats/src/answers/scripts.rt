//! Answers to questions on scripts.

use crate::answers::decimal_of;
use crate::answers::descriptors::write_bytes;
use std::alloc::{AllocError, Global};
use usb_desc::NoMemory;
use usb_script::{Script, SessionError, generate, parse_script};
use usb_script_lines::{ControlTarget, Item};

/// What is told by this word of a script whose lines are parted by |, or why it is refused. In the
/// place of *64 it has 64 bytes.
pub fn write_script(out: &mut String, word: &str, text: &str) -> Result<(), AllocError> {
    let text = filled(*out.allocator(), text)?;
    let lines = text.as_str().replace(*out.allocator(), "|", "\n")?;
    write_parsed(out, word, lines.as_bytes())
}

fn filled(alloc: Global, text: &str) -> Result<String, AllocError> {
    let Some((front, rest)) = text.split_once("*") else {
        return String::from_str(alloc, text);
    };
    let (count, back) = rest.split_once(" ").unwrap_or((rest, ""));
    let count = u32::from_str_radix(count, 10).unwrap_or(0);
    let bytes = "77".repeat(alloc, count as usize)?;
    format!(in alloc; "{front}{bytes} {back}")
}

/// How many items the generated script of so many messages has.
pub fn write_generated(out: &mut String, messages: &str) -> Result<(), AllocError> {
    match generate(*out.allocator(), u32::from(decimal_of(messages))) {
        Ok(script) => write_parsed(out, "count", &script),
        Err(NoMemory) => Err(AllocError),
    }
}

/// A copy of the script.
fn copied_script(alloc: Global, bytes: &[u8]) -> Result<Script, SessionError> {
    let script = parse_script(alloc, bytes)?;
    match script.clone() {
        Ok(copy) => Ok(copy),
        Err(NoMemory) => Err(SessionError::Memory),
    }
}

fn write_parsed(out: &mut String, word: &str, bytes: &[u8]) -> Result<(), AllocError> {
    match copied_script(*out.allocator(), bytes) {
        Ok(script) => {
            let written = write_told(out, word, script.items());
            drop(script);
            written
        }
        Err(error) => write!(out, "{error}"),
    }
}

fn write_told(out: &mut String, word: &str, items: &[Item]) -> Result<(), AllocError> {
    match word {
        "script" => write_items(out, items),
        "fields" => write_fields(out, items),
        _ => write!(out, "{}", items.len()),
    }
}

/// Writes of each item whether it is setup, a call or steps, and how many places of the kernel it
/// may use, if any.
fn write_items(out: &mut String, items: &[Item]) -> Result<(), AllocError> {
    if items.is_empty() {
        out.push_str("nothing")?;
    }
    for (index, item) in items.iter().enumerate() {
        if index > 0 {
            out.push_str(", ")?;
        }
        out.push_str(kind_of(item))?;
        let places = item.place_count();
        if places > 0 {
            write!(out, " {places}")?;
        }
    }
    Ok(())
}

fn kind_of(item: &Item) -> &'static str {
    match (item.is_setup(), item.is_call()) {
        (true, false) => "setup",
        (false, true) => "call",
        (false, false) => "steps",
        (true, true) => "setup and call",
    }
}

/// Writes the fields of a copy of the first item.
fn write_fields(out: &mut String, items: &[Item]) -> Result<(), AllocError> {
    let Some(first) = items.first() else {
        return out.push_str("nothing");
    };
    match first.clone() {
        Ok(copy) => write_item(out, &copy),
        Err(NoMemory) => Err(AllocError),
    }
}

/// Writes of an item whom a control transfer goes to and its setup packet, the index of a
/// string, or the type and the direction of an endpoint.
fn write_item(out: &mut String, item: &Item) -> Result<(), AllocError> {
    match item {
        Item::ControlIn {
            target,
            setup,
            length,
            ..
        } => write_packet(out, *target, &setup.control_in(*length).setup_packet()),
        Item::StartControlOut {
            target,
            setup,
            bytes,
            ..
        } => write_packet(
            out,
            *target,
            &setup.control_out(bytes.as_slice()).setup_packet(),
        ),
        Item::StringDescriptor { index, .. } => write!(out, "{}", index.get()),
        Item::Endpoint { kind, .. } => {
            write!(out, "{:?} {:?}", kind.transfer_type(), kind.direction())
        }
        _ => out.push_str("nothing"),
    }
}

fn write_packet(out: &mut String, target: ControlTarget, packet: &[u8]) -> Result<(), AllocError> {
    out.push_str(match target {
        ControlTarget::Device(_) => "device ",
        ControlTarget::Interface(_) => "interface ",
    })?;
    write_bytes(out, packet)
}
