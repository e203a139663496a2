//! Tests of what is read and printed: descriptors, registries, transfers and errors, what their
//! contracts leave to examples, of the crates `usb_desc`, `usb_device_tables`, `usb_xfer` and
//! `usb_error`; what attributes read as, and the devices made of them, of `usb_enum_sysfs` and
//! `usb_enum`; and the grammar of scripts, of `usb_script_lines` and `usb_script`.
//! Most are rows of questions with their answers: answers.rt says how they are asked.
#![tactic(auto)]

#[cfg(test)]
mod answers;
#[cfg(test)]
mod copies;
#[cfg(test)]
mod descriptors;
#[cfg(test)]
mod enumeration;
#[cfg(test)]
mod errors;
#[cfg(test)]
mod registry;
#[cfg(test)]
mod scripts;
#[cfg(test)]
mod transfers;
