//! Tests of the simulated kernel, of what runs over it and of rows of cells, each in a module of
//! its own:
//!
//! - `kernel`: calls and steps of the crate `usb_kernel` on what is not there, and copies of steps;
//! - `fronts`: what stands at the front of an endpoint, and the room for steps, of the same;
//! - `endpoints`: buses, endpoints over them, and the readers and writers over endpoints, by std's
//!   traits and until a short packet, of the crates `usb_device_endpoint` and `usb_io`;
//! - `hosts`: a short driver, what is kept of closed handles, the slots of tickets, the room for
//!   steps, debug texts, and what is made of a future, of `usb_device_host` and `usb_device`;
//! - `live`: rows of cells, on one thread and on two, of `usb_live`.
//!
//! What a script can ask is asked by whole scripts, of the crate `nusb_sim`: what calls at a host
//! answer, and what the kernel makes of steps. Expected values come from the rules of the
//! simulation, of readers, of writers and of the row, and from USB 2.0.
//!
//! A function that owns a kernel, a bus, a host, a row's seats or an endpoint is slow to prove, so
//! few do, and lend them to the others.
#![tactic(auto)]

#[cfg(test)]
mod devices;
#[cfg(test)]
mod endpoints;
#[cfg(test)]
mod fronts;
#[cfg(test)]
mod hosts;
#[cfg(test)]
mod kernel;
#[cfg(test)]
mod live;
#[cfg(test)]
mod outcomes;
#[cfg(test)]
mod steps;
