//! The two ends of the list of unfinished tickets of each endpoint.

ghost use Rattle.std.specs.Prelude.{◌≡◌, ℕ, ◌==◌, ◌&&◌, true, OnOk, if◌then◌else◌};
ghost use Rattle.usb_kernel.specs.Queues.{no_ends, ends_at, has_queue};

use crate::record::{Ends, Neighbour};
use std::alloc::{AllocError, Global};
use std::collections::BTreeMap;

/// The ends by device and endpoint, in an ordered map. An entry that was made stays, so there are
/// at most 2^16.
#[derive(Drop)]
pub(crate) struct Queues {
    ends: BTreeMap<(u8, u8), Ends>,
}

impl Queues {
    /// No list.
    pub(crate) fn new(alloc: Global) -> Queues
        ensures none { (d e : ℕ) → ends_at result d e ≡ no_ends }
    {
        Queues {
            ends: BTreeMap::new(alloc),
        }
    }

    /// The ends of the list of an endpoint.
    pub(crate) fn ends(&self, device: u8, endpoint: u8) -> Ends
        ensures ends { result ≡ ends_at self.now device endpoint }
    {
        match self.ends.get(&(device, endpoint)) {
            Some(ends) => *ends,
            None => Ends::none(),
        }
    }

    /// Makes an entry for an endpoint, if it has none.
    pub(crate) fn open(&mut self, device: u8, endpoint: u8) -> Result<(), AllocError>
        ensures same { (d e : ℕ) → ends_at self.new d e ≡ ends_at self.old d e }
        ensures opened { OnOk result (has_queue self.new device endpoint ≡ true) }
    {
        if self.ends.contains_key(&(device, endpoint)) {
            return Ok(());
        }
        match self.ends.insert((device, endpoint), Ends::none()) {
            Ok(_) => Ok(()),
            Err(_) => Err(AllocError),
        }
    }

    /// The list of an endpoint that has an entry has other ends. It takes no memory.
    pub(crate) fn set(&mut self, device: u8, endpoint: u8, ends: Ends)
        ensures ends { has_queue self.old device endpoint ≡ true → (d e : ℕ) → ends_at self.new d e
            ≡ (if device == d && endpoint == e then ends else ends_at self.old d e) }
    {
        if let Some(entry) = self.ends.get_mut(&(device, endpoint)) {
            *entry = ends;
        }
    }

    /// The list of an endpoint that has an entry begins with another ticket. It takes no memory.
    pub(crate) fn set_first(&mut self, device: u8, endpoint: u8, first: Neighbour)
        ensures ends { has_queue self.old device endpoint ≡ true → (d e : ℕ) → ends_at self.new d e
            ≡ (if device == d && endpoint == e then
            record (ends_at self.old device endpoint) { first = first } else ends_at self.old d e) }
    {
        if let Some(entry) = self.ends.get_mut(&(device, endpoint)) {
            entry.first = first;
        }
    }
}
