//! The records of tickets, of which each look-up is counted.

ghost use Rattle.std.specs.Prelude.{◌≡◌, ◌+◌, ◌<◌, ◌++◌, ◌∷◌, [], length, slice_get, vec_capacity, Some, OnOk};
ghost use Rattle.std.specs.Borrow.{sem};
ghost use Rattle.usb_kernel.specs.Lends.{LendsRecord};

use crate::looks::Steps;
use crate::record::Record;
use std::alloc::{AllocError, Global};
use std::sync::ledger::Ledger;

/// The records of tickets by number. They are reached by `at` and `at_mut` alone.
#[derive(Drop)]
pub(crate) struct Tickets {
    records: Vec<Record>,
}

impl Tickets {
    /// The record of a ticket: one look-up.
    pub(crate) fn at<L: Ledger>(&self, ticket: usize, steps: &mut Steps<L>) -> &Record
        requires within { ticket < length self.now.records.items }
        ensures record { slice_get self.now.records.items ticket ≡ Some result.now }
        ensures look { steps.new ≡ steps.old + 1 }
    {
        steps.look();
        &self.records[ticket]
    }

    /// The record of a ticket for writing: one look-up.
    pub(crate) fn at_mut<L: Ledger>(&mut self, ticket: usize, steps: &mut Steps<L>) -> &mut Record
        requires within { ticket < length self.old.records.items }
        ensures* writes_back { sem 𝓛 (LendsRecord self.entry ticket result) }
        ensures record { slice_get self.old.records.items ticket ≡ Some result.now }
        ensures look { steps.new ≡ steps.old + 1 }
    {
        steps.look();
        &mut self.records[ticket]
    }

    /// No tickets.
    pub(crate) fn new(alloc: Global) -> Tickets
        ensures none { result.records.items ≡ [] }
    {
        Tickets {
            records: Vec::new(alloc),
        }
    }

    /// How many tickets there are.
    pub(crate) fn len(&self) -> usize
        ensures len { result ≡ length self.now.records.items }
    {
        self.records.len()
    }

    /// Makes room for one more ticket.
    pub(crate) fn reserve(&mut self) -> Result<(), AllocError>
        ensures records { self.new.records.items ≡ self.old.records.items }
        ensures room { OnOk result (length self.new.records.items < vec_capacity self.new.records) }
    {
        self.records.reserve(1)
    }

    /// Adds the record of the next ticket, for which there is room.
    pub(crate) fn push(&mut self, next: Record)
        requires room { length self.old.records.items < vec_capacity self.old.records }
        ensures records { self.new.records.items ≡ self.old.records.items ++ next ∷ [] }
        ensures capacity { vec_capacity self.new.records ≡ vec_capacity self.old.records }
    {
        self.records.push_reserved(next);
    }
}
