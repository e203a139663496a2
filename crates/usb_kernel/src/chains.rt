//! Tickets are taken out of a list and put at its end.

ghost use Rattle.std.specs.Prelude.{◌≡◌, ℕ, ◌+◌, ◌<◌, ◌≤◌, ◌^◌, length, is_none, false, Some, vec_capacity};
ghost use Rattle.usb_kernel.specs.Links.{with_before, with_after, changed, is_first, unlinked, ends_without, IsWithin, last_linked, ends_with, link_behind};

use crate::looks::Steps;
use crate::record::{Chain, Ends, Link, Neighbour};
use crate::tickets::Tickets;
use std::sync::ledger::Ledger;

/// Whether a list begins with a ticket.
fn begins_with(ends: &Ends, ticket: usize) -> bool
    ensures first { result ≡ is_first ends.now ticket }
{
    match ends.first.ticket() {
        Some(first) => first == ticket,
        None => false,
    }
}

impl Tickets {
    /// A ticket, if there is one, has another one before it in a list.
    fn set_before<L: Ledger>(
        &mut self,
        chain: Chain,
        ticket: Neighbour,
        before: Neighbour,
        steps: &mut Steps<L>,
    )
        requires within { (t : ℕ) → ticket ≡ Some t → t < length self.old.records.items }
        ensures records { self.new.records.items
            ≡ changed (with_before chain before) self.old.records.items ticket }
        ensures len { length self.new.records.items ≡ length self.old.records.items }
        ensures capacity { vec_capacity self.new.records ≡ vec_capacity self.old.records }
        ensures look { steps.new ≤ steps.old + 1 }
    {
        let Some(ticket) = ticket.ticket() else {
            return;
        };
        let record = self.at_mut(ticket, steps);
        let link = record.link(chain);
        record.set_link(chain, Link { before, ..link });
    }

    /// A ticket, if there is one, has another one behind it in a list.
    fn set_after<L: Ledger>(
        &mut self,
        chain: Chain,
        ticket: Neighbour,
        after: Neighbour,
        steps: &mut Steps<L>,
    )
        requires within { (t : ℕ) → ticket ≡ Some t → t < length self.old.records.items }
        ensures records { self.new.records.items
            ≡ changed (with_after chain after) self.old.records.items ticket }
        ensures len { length self.new.records.items ≡ length self.old.records.items }
        ensures capacity { vec_capacity self.new.records ≡ vec_capacity self.old.records }
        ensures look { steps.new ≤ steps.old + 1 }
    {
        let Some(ticket) = ticket.ticket() else {
            return;
        };
        let record = self.at_mut(ticket, steps);
        let link = record.link(chain);
        record.set_link(chain, Link { after, ..link });
    }

    /// Takes a ticket that has these neighbours out of a list: at most two look-ups, and none where
    /// the list begins with it.
    pub(crate) fn unlink<L: Ledger>(
        &mut self,
        ends: &mut Ends,
        chain: Chain,
        ticket: usize,
        link: Link,
        steps: &mut Steps<L>,
    )
        requires within { is_first ends.old ticket ≡ false
            → IsWithin link (length self.old.records.items) }
        ensures records { self.new.records.items
            ≡ unlinked chain ticket link ends.old self.old.records.items }
        ensures ends { ends.new ≡ ends_without ticket link ends.old }
        ensures len { length self.new.records.items ≡ length self.old.records.items }
        ensures capacity { vec_capacity self.new.records ≡ vec_capacity self.old.records }
        ensures looks { steps.new ≤ steps.old + 2 }
    {
        if begins_with(ends, ticket) {
            ends.first = link.after;
            return;
        }
        self.set_after(chain, link.before, link.after, steps);
        self.set_before(chain, link.after, link.before, steps);
        if link.after.ticket().is_none() {
            ends.last = link.before;
        }
    }

    /// Puts the next ticket at the end of a list. It answers the neighbours that the ticket has
    /// there.
    pub(crate) fn link_last<L: Ledger>(
        &mut self,
        ends: &mut Ends,
        chain: Chain,
        ticket: usize,
        steps: &mut Steps<L>,
    ) -> Link
        requires fits { ticket + 1 < 2 ^ 64 }
        requires within { (t : ℕ) → is_none ends.old.first ≡ false → ends.old.last ≡ Some t
            → t < length self.old.records.items }
        ensures link { result ≡ link_behind ends.old }
        ensures records { self.new.records.items
            ≡ last_linked chain ticket ends.old self.old.records.items }
        ensures ends { ends.new ≡ ends_with ticket ends.old }
        ensures len { length self.new.records.items ≡ length self.old.records.items }
        ensures capacity { vec_capacity self.new.records ≡ vec_capacity self.old.records }
        ensures looks { steps.new ≤ steps.old + 1 }
    {
        let link = Link {
            before: ends.last,
            after: Neighbour::none(),
        };
        let last = Neighbour::of(ticket);
        ends.last = last;
        if ends.first.ticket().is_none() {
            ends.first = last;
            return link;
        }
        self.set_after(chain, link.before, last, steps);
        link
    }
}
