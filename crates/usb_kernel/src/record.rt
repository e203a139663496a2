//! The record of a ticket: its row, and its neighbours in the lists of tickets.

ghost use Rattle.std.specs.Prelude.{◌≡◌, ◌+◌, ◌<◌, ◌^◌, None, Some};
ghost use Rattle.usb_kernel.specs.Links.{link_of, with_link};
ghost use Rattle.usb_kernel.specs.Queues.{no_ends};

use crate::slot::TicketRow;
use std::marker::Model;

/// A ticket that stands beside one in a list, or at an end of it, or none: one word. The word is
/// one more than the ticket's number, and 0 for none.
#[derive(Clone, Copy)]
pub(crate) struct Neighbour {
    word: usize,
}

impl Model for Neighbour {
    ghost use Rattle.std.specs.Prelude.{ℕ, Option};

    ghost Value = { Option ℕ };

    ghost use Rattle.usb_kernel.specs.Words.{ticket_in, inside_for, inside_back};

    ghost view = { λ n. ticket_in n.word };

    ghost inverse = { inside_for };

    ghost inverse_ok = { λ n _. inside_back n };
}

impl Neighbour {
    /// No ticket.
    pub(crate) fn none() -> Neighbour
        ensures none { result ≡ None }
    {
        Neighbour { word: 0 }
    }

    /// The ticket of this number.
    pub(crate) fn of(ticket: usize) -> Neighbour
        requires fits { ticket + 1 < 2 ^ 64 }
        ensures ticket { result ≡ Some ticket }
    {
        Neighbour { word: ticket + 1 }
    }

    /// The number of the ticket, if there is one.
    pub(crate) fn ticket(&self) -> Option<usize>
        ensures ticket { result ≡ self.now }
    {
        self.word.checked_sub(1)
    }
}

/// The neighbours of a ticket in a list of tickets.
#[derive(Clone, Copy)]
pub(crate) struct Link {
    pub(crate) before: Neighbour,
    pub(crate) after: Neighbour,
}

impl Link {
    /// No neighbours.
    pub(crate) fn none() -> Link
        ensures none { result ≡ record { before = None; after = None } }
    {
        Link {
            before: Neighbour::none(),
            after: Neighbour::none(),
        }
    }
}

/// The two ends of a list of tickets.
#[derive(Clone, Copy)]
pub(crate) struct Ends {
    pub(crate) first: Neighbour,
    pub(crate) last: Neighbour,
}

impl Ends {
    /// The ends of an empty list.
    pub(crate) fn none() -> Ends
        ensures none { result ≡ no_ends }
    {
        Ends {
            first: Neighbour::none(),
            last: Neighbour::none(),
        }
    }
}

/// The lists that a ticket may stand in: that of the unfinished tickets of its endpoint, and that
/// of all tickets that are not reaped.
#[derive(Clone, Copy)]
pub(crate) enum Chain {
    Queue,
    Unreaped,
}

/// A ticket with its neighbours in both lists.
#[derive(Drop)]
pub(crate) struct Record {
    pub(crate) row: TicketRow,
    pub(crate) queue: Link,
    pub(crate) unreaped: Link,
}

impl Record {
    /// Its neighbours in a list.
    pub(crate) fn link(&self, chain: Chain) -> Link
        ensures link { result ≡ link_of chain self.now }
    {
        match chain {
            Chain::Queue => self.queue,
            Chain::Unreaped => self.unreaped,
        }
    }

    /// It has other neighbours in a list.
    pub(crate) fn set_link(&mut self, chain: Chain, link: Link)
        ensures link { self.new ≡ with_link chain link self.old }
    {
        match chain {
            Chain::Queue => self.queue = link,
            Chain::Unreaped => self.unreaped = link,
        }
    }
}
