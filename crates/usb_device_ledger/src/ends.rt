//! How tickets end.

/// What became of a ticket. Each ticket has at most one end.
#[derive(Clone, Copy, Debug, PartialEq, Eq)]
pub enum TicketEnd {
    /// Its endpoint took its completion.
    Taken,
    /// Its endpoint gave it up after its reap.
    Dropped,
    /// Its endpoint gave it up, and then it was reaped.
    Reclaimed,
}
