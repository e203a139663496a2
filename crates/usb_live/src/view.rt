//! What a slot holds, and what the two seats of a row know. No value of a view is ever made: contracts speak of views.
use usb_xfer::Completion;

/// What lies in a slot: the number of a ticket, and its completion once it is there.
#[derive(Drop)]
pub struct Transfer {
    pub ticket: u64,
    pub completion: Option<Completion>,
}

/// What the owner knows of a cell, with the ticket that lies there.
pub enum Owned {
    /// Nothing lies there.
    Free,
    /// The ticket lies there, and the handler does not know of it yet.
    Filled(u64),
    /// The ticket lies there with its completion, for the owner to take.
    Mine(u64),
    /// The handler has to finish the ticket.
    Pending(u64),
    /// The owner left the ticket to the handler, who has to take it out.
    Left(u64),
}

/// What the handler knows of a cell, with the ticket that it works on.
pub enum Handled {
    /// It does nothing there.
    Idle,
    /// It has to finish the ticket.
    Working(u64),
    /// It finished the ticket, which the owner had left.
    Reclaim(u64),
    /// It took the ticket out, which the owner had left.
    Reclaimed(u64),
}

/// A cell as the owner sees it, and whether the owner has its slot out.
pub struct OwnerCell {
    pub stage: Owned,
    pub out: bool,
}

/// A cell as the handler sees it, whether the handler has its slot out, and the completion that it last put in.
pub struct HandlerCell {
    pub stage: Handled,
    pub out: bool,
    pub last: Option<Completion>,
}

/// Whose view it is. The first seat of a row, which is cut in two, has both sides.
pub enum Side {
    Both,
    Owner,
    Handler,
}

/// What a seat knows: its cells, how often it looked, the cell and the word of its last look, and the completion that the owner
/// last put in or found. A contract reads an array as a list, of any length.
pub struct View {
    pub side: Side,
    pub owner: [OwnerCell; 0],
    pub handler: [HandlerCell; 0],
    pub looks: u64,
    pub cell: u64,
    pub word: u64,
    pub own: Option<Completion>,
}
