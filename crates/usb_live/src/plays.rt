//! The rule of a row as the table reads it, and the names of its steps.
ghost use Rattle.usb_live.specs.Rows.{Rowed, first, owner_first, handler_first};
ghost use Rattle.usb_live.specs.Steps.{owner_took_out, filled, refused, published, owner_looked, abandoned, owner_took, handler_took_out, handler_looked, finished, handler_took};

use crate::view::{Transfer, View};
use atomic_table::{Play, Split, TableRule};

/// The rule of a row.
pub struct Cells;

impl TableRule<Option<Transfer>, View, ()> for Cells {
    ghost holds = { λ _. Rowed };

    ghost first = { λ _. first };
}

/// The first seat becomes the owner's and the handler's.
pub struct Seats;

impl Split<View> for Seats {
    ghost left = { λ _. owner_first };

    ghost right = { λ _. handler_first };
}

/// The owner takes a slot out.
pub struct OwnerOut;

impl Play<Option<Transfer>, View> for OwnerOut {
    ghost then = { owner_took_out };
}

/// The owner puts a transfer into a free cell.
pub struct Fill;

impl Play<Option<Transfer>, View> for Fill {
    ghost then = { filled };
}

/// The owner puts a transfer that ended at once into a free cell.
pub struct Refuse;

impl Play<Option<Transfer>, View> for Refuse {
    ghost then = { refused };
}

/// The owner makes a filled cell pending.
pub struct Publish;

impl Play<Option<Transfer>, View> for Publish {
    ghost then = { published };
}

/// The owner looks at a pending cell.
pub struct OwnerLook;

impl Play<Option<Transfer>, View> for OwnerLook {
    ghost then = { owner_looked };
}

/// The owner leaves a pending cell to the handler.
pub struct Abandon;

impl Play<Option<Transfer>, View> for Abandon {
    ghost then = { abandoned };
}

/// The owner takes the transfer out of a cell that ended.
pub struct OwnerTake;

impl Play<Option<Transfer>, View> for OwnerTake {
    ghost then = { owner_took };
}

/// The handler takes a slot out.
pub struct HandlerOut;

impl Play<Option<Transfer>, View> for HandlerOut {
    ghost then = { handler_took_out };
}

/// The handler looks at a cell.
pub struct HandlerLook;

impl Play<Option<Transfer>, View> for HandlerLook {
    ghost then = { handler_looked };
}

/// The handler puts a completion in.
pub struct Finish;

impl Play<Option<Transfer>, View> for Finish {
    ghost then = { finished };
}

/// The handler takes out a transfer that the owner left.
pub struct HandlerTake;

impl Play<Option<Transfer>, View> for HandlerTake {
    ghost then = { handler_took };
}
