//! What a simulated disk is about.

use usb_bot::{Command, Status};

/// Where a simulated disk stands in a command.
#[derive(Clone, Copy)]
pub enum Stage {
    /// It waits for a wrapper, or for the rest of one.
    Listening,
    /// It takes the data of a WRITE(10), of which so many bytes have not come. They are dropped
    /// where the blocks are not there.
    Taking { command: Command, left: usize },
    /// It sends the data of a READ(10), of which so many bytes have not gone.
    Sending { command: Command, left: usize },
    /// It sends the empty packet that stands for the data of a READ(10) of blocks that are not
    /// there.
    Refusing { command: Command },
    /// It sends the status, of which so many bytes have gone.
    Answering { status: Status, gone: usize },
}
