//! Why reading ends.

use usb_device::TransferError;

/// Why reading ended.
#[derive(Clone, Copy, PartialEq, Eq, Debug, Drop)]
pub enum End {
    /// The keyboard was unplugged.
    Unplugged,
    /// A transfer failed otherwise.
    Failed(TransferError),
    /// No packet came within ten seconds, or none can come.
    Silent,
}
