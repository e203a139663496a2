//! Buffers, transfers in their typed states, why a transfer failed, and how those that wait are
//! woken.
#![tactic(auto)]

mod buffer;
mod error;
mod future;
mod marker;
mod notify;
mod slots;
mod transfer;

pub use buffer::{Buffer, buffer_is_send_and_sync};
pub use error::{TransferError, format_os_error_code, status_word, transfer_status};
pub use future::{Map, MapErr, MapFuture, MapOk, MapResult, MaybeFuture, Ready};
pub use marker::{
    Any, Bulk, BulkOrInterrupt, EndpointDirection, EndpointType, In, Interrupt, KnownDirection,
    KnownType, Out,
};
pub use notify::{Notify, NotifyState, notify_is_send_and_sync};
pub use slots::{Idle, Pending, Slots, take_completed_from_option, take_completed_from_queue};
pub use transfer::{Completion, Held, TransferData};
