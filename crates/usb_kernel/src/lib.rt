//! A simulated kernel: devices, tickets of submitted transfers, and the journal of what came to
//! them.
#![tactic(auto)]

mod chains;
mod completion;
mod devices;
mod echo;
mod event;
mod fronts;
mod journal;
mod kernel;
mod laws;
mod lists;
mod looks;
mod once;
mod queues;
mod record;
mod slot;
mod steps;
mod submission;
mod table;
mod tickets;
mod timer;
mod transfers;

pub use completion::completion_from;
pub use event::{Body, Event};
pub use kernel::{Kernel, is_send_and_sync};
pub use laws::{
    answers_use_no_refusal, calls_extend_journals, claimed_once,
    claims_and_drivers_exclude_each_other, claims_outlast_calls, drivers_come_and_go,
    echo_is_two_events, extensions_compose, extensions_keep_tickets, finished_can_be_reaped,
    later_are_untouched, oldest_is_served, reaped_is_final, refusals_come_first,
    resets_are_unplugs, submissions_open_tickets, tickets_are_closed, waiting_tickets_are_counted,
};
pub use looks::Steps;
pub use submission::{Done, Submission, Submitted, TicketInfo};
pub use timer::deadline_after;
pub use usb_desc::errno;
pub use usb_kernel_devices::{
    Armed, Bytes, Descriptors, DeviceState, InterfaceSet, KernelCall, KernelStep, SimDevice,
};
