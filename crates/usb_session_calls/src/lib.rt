//! The calls of a session: what each line of a script asks, as a value; names, and what is open under
//! each of the 64 names of a kind; and the calls on what is open, each of which appends its line to a
//! text.
#![tactic(auto)]

mod buffers;
mod call;
mod calling;
mod cancelling;
mod client_calls;
mod control_calls;
mod controlling;
mod devices;
mod endpoint_calls;
mod filling;
mod halting;
mod interfaces;
mod names;
mod polling;
mod reader_calls;
mod reader_settings;
mod reading;
mod requesting;
mod submitting;
mod transferring;
mod waiting;
mod writer_calls;
mod writer_settings;

pub use call::{
    Call, ClientCall, CloseCall, ControlCall, DeviceCall, EndpointCall, FutureCall, InterfaceCall,
    OpenCall, ReaderCall, TreeCall, WriterCall,
};
pub use calling::call_of;
pub use client_calls::call_client;
pub use control_calls::call_control;
pub use controlling::bars_control;
pub use devices::call_device;
pub use endpoint_calls::call_endpoint;
pub use interfaces::call_interface;
pub use names::{drop_names, is_free, no_names, open_at, put_at, take_at};
pub use reader_calls::call_reader;
pub use writer_calls::call_writer;
