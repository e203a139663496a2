//! The host below its handles: a kernel, the devices that are open on it, their claimed interfaces,
//! and the endpoints that stand on these. Its calls name each by its key.
#![tactic(auto)]

mod awaiting;
mod claiming;
mod configuring;
mod controls;
mod endpoints;
mod host;
mod opening;
mod rooms;
mod settings;
mod slots;

pub use controls::StartedControl;
pub use host::Host;
pub use settings::AltSettingsOf;
