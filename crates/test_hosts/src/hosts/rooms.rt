//! The room for steps at a host. Expected values come from the rules of the simulation.

use usb_device::{Bus, Host, NoMemory};

/// Whether room that was made beside the step of a line is there until it is given up, and the
/// step that is left keeps its own.
pub fn has_room(host: &mut Host) -> Result<bool, NoMemory> {
    let none = host.room();
    host.reserve(3)?;
    let made = host.room();
    let _ = host.turn();
    let beside = host.room();
    host.give_up_room(1);
    let left = host.room();
    host.give_up_room(2);
    Ok(none == 0 && made == 3 && beside == 3 && left == 1 && host.room() == 1)
}
