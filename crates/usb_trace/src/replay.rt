//! The events of a journal are done again, one after another.

ghost use Rattle.std.specs.Prelude.{◌≡◌, ◌<◌, ◌++◌, ◌∷◌, ℕ, List, [], length, map, is_some, false, None, OnOk, IfOk, IfSome, IsTrue};
ghost use Rattle.usb_kernel.specs.declared.event.Event.{Event};
ghost use Rattle.usb_kernel.specs.Acts.{acts};
ghost use Rattle.usb_kernel_devices.specs.Devices.{fresh_device, plugged_device};
ghost use Rattle.usb_trace.specs.Replays.{IsReplaying, IsAppended, CanBeDone};
ghost use Rattle.usb_trace.specs.Replayed.{IsReplayed};

use crate::event::do_again;
use std::alloc::Global;
use usb_desc::NoMemory;
use usb_kernel::{Bytes, Descriptors, Event, Kernel, SimDevice};

/// A device with nothing on it.
fn bare_device(alloc: Global) -> Result<SimDevice, NoMemory> {
    Ok(SimDevice {
        bus: 0,
        address: 0,
        speed: 0,
        config: 0,
        bytes: Descriptors::from_slice(alloc, &[])?,
        drivers: Bytes::from_vec(Vec::new(alloc)),
    })
}

/// Adds a copy of a device under a number.
fn add_device(
    devices: &mut Vec<(u8, SimDevice)>,
    number: u8,
    device: &SimDevice,
) -> Result<(), NoMemory>
    ensures more { OnOk result
        (devices.new.items ≡ devices.old.items ++ (number, device.now) ∷ []) }
{
    match devices.push((number, device.clone()?)) {
        Ok(()) => Ok(()),
        Err(_) => Err(NoMemory),
    }
}

/// A device of each number.
fn all_devices(alloc: Global) -> Result<Vec<(u8, SimDevice)>, NoMemory>
    ensures all { IfOk result (λ devices. (d : ℕ) → d < 256 →
        IsTrue (is_some (plugged_device (map fresh_device devices.items) d))) }
{
    let device = bare_device(alloc)?;
    let mut devices = Vec::new(alloc);
    for number in 0..256u32 {
        add_device(&mut devices, number as u8, &device)?;
    }
    Ok(devices)
}

/// Does the next event of a journal again. It answers the event's place where it does not act; the
/// kernel is of no further use then.
fn do_next(kernel: &mut Kernel, alloc: Global, event: Event) -> Result<Option<usize>, NoMemory>
    requires replaying { IsReplaying kernel.old }
    requires done { CanBeDone event }
    ensures past { IfOk result (λ stop. stop ≡ None →
        IsAppended kernel.old.past kernel.new.past event) }
    ensures acts { IfOk result (λ stop. stop ≡ None → IsTrue (acts kernel.old.past event)) }
    ensures replaying { IfOk result (λ stop. stop ≡ None → IsReplaying kernel.new) }
    ensures idle { IfOk result (λ stop. IfSome stop (λ place. acts kernel.old.past event ≡ false)) }
    ensures place { IfOk result (λ stop. IfSome stop (λ place. place ≡ length kernel.old.past)) }
{
    let place = kernel.journal().len();
    kernel.reserve(1)?;
    if do_again(kernel, alloc, event)? {
        return Ok(None);
    }
    Ok(Some(place))
}

/// Events that are done again in order, at a kernel of their own.
#[derive(Drop)]
pub(crate) enum Replay {
    /// Each of them acts.
    Going(Kernel),
    /// The one at this place is the first that does not act.
    Stopped { place: usize },
}

impl Replay {
    /// No event.
    pub(crate) fn new(alloc: Global) -> Result<Replay, NoMemory>
        ensures none { IfOk result (IsReplayed []) }
    {
        Ok(Replay::Going(Kernel::new(alloc, all_devices(alloc)?)?))
    }

    /// One event more.
    pub(crate) fn add(&mut self, alloc: Global, event: Event) -> Result<(), NoMemory>
        requires replayed { (events : List Event) × IsReplayed events self.old }
        requires done { CanBeDone event }
        ensures more { OnOk result ((events : List Event) → IsReplayed events self.old →
            IsReplayed (events ++ event ∷ []) self.new) }
    {
        let Replay::Going(kernel) = self else {
            return Ok(());
        };
        let Some(place) = do_next(kernel, alloc, event)? else {
            return Ok(());
        };
        *self = Replay::Stopped { place };
        Ok(())
    }
}
