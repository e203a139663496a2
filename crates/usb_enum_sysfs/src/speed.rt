//! Speeds of devices.

ghost use Rattle.std.specs.Prelude.{◌≡◌, IfOk};
ghost use Rattle.usb_enum_sysfs.specs.Speeds.{speed, speed_of};

use crate::attributes::read_string;
use crate::tree::AttrTree;
use std::alloc::Global;
use usb_desc::NoMemory;

/// The speed at which a device is connected.
#[derive(Clone, Copy, PartialEq, Eq, PartialOrd, Ord, Hash, Debug)]
pub enum Speed {
    /// 1.5 megabits a second.
    Low,
    /// 12 megabits a second.
    Full,
    /// 480 megabits a second.
    High,
    /// 5000 megabits a second.
    Super,
    /// 10000 megabits a second.
    SuperPlus,
}

impl Speed {
    /// The speed that a word or a number of megabits names.
    #[tactic(auto, unfolding(crate::specs::Speeds::speed_of))]
    pub fn from_str(text: &str) -> Option<Speed>
        ensures speed { result ≡ speed_of text.now }
    {
        match text {
            "low" | "1.5" => Some(Speed::Low),
            "full" | "12" => Some(Speed::Full),
            "high" | "480" => Some(Speed::High),
            "super" | "5000" => Some(Speed::Super),
            "super+" | "10000" => Some(Speed::SuperPlus),
            _ => None,
        }
    }
}

/// The speed of the device with this folder. Any other text than those of speeds gives none.
pub fn read_speed(alloc: Global, tree: &AttrTree, folder: &str) -> Result<Option<Speed>, NoMemory>
    ensures speed { IfOk result (λ s. s ≡ speed tree.now folder.now) }
{
    match read_string(alloc, tree, folder, "speed")? {
        Some(text) => Ok(Speed::from_str(text.as_str())),
        None => Ok(None),
    }
}
