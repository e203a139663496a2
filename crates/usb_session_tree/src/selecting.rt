//! The device of a folder, and whether it is one that is looked for.

ghost use Rattle.std.specs.Prelude.{◌≡◌, IfOk};
ghost use Rattle.usb_error.specs.Outcomes.{Tried};
ghost use Rattle.usb_enum.specs.Probing.{probe};
ghost use Rattle.usb_session_tree.specs.Selecting.{with_criterion, selector_with, matched};

use std::alloc::Global;
use usb_desc::{Fail, NoMemory};
use usb_enum::{AttrTree, DeviceInfo, DeviceSelector, SysfsError, SysfsPath, Text, probe_device};
use usb_script_lines::{Criterion, Path, Selector};

/// The selector with one more criterion, which replaces only what it names.
fn with_criterion(
    selector: DeviceSelector,
    criterion: &Criterion,
) -> Result<DeviceSelector, NoMemory>
    ensures selector { IfOk result (λ s. s ≡ with_criterion selector criterion.now) }
{
    match criterion {
        Criterion::Vendor(vendor) => Ok(selector.with_vid(*vendor)),
        Criterion::Product(vendor, product) => Ok(selector.with_vid_pid(*vendor, *product)),
        Criterion::Class(class) => Ok(selector.with_class(*class)),
        Criterion::Subclass(class, subclass) => {
            Ok(selector.with_class_subclass(*class, *subclass))
        }
        Criterion::Protocol(class, subclass, protocol) => {
            Ok(selector.with_class_subclass_protocol(*class, *subclass, *protocol))
        }
        Criterion::Serial(serial) => {
            let serial = serial.clone()?;
            Ok(selector.with_serial_number(serial.into_string()))
        }
    }
}

/// The selector that these criteria make, in their order.
#[tactic(auto, unfolding(crate::specs::Selecting::selector_with))]
fn selector_with(criteria: &[Criterion]) -> Result<DeviceSelector, NoMemory>
    ensures selector { IfOk result (λ s. s ≡ selector_with criteria.now) }
{
    let mut selector = DeviceSelector::all();
    for criterion in criteria {
        selector = with_criterion(selector, criterion)?;
    }
    Ok(selector)
}

/// The device of a folder, or the attribute that gave no value.
pub fn probe_at(alloc: Global, tree: &AttrTree, path: &Path) -> Result<DeviceInfo, Fail<SysfsError>>
    ensures tried { Tried result (probe tree.now path.now) }
{
    match Text::from_str(alloc, path.as_str()) {
        Ok(path) => probe_device(alloc, tree, SysfsPath::from_text(path)),
        Err(_) => Err(Fail::Memory),
    }
}

/// Whether the device of a folder is one that is looked for, or the attribute that gave no value.
#[tactic(auto, unfolding(crate::specs::Selecting::matched))]
pub fn match_at(
    alloc: Global,
    tree: &AttrTree,
    path: &Path,
    selector: &Selector,
) -> Result<bool, Fail<SysfsError>>
    ensures tried { Tried result (matched tree.now path.now selector.now) }
{
    let device = probe_at(alloc, tree, path)?;
    match selector_with(selector.as_slice()) {
        Ok(selector) => Ok(device.matches(&selector)),
        Err(_) => Err(Fail::Memory),
    }
}
