//! Chains of ports.

ghost use Rattle.std.specs.Prelude.{◌≡◌, IfOk};
ghost use Rattle.usb_enum_sysfs.specs.Ports.{ports, ports_of};

use crate::attributes::read_string;
use crate::numbers::decimal_byte;
use crate::tree::AttrTree;
use std::alloc::Global;
use usb_desc::NoMemory;

/// The ports on the way from the root hub to the device with this folder: USB 2.0, section 11.1.
pub fn read_ports(alloc: Global, tree: &AttrTree, folder: &str) -> Result<Vec<u8>, NoMemory>
    ensures ports { IfOk result (λ v. v.items ≡ ports tree.now folder.now) }
{
    match read_string(alloc, tree, folder, "devpath")? {
        Some(text) => ports_of(alloc, text.as_str()),
        None => Ok(Vec::new(alloc)),
    }
}

/// The ports of a text: none of a root hub's, and none where one part is no number.
fn ports_of(alloc: Global, text: &str) -> Result<Vec<u8>, NoMemory>
    ensures ports { IfOk result (λ v. v.items ≡ ports_of text.now) }
{
    let mut ports = Vec::new(alloc);
    if text == "0" {
        return Ok(ports);
    }
    for part in text.split('.') {
        let Some(port) = decimal_byte(part) else {
            return Ok(Vec::new(alloc));
        };
        let Ok(()) = ports.push(port) else {
            return Err(NoMemory);
        };
    }
    Ok(ports)
}
