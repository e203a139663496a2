//! The numbers of a device that its attributes tell.

ghost use Rattle.usb_error.specs.Outcomes.{Tried};
ghost use Rattle.usb_enum.specs.NumberParts.{place_numbers, product_numbers, class_numbers};
ghost use Rattle.usb_enum.specs.Probing.{numbers};

use std::alloc::Global;
use usb_desc::Fail;
use usb_enum_sysfs::{AttrTree, SysfsError, read_decimal, read_hex, read_version};

/// Where a device is, and what its descriptor says it is: USB 2.0, section 9.6.1.
#[derive(Clone, Copy, Debug)]
pub struct Numbers {
    pub busnum: u8,
    pub address: u8,
    pub vendor_id: u16,
    pub product_id: u16,
    pub device_version: u16,
    pub usb_version: u16,
    pub class: u8,
    pub subclass: u8,
    pub protocol: u8,
}

/// Where a device is.
#[derive(Clone, Copy)]
struct PlaceNumbers {
    busnum: u8,
    address: u8,
}

/// Which product a device is, and in which versions.
#[derive(Clone, Copy)]
struct ProductNumbers {
    vendor_id: u16,
    product_id: u16,
    device_version: u16,
    usb_version: u16,
}

/// What kind of device it is.
#[derive(Clone, Copy)]
struct ClassNumbers {
    class: u8,
    subclass: u8,
    protocol: u8,
}

/// Reads the numbers in their order. The first that fails is the error.
#[tactic(auto, using(crate::proofs::NumberLemmas::numbers_by_parts))]
pub fn read_numbers(
    alloc: Global,
    tree: &AttrTree,
    folder: &str,
) -> Result<Numbers, Fail<SysfsError>>
    ensures tried { Tried result (numbers tree.now folder.now) }
{
    let place = read_place(alloc, tree, folder)?;
    let product = read_product(alloc, tree, folder)?;
    let class = read_class(alloc, tree, folder)?;
    Ok(Numbers {
        busnum: place.busnum,
        address: place.address,
        vendor_id: product.vendor_id,
        product_id: product.product_id,
        device_version: product.device_version,
        usb_version: product.usb_version,
        class: class.class,
        subclass: class.subclass,
        protocol: class.protocol,
    })
}

fn read_place(
    alloc: Global,
    tree: &AttrTree,
    folder: &str,
) -> Result<PlaceNumbers, Fail<SysfsError>>
    ensures tried { Tried result (place_numbers tree.now folder.now) }
{
    Ok(PlaceNumbers {
        busnum: read_decimal(alloc, tree, folder, "busnum")?,
        address: read_decimal(alloc, tree, folder, "devnum")?,
    })
}

fn read_product(
    alloc: Global,
    tree: &AttrTree,
    folder: &str,
) -> Result<ProductNumbers, Fail<SysfsError>>
    ensures tried { Tried result (product_numbers tree.now folder.now) }
{
    Ok(ProductNumbers {
        vendor_id: read_hex(alloc, tree, folder, "idVendor")?,
        product_id: read_hex(alloc, tree, folder, "idProduct")?,
        device_version: read_hex(alloc, tree, folder, "bcdDevice")?,
        usb_version: read_version(alloc, tree, folder, "version")?,
    })
}

fn read_class(
    alloc: Global,
    tree: &AttrTree,
    folder: &str,
) -> Result<ClassNumbers, Fail<SysfsError>>
    ensures tried { Tried result (class_numbers tree.now folder.now) }
{
    Ok(ClassNumbers {
        class: read_hex(alloc, tree, folder, "bDeviceClass")?,
        subclass: read_hex(alloc, tree, folder, "bDeviceSubClass")?,
        protocol: read_hex(alloc, tree, folder, "bDeviceProtocol")?,
    })
}
