//! What enumeration tells of a device.

ghost use Rattle.std.specs.Prelude.{◌≡◌, IfOk, IfErr, IfNone, IsOk, OnOk, OnErr, string_bytes, ◌++◌, ◌∷◌, [], ◌+◌, ◌<◌};
ghost use Rattle.std.specs.Option.{option_map};
ghost use Rattle.usb_desc.specs.declared.error.Fail.TheVariants.{Memory};
ghost use Rattle.usb_enum.specs.Devices.{bus_id_of, id_of};

use crate::interface::{InterfaceInfo, copy_of, string_of};
use crate::numbers::Numbers;
use std::alloc::Global;
use std::marker::Model;
use usb_desc::{Fail, NoMemory};
use usb_enum_sysfs::{Speed, SysfsPath, Text};
use usb_error::Error;

/// Where a device is, by its bus and its address.
#[derive(Clone, Copy, PartialEq, Eq, Hash, Debug)]
pub struct DeviceId {
    pub(crate) bus: u8,
    pub(crate) address: u8,
}

impl DeviceId {
    /// The number of the bus.
    pub fn bus(&self) -> u8
        ensures bus { result ≡ self.now.bus }
    {
        self.bus
    }

    /// The address on the bus.
    pub fn address(&self) -> u8
        ensures address { result ≡ self.now.address }
    {
        self.address
    }
}

/// A device that is connected, as the tree of attributes shows it.
#[derive(Debug, Drop)]
pub struct DeviceInfo {
    pub(crate) path: SysfsPath,
    pub(crate) numbers: Numbers,
    pub(crate) bus_id: Text,
    pub(crate) port_chain: Vec<u8>,
    pub(crate) speed: Option<Speed>,
    pub(crate) manufacturer: Option<Text>,
    pub(crate) product: Option<Text>,
    pub(crate) serial: Option<Text>,
    pub(crate) interfaces: Vec<InterfaceInfo>,
}

impl Model for DeviceInfo {
    ghost use Rattle.usb_enum.specs.Devices.{DeviceFacts};

    ghost Value = { DeviceFacts };

    ghost view = { λ d. record {
      path = d.path;
      numbers = d.numbers;
      bus_id = d.bus_id;
      port_chain = d.port_chain.items;
      speed = d.speed;
      manufacturer = d.manufacturer;
      product = d.product;
      serial = d.serial;
      interfaces = d.interfaces.items;
    } };
}

impl DeviceInfo {
    /// The same device once more.
    pub fn clone(&self) -> Result<DeviceInfo, NoMemory>
        ensures same { IfOk result (λ copy. copy ≡ self.now) }
    {
        let path = self.path.clone()?;
        let bus_id = self.bus_id.clone()?;
        let port_chain = self.port_chain.clone()?;
        let manufacturer = copy_of(&self.manufacturer)?;
        let product = copy_of(&self.product)?;
        let serial = copy_of(&self.serial)?;
        let interfaces = self.interfaces.clone()?;
        Ok(DeviceInfo {
            path,
            numbers: self.numbers,
            bus_id,
            port_chain,
            speed: self.speed,
            manufacturer,
            product,
            serial,
            interfaces,
        })
    }

    /// Where the device is, as events name it.
    pub fn id(&self) -> DeviceId
        ensures id { result ≡ id_of self.now.numbers }
    {
        DeviceId {
            bus: self.numbers.busnum,
            address: self.numbers.address,
        }
    }

    /// The path of its folder.
    pub fn sysfs_path(&self) -> &str
        ensures path { result.now ≡ self.now.path }
    {
        self.path.as_str()
    }

    /// The number of the device's bus.
    pub fn busnum(&self) -> u8
        ensures number { result ≡ self.now.numbers.busnum }
    {
        self.numbers.busnum
    }

    /// The same in three decimal digits.
    pub fn bus_id(&self) -> &str
        ensures id { result.now ≡ self.now.bus_id }
    {
        self.bus_id.as_str()
    }

    /// The address of the device on its bus.
    pub fn device_address(&self) -> u8
        ensures address { result ≡ self.now.numbers.address }
    {
        self.numbers.address
    }

    /// The ports on the way from the root hub to the device: USB 2.0, section 11.1.
    pub fn port_chain(&self) -> &[u8]
        ensures ports { result.now ≡ self.now.port_chain }
    {
        self.port_chain.as_slice()
    }

    /// The vendor's number: USB 2.0, section 9.6.1, as are the other fields of the descriptor.
    pub fn vendor_id(&self) -> u16
        ensures vendor { result ≡ self.now.numbers.vendor_id }
    {
        self.numbers.vendor_id
    }

    /// The product's number.
    pub fn product_id(&self) -> u16
        ensures product { result ≡ self.now.numbers.product_id }
    {
        self.numbers.product_id
    }

    /// The release of the device, in binary-coded decimal.
    pub fn device_version(&self) -> u16
        ensures version { result ≡ self.now.numbers.device_version }
    {
        self.numbers.device_version
    }

    /// The release of USB that it follows, in binary-coded decimal.
    pub fn usb_version(&self) -> u16
        ensures version { result ≡ self.now.numbers.usb_version }
    {
        self.numbers.usb_version
    }

    /// The class code.
    pub fn class(&self) -> u8
        ensures class { result ≡ self.now.numbers.class }
    {
        self.numbers.class
    }

    /// The subclass code.
    pub fn subclass(&self) -> u8
        ensures subclass { result ≡ self.now.numbers.subclass }
    {
        self.numbers.subclass
    }

    /// The protocol code.
    pub fn protocol(&self) -> u8
        ensures protocol { result ≡ self.now.numbers.protocol }
    {
        self.numbers.protocol
    }

    /// The speed at which it is connected, where the tree has it.
    pub fn speed(&self) -> Option<Speed>
        ensures speed { result ≡ self.now.speed }
    {
        self.speed
    }

    /// The name of the manufacturer, where the tree has it.
    pub fn manufacturer_string(&self) -> Option<&str>
        ensures text { option_map (λ t. t.now) result ≡ self.now.manufacturer }
    {
        self.manufacturer.as_ref().map(|text| text.as_str())
    }

    /// The name of the product, where the tree has it.
    pub fn product_string(&self) -> Option<&str>
        ensures text { option_map (λ t. t.now) result ≡ self.now.product }
    {
        self.product.as_ref().map(|text| text.as_str())
    }

    /// The serial number, where the tree has it.
    pub fn serial_number(&self) -> Option<&str>
        ensures text { option_map (λ t. t.now) result ≡ self.now.serial }
    {
        self.serial.as_ref().map(|text| text.as_str())
    }

    /// A copy of `manufacturer_string`. Nothing but memory can be wanting.
    pub fn get_manufacturer_string(&self) -> Result<Option<String>, Fail<Error>>
        ensures text { IfOk result
            (λ t. option_map (λ s. string_bytes s) t ≡ self.now.manufacturer) }
        ensures memory { IfErr result (λ error. error ≡ Memory) }
        ensures absent { IfNone self.now.manufacturer (IsOk result) }
    {
        string_of(&self.manufacturer)
    }

    /// A copy of `product_string`. Nothing but memory can be wanting.
    pub fn get_product_string(&self) -> Result<Option<String>, Fail<Error>>
        ensures text { IfOk result (λ t. option_map (λ s. string_bytes s) t ≡ self.now.product) }
        ensures memory { IfErr result (λ error. error ≡ Memory) }
        ensures absent { IfNone self.now.product (IsOk result) }
    {
        string_of(&self.product)
    }

    /// A copy of `serial_number`. Nothing but memory can be wanting.
    pub fn get_serial_number_string(&self) -> Result<Option<String>, Fail<Error>>
        ensures text { IfOk result (λ t. option_map (λ s. string_bytes s) t ≡ self.now.serial) }
        ensures memory { IfErr result (λ error. error ≡ Memory) }
        ensures absent { IfNone self.now.serial (IsOk result) }
    {
        string_of(&self.serial)
    }

    /// The interfaces of the active configuration, by their numbers.
    pub fn interfaces(&self) -> &[InterfaceInfo]
        ensures interfaces { result.now ≡ self.now.interfaces }
    {
        self.interfaces.as_slice()
    }
}

/// The number of a bus in three decimal digits.
pub fn bus_id(alloc: Global, busnum: u8) -> Result<Text, NoMemory>
    ensures id { IfOk result (λ id. id ≡ bus_id_of busnum) }
{
    let mut text = String::new(alloc);
    push_digit(&mut text, busnum / 100)?;
    push_digit(&mut text, busnum / 10 % 10)?;
    push_digit(&mut text, busnum % 10)?;
    Ok(Text::from_string(text))
}

/// Adds a decimal digit.
fn push_digit(text: &mut String, digit: u8) -> Result<(), NoMemory>
    requires { digit < 10 }
    ensures text { OnOk result
        (string_bytes text.new ≡ string_bytes text.old ++ (48 + digit) ∷ []) }
    ensures err { OnErr result (string_bytes text.new ≡ string_bytes text.old) }
{
    match text.push(char::from(b'0' + digit)) {
        Ok(()) => Ok(()),
        Err(_) => Err(NoMemory),
    }
}
