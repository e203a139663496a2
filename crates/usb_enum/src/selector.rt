//! Selectors of devices.

ghost use Rattle.std.specs.Prelude.{◌≡◌, IfOk, Some, None, string_bytes};
ghost use Rattle.std.specs.List.{list_any};
ghost use Rattle.std.specs.Option.{option_map};
ghost use Rattle.usb_enum.specs.Selectors.{matches, is_asked, is_asked_text, is_class, is_interface};

use crate::device::DeviceInfo;
use crate::interface::{InterfaceInfo, copy_of};
use std::marker::Model;
use usb_desc::NoMemory;
use usb_enum_sysfs::Text;

/// What a device is asked to be. What is not given is not asked.
#[derive(Debug, Drop)]
pub struct DeviceSelector {
    vendor_id: Option<u16>,
    product_id: Option<u16>,
    class: Option<u8>,
    subclass: Option<u8>,
    protocol: Option<u8>,
    serial: Option<Text>,
}

impl Model for DeviceSelector {
    ghost use Rattle.usb_enum.specs.Selectors.{SelectorFacts};

    ghost Value = { SelectorFacts };

    ghost view = { λ s. record {
      vendor_id = s.vendor_id;
      product_id = s.product_id;
      class = s.class;
      subclass = s.subclass;
      protocol = s.protocol;
      serial = s.serial;
    } };
}

impl DeviceSelector {
    ghost use Rattle.usb_enum.specs.Selectors.{all_devices};

    /// The same once more.
    pub fn clone(&self) -> Result<DeviceSelector, NoMemory>
        ensures same { IfOk result (λ copy. copy ≡ self.now) }
    {
        let serial = copy_of(&self.serial)?;
        Ok(DeviceSelector {
            vendor_id: self.vendor_id,
            product_id: self.product_id,
            class: self.class,
            subclass: self.subclass,
            protocol: self.protocol,
            serial,
        })
    }

    /// Asks nothing, so that every device matches.
    pub fn all() -> DeviceSelector
        ensures selector { result ≡ all_devices }
    {
        DeviceSelector {
            vendor_id: None,
            product_id: None,
            class: None,
            subclass: None,
            protocol: None,
            serial: None,
        }
    }

    /// The same, with this vendor.
    pub fn with_vid(mut self, vendor_id: u16) -> DeviceSelector
        ensures selector { result ≡ record self { vendor_id = Some vendor_id } }
    {
        self.vendor_id = Some(vendor_id);
        self
    }

    /// The same, with this vendor and product.
    pub fn with_vid_pid(mut self, vendor_id: u16, product_id: u16) -> DeviceSelector
        ensures selector { result
            ≡ record self { vendor_id = Some vendor_id; product_id = Some product_id } }
    {
        self.vendor_id = Some(vendor_id);
        self.product_id = Some(product_id);
        self
    }

    /// The same, with this class code.
    pub fn with_class(mut self, class: u8) -> DeviceSelector
        ensures selector { result ≡ record self { class = Some class } }
    {
        self.class = Some(class);
        self
    }

    /// The same, with these class and subclass codes.
    pub fn with_class_subclass(mut self, class: u8, subclass: u8) -> DeviceSelector
        ensures selector { result ≡ record self { class = Some class; subclass = Some subclass } }
    {
        self.class = Some(class);
        self.subclass = Some(subclass);
        self
    }

    /// The same, with these class, subclass and protocol codes.
    pub fn with_class_subclass_protocol(
        mut self,
        class: u8,
        subclass: u8,
        protocol: u8,
    ) -> DeviceSelector
        ensures selector { result
            ≡ record self {
              class = Some class;
              subclass = Some subclass;
              protocol = Some protocol;
            } }
    {
        self.class = Some(class);
        self.subclass = Some(subclass);
        self.protocol = Some(protocol);
        self
    }

    /// The same, with this serial number.
    pub fn with_serial_number(mut self, serial: String) -> DeviceSelector
        ensures selector { result ≡ record self { serial = Some (string_bytes serial) } }
    {
        self.serial = Some(Text::from_string(serial));
        self
    }

    /// The vendor that is asked for, if any.
    pub fn vendor_id(&self) -> Option<u16>
        ensures asked { result ≡ self.now.vendor_id }
    {
        self.vendor_id
    }

    /// The product that is asked for, if any.
    pub fn product_id(&self) -> Option<u16>
        ensures asked { result ≡ self.now.product_id }
    {
        self.product_id
    }

    /// The class code that is asked for, if any.
    pub fn class(&self) -> Option<u8>
        ensures asked { result ≡ self.now.class }
    {
        self.class
    }

    /// The subclass code that is asked for, if any.
    pub fn subclass(&self) -> Option<u8>
        ensures asked { result ≡ self.now.subclass }
    {
        self.subclass
    }

    /// The protocol code that is asked for, if any.
    pub fn protocol(&self) -> Option<u8>
        ensures asked { result ≡ self.now.protocol }
    {
        self.protocol
    }

    /// The serial number that is asked for, if any.
    pub fn serial_number(&self) -> Option<&str>
        ensures asked { option_map (λ t. t.now) result ≡ self.now.serial }
    {
        self.serial.as_ref().map(|text| text.as_str())
    }

    /// Whether these codes are those that are asked for.
    fn is_class(&self, class: u8, subclass: u8, protocol: u8) -> bool
        ensures class { result ≡ is_class self.now class subclass protocol }
    {
        is_asked(self.class, class)
            && is_asked(self.subclass, subclass)
            && is_asked(self.protocol, protocol)
    }

    /// The same of the codes of an interface.
    fn is_interface(&self, interface: &InterfaceInfo) -> bool
        ensures interface { result ≡ is_interface self.now interface.now }
    {
        self.is_class(interface.class, interface.subclass, interface.protocol)
    }

    /// Whether a serial number is the one that is asked for.
    fn is_serial(&self, serial: &Option<Text>) -> bool
        ensures serial { result ≡ is_asked_text self.now.serial serial.now }
    {
        match (&self.serial, serial) {
            (None, _) => true,
            (Some(_), None) => false,
            (Some(asked), Some(text)) => asked.as_str() == text.as_str(),
        }
    }
}

/// Whether a number is the one that is asked for, if any is.
fn is_asked(asked: Option<u8>, value: u8) -> bool
    ensures value { result ≡ is_asked asked value }
{
    match asked {
        None => true,
        Some(asked) => asked == value,
    }
}

/// The same of a number of 16 bits.
fn is_asked_word(asked: Option<u16>, value: u16) -> bool
    ensures value { result ≡ is_asked asked value }
{
    match asked {
        None => true,
        Some(asked) => asked == value,
    }
}

/// Whether one of the interfaces has the codes that are asked for.
fn has_interface(interfaces: &[InterfaceInfo], selector: &DeviceSelector) -> bool
    ensures value { result ≡ list_any (is_interface selector.now) interfaces.now }
{
    interfaces
        .iter()
        .any(|interface| selector.is_interface(interface))
}

impl Default for DeviceSelector {
    ghost use Rattle.usb_enum.specs.Selectors.{all_devices};

    ghost is_default = { λ selector. selector ≡ all_devices };

    fn default() -> DeviceSelector {
        DeviceSelector::all()
    }
}

impl DeviceInfo {
    /// Whether the device is one that is asked for: vendor, product and serial number where given,
    /// and the class codes where given, all of the device or all of one interface.
    pub fn matches(&self, selector: &DeviceSelector) -> bool
        ensures value { result ≡ matches selector.now self.now }
    {
        is_asked_word(selector.vendor_id, self.numbers.vendor_id)
            && is_asked_word(selector.product_id, self.numbers.product_id)
            && selector.is_serial(&self.serial)
            && (selector.is_class(
                self.numbers.class,
                self.numbers.subclass,
                self.numbers.protocol,
            ) || has_interface(&self.interfaces, selector))
    }
}
