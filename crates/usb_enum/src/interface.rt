//! What enumeration tells of an interface.

ghost use Rattle.std.specs.Prelude.{◌≡◌, IfOk, IfErr, IfNone, IsOk, string_bytes};
ghost use Rattle.std.specs.Option.{option_map};
ghost use Rattle.usb_desc.specs.declared.error.Fail.TheVariants.{Memory};

use std::alloc::AllocError;
use std::marker::Model;
use usb_desc::{Fail, NoMemory};
use usb_enum_sysfs::Text;
use usb_error::Error;

/// An interface of a device, as its driver's folder shows it.
#[derive(Debug, Drop)]
pub struct InterfaceInfo {
    pub(crate) number: u8,
    pub(crate) class: u8,
    pub(crate) subclass: u8,
    pub(crate) protocol: u8,
    pub(crate) name: Option<Text>,
}

impl Model for InterfaceInfo {
    ghost use Rattle.usb_enum.specs.Devices.{InterfaceFacts};

    ghost Value = { InterfaceFacts };

    ghost view = { λ i. record {
      number = i.number;
      class = i.class;
      subclass = i.subclass;
      protocol = i.protocol;
      name = i.name;
    } };
}

impl Clone for InterfaceInfo {
    ghost is_clone = { λ interface copy. copy ≡ interface };

    fn clone(&self) -> Result<InterfaceInfo, AllocError> {
        let name = self.name.clone()?;
        Ok(InterfaceInfo {
            number: self.number,
            class: self.class,
            subclass: self.subclass,
            protocol: self.protocol,
            name,
        })
    }
}

impl InterfaceInfo {
    /// The same interface once more.
    pub fn clone(&self) -> Result<InterfaceInfo, NoMemory>
        ensures same { IfOk result (λ copy. copy ≡ self.now) }
    {
        Ok(Clone::clone(self)?)
    }

    /// Its number: USB 2.0, section 9.6.5, as are the class codes.
    pub fn interface_number(&self) -> u8
        ensures number { result ≡ self.now.number }
    {
        self.number
    }

    /// The class code.
    pub fn class(&self) -> u8
        ensures class { result ≡ self.now.class }
    {
        self.class
    }

    /// The subclass code.
    pub fn subclass(&self) -> u8
        ensures subclass { result ≡ self.now.subclass }
    {
        self.subclass
    }

    /// The protocol code.
    pub fn protocol(&self) -> u8
        ensures protocol { result ≡ self.now.protocol }
    {
        self.protocol
    }

    /// The text of its string descriptor, where the tree has it.
    pub fn interface_string(&self) -> Option<&str>
        ensures text { option_map (λ t. t.now) result ≡ self.now.name }
    {
        self.name.as_ref().map(|text| text.as_str())
    }

    /// A copy of the same text. Nothing but memory can be wanting.
    pub fn get_interface_string(&self) -> Result<Option<String>, Fail<Error>>
        ensures text { IfOk result (λ t. option_map (λ s. string_bytes s) t ≡ self.now.name) }
        ensures memory { IfErr result (λ error. error ≡ Memory) }
        ensures absent { IfNone self.now.name (IsOk result) }
    {
        string_of(&self.name)
    }
}

/// A copy of a text that may be there.
pub fn string_of(text: &Option<Text>) -> Result<Option<String>, Fail<Error>>
    ensures text { IfOk result (λ t. option_map (λ s. string_bytes s) t ≡ text.now) }
    ensures memory { IfErr result (λ error. error ≡ Memory) }
    ensures absent { IfNone text.now (IsOk result) }
{
    match text {
        None => Ok(None),
        Some(text) => {
            match text.clone() {
                Ok(copy) => Ok(Some(copy.into_string())),
                Err(_) => Err(Fail::Memory),
            }
        }
    }
}

/// A copy of the text, where there is one.
pub(crate) fn copy_of(text: &Option<Text>) -> Result<Option<Text>, NoMemory>
    ensures same { IfOk result (λ copy. copy ≡ text.now) }
{
    match text {
        Some(text) => Ok(Some(text.clone()?)),
        None => Ok(None),
    }
}
