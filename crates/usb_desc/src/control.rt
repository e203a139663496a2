//! Requests on control endpoints: USB 2.0, section 9.3.

ghost use Rattle.std.specs.Prelude.{◌≡◌, ◌^◌, ◌<◌, length};
ghost use Rattle.usb_desc.specs.Setup as spec;

use crate::types::Direction;

/// Which specification defines a request: bits 5 and 6 of `bmRequestType`.
#[derive(Clone, Copy, Debug, PartialEq, Eq)]
pub enum ControlType {
    Standard = 0,
    Class = 1,
    Vendor = 2,
}

/// What a request is meant for: bits 0 to 4 of `bmRequestType`.
#[derive(Clone, Copy, Debug, PartialEq, Eq)]
pub enum Recipient {
    Device = 0,
    Interface = 1,
    Endpoint = 2,
    Other = 3,
}

/// A request whose data come from the device.
#[derive(Clone, Copy, Debug)]
pub struct ControlIn {
    pub control_type: ControlType,
    pub recipient: Recipient,
    /// `bRequest`
    pub request: u8,
    /// `wValue`
    pub value: u16,
    /// `wIndex`
    pub index: u16,
    /// `wLength`: how many bytes are wanted.
    pub length: u16,
}

/// A request whose data go to the device.
#[derive(Clone, Copy, Debug)]
pub struct ControlOut<'a> {
    pub control_type: ControlType,
    pub recipient: Recipient,
    /// `bRequest`
    pub request: u8,
    /// `wValue`
    pub value: u16,
    /// `wIndex`
    pub index: u16,
    /// The data, of which there are at most 65535 bytes.
    pub bytes: &'a [u8],
}

impl ControlIn {
    /// `bmRequestType`.
    pub fn request_type(&self) -> u8
        ensures value { result ≡ spec.request_type_in self.now }
    {
        request_type(Direction::In, self.control_type, self.recipient)
    }

    /// The eight bytes of the setup packet.
    pub fn setup_packet(&self) -> [u8; 8]
        ensures value { result ≡ spec.setup_packet_in self.now }
    {
        pack(
            self.request_type(),
            self.request,
            self.value,
            self.index,
            self.length,
        )
    }
}

impl ControlOut<'_> {
    /// `bmRequestType`.
    pub fn request_type(&self) -> u8
        ensures value { result ≡ spec.request_type_out self.now }
    {
        request_type(Direction::Out, self.control_type, self.recipient)
    }

    /// The eight bytes of the setup packet, whose length is that of the data.
    pub fn setup_packet(&self) -> [u8; 8]
        requires short { length self.now.bytes.now < 2 ^ 16 }
        ensures value { result ≡ spec.setup_packet_out self.now }
    {
        pack(
            self.request_type(),
            self.request,
            self.value,
            self.index,
            self.bytes.len() as u16,
        )
    }
}

fn request_type(direction: Direction, control_type: ControlType, recipient: Recipient) -> u8
    ensures value { result ≡ spec.request_type direction control_type recipient }
{
    direction as u8 + 32 * (control_type as u8) + recipient as u8
}

fn pack(kind: u8, request: u8, value: u16, index: u16, length: u16) -> [u8; 8]
    ensures value { result ≡ spec.packet kind request value index length }
{
    [
        kind,
        request,
        (value % 256) as u8,
        (value / 256) as u8,
        (index % 256) as u8,
        (index / 256) as u8,
        (length % 256) as u8,
        (length / 256) as u8,
    ]
}
