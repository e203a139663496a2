//! What a control transfer asks for, and whom.

ghost use Rattle.std.specs.Prelude.{◌≡◌, ◌<◌, length, IfOk};
ghost use Rattle.usb_script_words.specs.Controls.{control_type_of, recipient_of, control_in_of, control_out_of, setup_and_more, control_target_of};
ghost use Rattle.usb_script_words.specs.Fields.{texts};
ghost use Rattle.usb_script_words.specs.Outcome.{Gives};
ghost use Rattle.usb_script_words.specs.Words.{number_of};

use crate::line_error::LineError;
use crate::name::Name;
use crate::words::{hex_byte, hex_word, number, reads};
use usb_desc::{ControlIn, ControlOut, ControlType, Recipient};

/// The most bytes of a data stage. USB 2.0, table 9-2, `wLength`.
const MAX_DATA: u64 = 65535;

/// What a setup packet says but for the direction and the length of the data. USB 2.0, section 9.3.
#[derive(Clone, Copy)]
pub struct Setup {
    pub control_type: ControlType,
    pub recipient: Recipient,
    /// `bRequest`
    pub request: u8,
    /// `wValue`
    pub value: u16,
    /// `wIndex`
    pub index: u16,
}

impl Setup {
    /// The request for so many bytes of the device.
    pub fn control_in(self, length: u16) -> ControlIn
        ensures value { result ≡ control_in_of self length }
    {
        ControlIn {
            control_type: self.control_type,
            recipient: self.recipient,
            request: self.request,
            value: self.value,
            index: self.index,
            length,
        }
    }

    /// The request with these bytes for the device.
    pub fn control_out(self, bytes: &[u8]) -> ControlOut<'_>
        ensures value { result ≡ control_out_of self bytes.entry }
    {
        ControlOut {
            control_type: self.control_type,
            recipient: self.recipient,
            request: self.request,
            value: self.value,
            index: self.index,
            bytes,
        }
    }
}

/// Whom a control transfer goes to: the device, by one of its handles or by that of an interface.
#[derive(Clone, Copy)]
pub enum ControlTarget {
    Device(Name),
    Interface(Name),
}

impl ControlTarget {
    /// The device or else the interface that a word names.
    #[tactic(auto, unfolding(crate::specs::Controls::control_target_of))]
    pub fn parse(word: &[u8]) -> Result<ControlTarget, LineError>
        ensures value { Gives (λ target. target) result (control_target_of word.now) }
    {
        if let Some(device) = Name::spelled(b'd', word) {
            return Ok(ControlTarget::Device(device));
        }
        let interface = Name::parse(b'i', word)?;
        Ok(ControlTarget::Interface(interface))
    }
}

/// The specification that defines a request.
#[tactic(auto, unfolding(crate::specs::Controls::control_type_of))]
fn control_type(word: &[u8]) -> Result<ControlType, LineError>
    ensures value { Gives (λ kind. kind) result (control_type_of word.now) }
{
    if reads(word, b"standard") {
        Ok(ControlType::Standard)
    } else if reads(word, b"class") {
        Ok(ControlType::Class)
    } else if reads(word, b"vendor") {
        Ok(ControlType::Vendor)
    } else {
        Err(LineError::Malformed)
    }
}

/// What a request is meant for.
#[tactic(auto, unfolding(crate::specs::Controls::recipient_of))]
fn recipient(word: &[u8]) -> Result<Recipient, LineError>
    ensures value { Gives (λ recipient. recipient) result (recipient_of word.now) }
{
    if reads(word, b"device") {
        Ok(Recipient::Device)
    } else if reads(word, b"interface") {
        Ok(Recipient::Interface)
    } else if reads(word, b"endpoint") {
        Ok(Recipient::Endpoint)
    } else if reads(word, b"other") {
        Ok(Recipient::Other)
    } else {
        Err(LineError::Malformed)
    }
}

/// What a setup packet says, in five words, and the words behind them.
#[tactic(auto, unfolding(crate::specs::Controls::setup_and_more))]
pub fn setup_and_more<'w, 'a>(words: &'w [&'a [u8]]) -> Result<(Setup, &'w [&'a [u8]]), LineError>
    ensures value { Gives (λ x. (x.0, texts x.1.now)) result (setup_and_more (texts words.now)) }
    ensures fewer { IfOk result (λ x. length x.1.now < length words.now) }
{
    match words {
        [kind, to, request, value, index, more @ ..] => {
            let setup = Setup {
                control_type: control_type(*kind)?,
                recipient: recipient(*to)?,
                request: hex_byte(*request)?,
                value: hex_word(*value)?,
                index: hex_word(*index)?,
            };
            Ok((setup, more))
        }
        _ => Err(LineError::Malformed),
    }
}

/// How many bytes of a data stage are asked for.
pub fn data_length(word: &[u8]) -> Result<u16, LineError>
    ensures value { Gives (λ n. n) result (number_of 65535 word.now) }
{
    let length = number(MAX_DATA, word)?;
    Ok(length as u16)
}
