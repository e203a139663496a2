//! Descriptors that are asked of a device: USB 2.0, section 9.4.3.

ghost use Rattle.std.specs.Prelude.{string_bytes};
ghost use Rattle.std.specs.Option.{ForSome};
ghost use Rattle.std.specs.Int.NonZero.{non_zero_u8_get};
ghost use Rattle.usb_device_tables.specs.History.{value_at};
ghost use Rattle.usb_error.specs.Outcomes.{result_map};
ghost use Rattle.usb_device_host.specs.HandleStates.{StandsDevice};
ghost use Rattle.usb_device.specs.KeptHandles.{HandlesStand};
ghost use Rattle.usb_device_host.specs.CallErrors.{Leaves};
ghost use Rattle.usb_device.specs.ControlCalls.{Answers};
ghost use Rattle.usb_device.specs.DescriptorCalls.{descriptor_request, descriptor_asked, descriptor_answered, text_answered, languages_answered, LeavesEither};

use crate::device::Device;
use std::num::NonZeroU8;
use usb_desc::{
    ControlIn, ControlType, Fail, Languages, Recipient, StringError, decode_string_descriptor,
    validate_string_descriptor,
};
use usb_device_host::Host;
use usb_error::GetDescriptorError;

/// The request GET_DESCRIPTOR.
const GET_DESCRIPTOR: u8 = 0x06;

/// The type of string descriptors (USB 2.0, table 9-5).
const STRING_TYPE: u8 = 3;

impl Device {
    /// Asks the device for a descriptor by its type and index, and for a string by its language
    /// too, which is 0 for any other. At most 4096 bytes come. Where memory is wanting nothing has
    /// changed.
    ///
    /// # Errors
    ///
    /// `Transfer` with the status of the transfer, where that is one.
    pub fn get_descriptor(
        &self,
        host: &mut Host,
        desc_type: u8,
        desc_index: u8,
        language_id: u16,
        timeout: u64,
    ) -> Result<Vec<u8>, Fail<GetDescriptorError>>
        requires stands { StandsDevice host.old self.now }
        ensures answer { ForSome (value_at host.old.devices self.now) (λ o.
            Answers (result_map (λ bytes. bytes.items) result)
            (descriptor_answered host.old o.device
            (descriptor_request desc_type desc_index language_id) timeout)) }
        ensures host { ForSome (value_at host.old.devices self.now) (λ o.
            Leaves result host.new (descriptor_asked host.old o.device
            (descriptor_request desc_type desc_index language_id) timeout) host.old) }
        ensures stands { StandsDevice host.new self.now }
        ensures handles { HandlesStand host.old host.new }
    {
        let setup = ControlIn {
            control_type: ControlType::Standard,
            recipient: Recipient::Device,
            request: GET_DESCRIPTOR,
            value: u16::from(desc_type) * 256 + u16::from(desc_index),
            index: language_id,
            length: 4096,
        };
        match self.control_in(host, setup, timeout) {
            Ok(bytes) => Ok(bytes),
            Err(Fail::Cause(error)) => Err(Fail::Cause(GetDescriptorError::Transfer(error))),
            Err(Fail::Memory) => Err(Fail::Memory),
        }
    }

    /// The languages in which the device has strings, as its string descriptor 0 lists them (USB
    /// 2.0, section 9.6.7). Where memory is wanting nothing has changed.
    ///
    /// # Errors
    ///
    /// `Transfer` with the status of the transfer, where that is one, and `InvalidDescriptor` where
    /// what came is no string descriptor.
    pub fn get_string_descriptor_supported_languages(
        &self,
        host: &mut Host,
        timeout: u64,
    ) -> Result<Languages, Fail<GetDescriptorError>>
        requires stands { StandsDevice host.old self.now }
        ensures answer { ForSome (value_at host.old.devices self.now) (λ o.
            Answers result (languages_answered host.old o.device (descriptor_request 3 0 0)
            timeout)) }
        ensures host { ForSome (value_at host.old.devices self.now) (λ o.
            Leaves result host.new (descriptor_asked host.old o.device (descriptor_request 3 0 0)
            timeout) host.old) }
        ensures stands { StandsDevice host.new self.now }
        ensures handles { HandlesStand host.old host.new }
    {
        match self.get_descriptor(host, STRING_TYPE, 0, 0, timeout) {
            Ok(bytes) => {
                if !validate_string_descriptor(bytes.as_slice()) {
                    return Err(Fail::Cause(GetDescriptorError::InvalidDescriptor));
                }
                Ok(Languages::new(bytes))
            }
            Err(error) => Err(error),
        }
    }

    /// The text of a string descriptor in a language (USB 2.0, section 9.6.7). Memory is taken for
    /// the transfer, where nothing has changed if it is wanting, and for the text once a string
    /// descriptor has come.
    ///
    /// # Errors
    ///
    /// `Transfer` with the status of the transfer, where that is one, and `InvalidDescriptor` where
    /// what came is no string descriptor.
    pub fn get_string_descriptor(
        &self,
        host: &mut Host,
        desc_index: NonZeroU8,
        language_id: u16,
        timeout: u64,
    ) -> Result<String, Fail<GetDescriptorError>>
        requires stands { StandsDevice host.old self.now }
        ensures answer { ForSome (value_at host.old.devices self.now) (λ o.
            Answers (result_map string_bytes result) (text_answered host.old o.device
            (descriptor_request 3 (non_zero_u8_get desc_index) language_id) timeout)) }
        ensures host { ForSome (value_at host.old.devices self.now) (λ o.
            LeavesEither result (text_answered host.old o.device
            (descriptor_request 3 (non_zero_u8_get desc_index) language_id) timeout) host.new
            (descriptor_asked host.old o.device
            (descriptor_request 3 (non_zero_u8_get desc_index) language_id) timeout) host.old) }
        ensures stands { StandsDevice host.new self.now }
        ensures handles { HandlesStand host.old host.new }
    {
        let alloc = host.allocator();
        match self.get_descriptor(host, STRING_TYPE, desc_index.get(), language_id, timeout) {
            Ok(bytes) => match decode_string_descriptor(alloc, bytes.as_slice()) {
                Ok(text) => Ok(text),
                Err(StringError::Invalid) => {
                    Err(Fail::Cause(GetDescriptorError::InvalidDescriptor))
                }
                Err(StringError::Memory) => Err(Fail::Memory),
            },
            Err(error) => Err(error),
        }
    }
}
