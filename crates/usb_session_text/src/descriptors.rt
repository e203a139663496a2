//! The line of a device's configurations.

ghost use Rattle.std.specs.Prelude.{◌≡◌, ◌++◌, OnOk, decimal, string_bytes, drop, flat_map};
ghost use Rattle.usb_desc.specs.Configurations.{configurations, endpoints};
ghost use Rattle.usb_desc.specs.Fields.{address, transfer_type, max_packet_size, interval};
ghost use Rattle.usb_session_text.specs.Descriptors.{type_word, endpoint_part, number_word, class_words, setting_words, interface_part, configuration_part, descriptors_line};
ghost use Rattle.usb_session_text.specs.Settings.{interface_line};
ghost use Rattle.usb_session_text.specs.Words.{part, two_digits};

use crate::words::{
    end_line, push_class_code, push_number, push_number_part, push_space, push_two_digits,
};
use usb_desc::{
    ConfigurationDescriptor, EndpointDescriptor, InterfaceDescriptor, InterfaceDescriptors,
    NoMemory, TransferType, concatenated,
};

fn type_word(kind: TransferType) -> &'static str
    ensures word { result.now ≡ type_word kind }
{
    match kind {
        TransferType::Control => "control",
        TransferType::Isochronous => "iso",
        TransferType::Bulk => "bulk",
        TransferType::Interrupt => "interrupt",
    }
}

/// Appends the address and the type of an endpoint, each with a space before it.
fn push_address(out: &mut String, endpoint: &EndpointDescriptor) -> Result<(), NoMemory>
    ensures text { OnOk result (string_bytes out.new ≡ string_bytes out.old
        ++ part (two_digits (address endpoint.now))
        ++ part (type_word (transfer_type endpoint.now))) }
{
    push_space(out)?;
    push_two_digits(out, endpoint.address())?;
    push_space(out)?;
    out.push_str(type_word(endpoint.transfer_type()))?;
    Ok(())
}

/// Appends the maximum packet size and the interval of an endpoint, each with a space before it.
fn push_sizes(out: &mut String, endpoint: &EndpointDescriptor) -> Result<(), NoMemory>
    ensures text { OnOk result (string_bytes out.new ≡ string_bytes out.old
        ++ part (decimal (max_packet_size endpoint.now))
        ++ part (decimal (interval endpoint.now))) }
{
    let maximum = endpoint.max_packet_size();
    push_number_part(out, maximum as u64)?;
    push_number_part(out, u64::from(endpoint.interval()))
}

/// Appends an endpoint: ` ep HH TYPE MAX INTERVAL`.
#[tactic(auto, unfolding(crate::specs::Descriptors::endpoint_words))]
fn push_endpoint(out: &mut String, endpoint: &EndpointDescriptor) -> Result<(), NoMemory>
    ensures text { OnOk result
        (string_bytes out.new ≡ string_bytes out.old ++ endpoint_part endpoint.now) }
{
    out.push_str(" ep")?;
    push_address(out, endpoint)?;
    push_sizes(out, endpoint)
}

/// Appends the numbers of a setting's interface and of the setting, with a dot between them.
fn push_numbers(out: &mut String, setting: &InterfaceDescriptor) -> Result<(), NoMemory>
    ensures text { OnOk result
        (string_bytes out.new ≡ string_bytes out.old ++ number_word setting.now) }
{
    push_number(out, u64::from(setting.interface_number()))?;
    out.push_str(".")?;
    push_number(out, u64::from(setting.alternate_setting()))
}

/// Appends a setting without its endpoints.
#[tactic(auto, unfolding(crate::specs::Descriptors::class_words))]
fn push_class(out: &mut String, setting: &InterfaceDescriptor) -> Result<(), NoMemory>
    ensures text { OnOk result
        (string_bytes out.new ≡ string_bytes out.old ++ class_words setting.now) }
{
    out.push_str("if ")?;
    push_numbers(out, setting)?;
    push_space(out)?;
    push_class_code(out, setting.class(), setting.subclass(), setting.protocol())?;
    Ok(())
}

/// Appends the endpoints of a setting, each with a space before it.
fn push_endpoints(out: &mut String, setting: &InterfaceDescriptor) -> Result<(), NoMemory>
    ensures text { OnOk result (string_bytes out.new ≡ string_bytes out.old
        ++ flat_map endpoint_part (endpoints setting.now)) }
{
    for endpoint in setting.endpoints() {
        push_endpoint(out, &endpoint)?;
    }
    Ok(())
}

/// Appends a setting of an interface: `if NUM.ALT CC SS PP`, and for each endpoint ` ep HH TYPE MAX INTERVAL`. The class, the
/// subclass, the protocol and the endpoints' addresses are two hexadecimal digits, and the other numbers decimal.
#[tactic(auto, unfolding(crate::specs::Descriptors::setting_words))]
fn push_setting(out: &mut String, setting: &InterfaceDescriptor) -> Result<(), NoMemory>
    ensures text { OnOk result
        (string_bytes out.new ≡ string_bytes out.old ++ setting_words setting.now) }
{
    push_class(out, setting)?;
    push_endpoints(out, setting)
}

/// Appends the answer that gives a setting of an interface with its endpoints, or `none`.
pub fn write_interface(
    out: &mut String,
    setting: &Option<InterfaceDescriptor>,
) -> Result<(), NoMemory>
    ensures text { OnOk result
        (string_bytes out.new ≡ string_bytes out.old ++ interface_line setting.now) }
{
    match setting {
        Some(setting) => {
            push_setting(out, setting)?;
            end_line(out)
        }
        None => {
            out.push_str("none\n")?;
            Ok(())
        }
    }
}

/// Appends the settings of one interface.
fn push_interface(out: &mut String, interface: &InterfaceDescriptors) -> Result<(), NoMemory>
    ensures text { OnOk result
        (string_bytes out.new ≡ string_bytes out.old ++ interface_part interface.now) }
{
    for setting in interface.alt_settings() {
        push_space(out)?;
        push_setting(out, &setting)?;
    }
    Ok(())
}

/// Appends a configuration: ` cfg VALUE`, and its interfaces by rising number.
#[tactic(auto, unfolding(crate::specs::Descriptors::configuration_words))]
fn push_configuration(
    out: &mut String,
    configuration: &ConfigurationDescriptor,
) -> Result<(), NoMemory>
    ensures text { OnOk result
        (string_bytes out.new ≡ string_bytes out.old ++ configuration_part configuration.now) }
{
    out.push_str(" cfg")?;
    push_number_part(out, u64::from(configuration.configuration_value()))?;
    for interface in configuration.interfaces(*out.allocator())? {
        push_interface(out, &interface)?;
    }
    Ok(())
}

/// How many bytes a device descriptor has.
const DEVICE_LEN: usize = 18;

/// The bytes behind the device descriptor.
fn behind_device(bytes: &[u8]) -> &[u8]
    ensures behind { result.now ≡ drop 18 bytes.now }
{
    if bytes.len() < DEVICE_LEN {
        return &[];
    }
    &bytes[DEVICE_LEN..]
}

/// Appends the configurations of a device, each with a space before it.
#[tactic(auto, unfolding(usb_desc::specs::Configurations::configurations))]
fn push_configurations(out: &mut String, bytes: &[u8]) -> Result<(), NoMemory>
    ensures text { OnOk result
        (string_bytes out.new ≡ string_bytes out.old ++ flat_map configuration_part
        (configurations bytes.now)) }
{
    for configuration in concatenated(behind_device(bytes)) {
        push_configuration(out, &configuration)?;
    }
    Ok(())
}

/// Appends the answer that gives the configurations of a device, of which these are all descriptor bytes: `desc`, and each
/// configuration with a space before it.
#[tactic(auto, unfolding(crate::specs::Descriptors::descriptors_line))]
pub fn write_descriptors(out: &mut String, bytes: &[u8]) -> Result<(), NoMemory>
    ensures text { OnOk result
        (string_bytes out.new ≡ string_bytes out.old ++ descriptors_line bytes.now) }
{
    out.push_str("desc")?;
    push_configurations(out, bytes)?;
    end_line(out)
}
