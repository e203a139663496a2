//! Answers to questions on descriptors, strings and sets of endpoints.

use std::alloc::AllocError;
use std::num::NonZeroU8;
use usb_desc::{
    ConfigurationDescriptor, Descriptor, DeviceDescriptor, Direction, EndpointBitSet,
    EndpointDescriptor, InterfaceDescriptor, InterfaceDescriptors, TransferType, concatenated,
    decode_string_descriptor, find_configuration, validate_string_descriptor,
};

/// What is asked of the bytes of a hexadecimal text.
pub fn write_reading(out: &mut String, word: &str, text: &str) -> Result<(), AllocError> {
    match hex::decode(*out.allocator(), text) {
        Ok(bytes) => write_read(out, word, &bytes),
        Err(_) => out.push_str("unreadable"),
    }
}

fn write_read(out: &mut String, word: &str, bytes: &[u8]) -> Result<(), AllocError> {
    match word {
        "one" => write_single(out, bytes),
        "dev" => write_device(out, bytes),
        "cfg" => write_configuration(out, bytes),
        "all" => write_all(out, bytes),
        "both" => write_both(out, bytes),
        "order" => write_order(out, bytes),
        "str" => write_string(out, bytes),
        "find" => write_found(out, bytes),
        _ => write_mask(out, bytes),
    }
}

/// Writes numbers: what stands before each, how many hexadecimal digits it has (none if it is
/// decimal), and its value.
fn write_numbers(out: &mut String, numbers: &[(&str, u8, usize)]) -> Result<(), AllocError> {
    for (before, digits, number) in numbers {
        out.push_str(before)?;
        match digits {
            2 => write!(out, "{number:02x}")?,
            4 => write!(out, "{number:04x}")?,
            8 => write!(out, "{number:08x}")?,
            _ => write!(out, "{number}")?,
        }
    }
    Ok(())
}

fn number_of(index: Option<NonZeroU8>) -> usize {
    match index {
        Some(number) => usize::from(number.get()),
        None => 0,
    }
}

fn write_single(out: &mut String, bytes: &[u8]) -> Result<(), AllocError> {
    match Descriptor::new(bytes) {
        None => out.push_str("none"),
        Some(single) => write_numbers(
            out,
            &[
                ("", 0, single.descriptor_len()),
                (" ", 0, usize::from(single.descriptor_type())),
                (" ", 0, single.as_bytes().len()),
            ],
        ),
    }
}

fn write_device(out: &mut String, bytes: &[u8]) -> Result<(), AllocError> {
    let Some(device) = DeviceDescriptor::new(bytes) else {
        return out.push_str("none");
    };
    write_numbers(
        out,
        &[
            ("device ", 4, usize::from(device.usb_version())),
            (" ", 2, usize::from(device.class())),
            (" ", 2, usize::from(device.subclass())),
            (" ", 2, usize::from(device.protocol())),
            (" ", 0, usize::from(device.max_packet_size_0())),
            (" ", 4, usize::from(device.vendor_id())),
            (" ", 4, usize::from(device.product_id())),
            (" ", 4, usize::from(device.device_version())),
            (" ", 0, number_of(device.manufacturer_string_index())),
            (" ", 0, number_of(device.product_string_index())),
            (" ", 0, number_of(device.serial_number_string_index())),
            (" ", 0, usize::from(device.num_configurations())),
            (" bytes ", 0, device.as_bytes().len()),
        ],
    )
}

fn write_configuration(out: &mut String, bytes: &[u8]) -> Result<(), AllocError> {
    let Some(configuration) = ConfigurationDescriptor::new(bytes) else {
        return out.push_str("none");
    };
    write_numbers(
        out,
        &[
            ("cfg ", 0, usize::from(configuration.configuration_value())),
            (" len ", 0, configuration.as_bytes().len()),
            (" n ", 0, usize::from(configuration.num_interfaces())),
            (" str ", 0, number_of(configuration.string_index())),
            (" attr ", 2, usize::from(configuration.attributes())),
            (" pow ", 0, usize::from(configuration.max_power())),
        ],
    )?;
    write_interfaces(out, &configuration, true)?;
    write_chain(out, &configuration)
}

fn write_chain(
    out: &mut String,
    configuration: &ConfigurationDescriptor,
) -> Result<(), AllocError> {
    out.push_str(" chain")?;
    for single in configuration.descriptors() {
        write_numbers(
            out,
            &[
                (" ", 2, single.descriptor_len()),
                (":", 2, usize::from(single.descriptor_type())),
                (":", 0, single.as_bytes().len()),
            ],
        )?;
    }
    Ok(())
}

fn write_all(out: &mut String, bytes: &[u8]) -> Result<(), AllocError> {
    if DeviceDescriptor::new(bytes).is_none() {
        return out.push_str("invalid");
    }
    out.push_str("desc")?;
    for configuration in concatenated(bytes.get(18..).unwrap_or(&[])) {
        let value = configuration.configuration_value();
        write_numbers(out, &[(" cfg ", 0, usize::from(value))])?;
        write_interfaces(out, &configuration, false)?;
    }
    Ok(())
}

fn write_both(out: &mut String, bytes: &[u8]) -> Result<(), AllocError> {
    write_device(out, bytes)?;
    out.push_str("; ")?;
    write_all(out, bytes)
}

fn write_interfaces(
    out: &mut String,
    configuration: &ConfigurationDescriptor,
    with_details: bool,
) -> Result<(), AllocError> {
    let Ok(interfaces) = configuration.interfaces(*out.allocator()) else {
        return Err(AllocError);
    };
    for interface in interfaces {
        for setting in interface.alt_settings() {
            write_setting(out, &setting, with_details)?;
        }
    }
    Ok(())
}

/// Writes the number of each interface, its first setting and all of them in their order.
fn write_order(out: &mut String, bytes: &[u8]) -> Result<(), AllocError> {
    let Some(configuration) = ConfigurationDescriptor::new(bytes) else {
        return out.push_str("none");
    };
    let Ok(interfaces) = configuration.interfaces(*out.allocator()) else {
        return Err(AllocError);
    };
    out.push_str("order")?;
    for interface in interfaces {
        write_settings(out, &interface)?;
    }
    Ok(())
}

fn write_settings(out: &mut String, interface: &InterfaceDescriptors) -> Result<(), AllocError> {
    // what is written is that of a copy
    let Ok(interface) = interface.clone() else {
        return Err(AllocError);
    };
    let first = interface.first_alt_setting().alternate_setting();
    write_numbers(
        out,
        &[
            (" if ", 0, usize::from(interface.interface_number())),
            (" first ", 0, usize::from(first)),
        ],
    )?;
    out.push_str(" all")?;
    for setting in interface.alt_settings() {
        write_numbers(out, &[(" ", 0, usize::from(setting.alternate_setting()))])?;
    }
    Ok(())
}

fn write_setting(
    out: &mut String,
    setting: &InterfaceDescriptor,
    with_details: bool,
) -> Result<(), AllocError> {
    write_numbers(
        out,
        &[
            (" if ", 0, usize::from(setting.interface_number())),
            (".", 0, usize::from(setting.alternate_setting())),
            (" ", 2, usize::from(setting.class())),
            (" ", 2, usize::from(setting.subclass())),
            (" ", 2, usize::from(setting.protocol())),
        ],
    )?;
    if with_details {
        write_setting_details(out, setting)?;
    }
    for endpoint in setting.endpoints() {
        write_endpoint(out, &endpoint, with_details)?;
    }
    Ok(())
}

fn write_setting_details(
    out: &mut String,
    setting: &InterfaceDescriptor,
) -> Result<(), AllocError> {
    write_numbers(
        out,
        &[
            (" [len ", 0, setting.as_bytes().len()),
            (" n ", 0, usize::from(setting.num_endpoints())),
            (" str ", 0, number_of(setting.string_index())),
        ],
    )?;
    out.push_str("]")
}

fn write_endpoint(
    out: &mut String,
    endpoint: &EndpointDescriptor,
    with_details: bool,
) -> Result<(), AllocError> {
    write_numbers(out, &[(" ep ", 2, usize::from(endpoint.address()))])?;
    out.push_str(word_of(endpoint.transfer_type()))?;
    write_numbers(
        out,
        &[
            (" ", 0, endpoint.max_packet_size()),
            (" ", 0, usize::from(endpoint.interval())),
        ],
    )?;
    if with_details {
        write_endpoint_details(out, endpoint)?;
    }
    Ok(())
}

fn write_endpoint_details(
    out: &mut String,
    endpoint: &EndpointDescriptor,
) -> Result<(), AllocError> {
    write_numbers(
        out,
        &[
            (" [len ", 0, endpoint.as_bytes().len()),
            (" attr ", 2, usize::from(endpoint.attributes())),
            (" raw ", 4, usize::from(endpoint.max_packet_size_raw())),
            (" ppm ", 0, usize::from(endpoint.packets_per_microframe())),
            (
                " in ",
                0,
                usize::from(endpoint.direction() == Direction::In),
            ),
        ],
    )?;
    out.push_str("]")
}

fn word_of(transfer_type: TransferType) -> &'static str {
    match transfer_type {
        TransferType::Control => " control",
        TransferType::Isochronous => " iso",
        TransferType::Bulk => " bulk",
        TransferType::Interrupt => " interrupt",
    }
}

/// What is found by the numbers of a configuration, an interface, its setting and an endpoint,
/// which stand before the descriptors of a device.
fn write_found(out: &mut String, bytes: &[u8]) -> Result<(), AllocError> {
    let [value, interface, setting, address, device @ ..] = bytes else {
        return out.push_str("no numbers");
    };
    let Some(configuration) = find_configuration(device, *value) else {
        return out.push_str("no configuration");
    };
    let has_interface = configuration.has_interface(*interface);
    write_numbers(
        out,
        &[
            ("pow ", 0, usize::from(configuration.max_power())),
            (" has ", 0, usize::from(has_interface)),
        ],
    )?;
    match configuration.find_alt_setting(*interface, *setting) {
        Some(setting) => write_found_endpoint(out, &setting, *address),
        None => out.push_str(" no setting"),
    }
}

fn write_found_endpoint(
    out: &mut String,
    setting: &InterfaceDescriptor,
    address: u8,
) -> Result<(), AllocError> {
    match setting.find_endpoint(address) {
        Some(endpoint) => write_endpoint(out, &endpoint, true),
        None => out.push_str(" no endpoint"),
    }
}

pub fn write_bytes(out: &mut String, bytes: &[u8]) -> Result<(), AllocError> {
    for byte in bytes {
        write_numbers(out, &[("", 2, usize::from(*byte))])?;
    }
    Ok(())
}

fn write_string(out: &mut String, bytes: &[u8]) -> Result<(), AllocError> {
    if !validate_string_descriptor(bytes) {
        return out.push_str("invalid");
    }
    let Ok(text) = decode_string_descriptor(*out.allocator(), bytes) else {
        return Err(AllocError);
    };
    out.push_str(if text.is_empty() {
        "string -"
    } else {
        "string "
    })?;
    write_bytes(out, text.as_bytes())
}

fn write_mask(out: &mut String, bytes: &[u8]) -> Result<(), AllocError> {
    let address = bytes.first().copied().unwrap_or(0);
    write_numbers(out, &[("", 8, EndpointBitSet::mask(address) as usize)])
}

/// The byte of a hexadecimal text.
fn byte_of(text: &str) -> u8 {
    u8::from_str_radix(text, 16).unwrap_or(0)
}

/// Makes a change to a set, or writes whether an endpoint is in it.
fn write_change(
    out: &mut String,
    set: &mut EndpointBitSet,
    change: &str,
) -> Result<(), AllocError> {
    if let Some(address) = change.strip_prefix("s") {
        set.set(byte_of(address));
    } else if let Some(address) = change.strip_prefix("c") {
        set.clear(byte_of(address));
    } else if let Some(address) = change.strip_prefix("q") {
        let is_set = set.is_set(byte_of(address));
        out.push_str(if is_set { "1" } else { "0" })?;
    }
    Ok(())
}

/// Changes to a set of endpoints: what is in it when it is asked, and whether it is empty at last.
pub fn write_set(out: &mut String, changes: &str) -> Result<(), AllocError> {
    let mut set = EndpointBitSet::default();
    for change in changes.split(' ') {
        write_change(out, &mut set, change)?;
    }
    if out.is_empty() {
        out.push_str("-")?;
    }
    out.push_str(if set.is_empty() {
        " empty 1"
    } else {
        " empty 0"
    })
}
