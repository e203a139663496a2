//! Descriptors of a device and of a configuration, one after the other (USB 2.0, section 9.6).

ghost use Rattle.std.specs.Prelude.{◌≡◌, length, is_some};
ghost use Rattle.std.specs.List.{slice_get};
ghost use Rattle.usb_desc.specs.Configurations.{device_of};
ghost use Rattle.usb_core_c.specs.Walks.{settings_of, endpoints_of};
ghost use Rattle.usb_core_c.specs.Fields.{device_written, setting_written, endpoint_written};

use usb_desc::{
    ConfigurationDescriptor, DeviceDescriptor, EndpointDescriptor, InterfaceDescriptor,
};

/// What a device descriptor tells (table 9-8), but for its strings.
#[repr(C)]
#[derive(Drop)]
pub struct Device {
    pub usb_version: u16,
    pub class: u8,
    pub subclass: u8,
    pub protocol: u8,
    pub max_packet_size_0: u8,
    pub vendor: u16,
    pub product: u16,
    pub version: u16,
    pub configurations: u8,
}

/// What an alternate setting of an interface tells (table 9-12), but for its string.
#[repr(C)]
#[derive(Drop)]
pub struct Setting {
    pub number: u8,
    pub alternate: u8,
    pub class: u8,
    pub subclass: u8,
    pub protocol: u8,
}

/// What an endpoint tells (table 9-13). The maximum packet size is in bytes.
#[repr(C)]
#[derive(Drop)]
pub struct Endpoint {
    pub address: u8,
    pub attributes: u8,
    pub interval: u8,
    pub max_packet_size: usize,
}

/// The setting with this index of the configuration at the front of `bytes`.
fn setting_at(bytes: &[u8], index: usize) -> Option<InterfaceDescriptor<'_>>
    ensures at { result ≡ slice_get (settings_of bytes.now) index }
{
    match ConfigurationDescriptor::new(bytes) {
        Some(configuration) => configuration.interface_alt_settings().nth(index),
        None => None,
    }
}

/// The endpoint with this number of the setting with this index.
fn endpoint_at(bytes: &[u8], index: usize, number: usize) -> Option<EndpointDescriptor<'_>>
    ensures at { result ≡ slice_get (endpoints_of bytes.now index) number }
{
    match setting_at(bytes, index) {
        Some(setting) => setting.endpoints().nth(number),
        None => None,
    }
}

/// Writes what the device descriptor at the front of `bytes` tells to `out`, and says whether there
/// is one. Where there is none `out` stays as it was.
#[unsafe(no_mangle)]
pub extern "C" fn usb_core_device(bytes: &[u8], out: &mut Device) -> bool
    ensures there { result ≡ is_some (device_of bytes.now) }
    ensures told { out.new ≡ device_written (device_of bytes.now) out.old }
{
    let Some(device) = DeviceDescriptor::new(bytes) else {
        return false;
    };
    *out = Device {
        usb_version: device.usb_version(),
        class: device.class(),
        subclass: device.subclass(),
        protocol: device.protocol(),
        max_packet_size_0: device.max_packet_size_0(),
        vendor: device.vendor_id(),
        product: device.product_id(),
        version: device.device_version(),
        configurations: device.num_configurations(),
    };
    true
}

/// How many settings the configuration at the front of `bytes` has; 0 where none stands there.
#[unsafe(no_mangle)]
pub extern "C" fn usb_core_count_settings(bytes: &[u8]) -> usize
    ensures count { result ≡ length (settings_of bytes.now) }
{
    match ConfigurationDescriptor::new(bytes) {
        Some(configuration) => configuration.interface_alt_settings().count(),
        None => 0,
    }
}

/// Writes what the setting with this index tells to `out`, and says whether there is one. Where
/// there is none `out` stays as it was.
#[unsafe(no_mangle)]
pub extern "C" fn usb_core_setting(bytes: &[u8], index: usize, out: &mut Setting) -> bool
    ensures there { result ≡ is_some (slice_get (settings_of bytes.now) index) }
    ensures told { out.new ≡ setting_written (slice_get (settings_of bytes.now) index) out.old }
{
    let Some(setting) = setting_at(bytes, index) else {
        return false;
    };
    *out = Setting {
        number: setting.interface_number(),
        alternate: setting.alternate_setting(),
        class: setting.class(),
        subclass: setting.subclass(),
        protocol: setting.protocol(),
    };
    true
}

/// Writes what the endpoint with this number of the setting with this index tells to `out`, and says
/// whether there is one. Where there is none `out` stays as it was.
#[unsafe(no_mangle)]
pub extern "C" fn usb_core_endpoint(
    bytes: &[u8],
    index: usize,
    number: usize,
    out: &mut Endpoint,
) -> bool
    ensures there { result ≡ is_some (slice_get (endpoints_of bytes.now index) number) }
    ensures told { out.new ≡
        endpoint_written (slice_get (endpoints_of bytes.now index) number) out.old }
{
    let Some(endpoint) = endpoint_at(bytes, index, number) else {
        return false;
    };
    *out = Endpoint {
        address: endpoint.address(),
        attributes: endpoint.attributes(),
        interval: endpoint.interval(),
        max_packet_size: endpoint.max_packet_size(),
    };
    true
}
