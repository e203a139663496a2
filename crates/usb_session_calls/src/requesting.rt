//! `getdesc`, `langs` and `string`: a device is asked for a descriptor.

ghost use Rattle.std.specs.Prelude.{[]};
ghost use Rattle.std.specs.Int.NonZero.{non_zero_u8_get};
ghost use Rattle.usb_device.specs.DescriptorCalls.{descriptor_request, descriptor_asked, descriptor_answered, languages_answered, text_answered};
ghost use Rattle.usb_script_words.specs.declared.control.ControlTarget.TheVariants as target;
ghost use Rattle.usb_session_text.specs.Controls.{descriptor_line, languages_line, string_line};
ghost use Rattle.usb_session_calls.specs.Controls.{came_line};
ghost use Rattle.usb_session_calls.specs.TargetCalls.{DevicesStand, KeepsHandles, TargetAnswers, number_of_target};

use crate::controlling::{answer_of, bars_control};
use crate::open_at;
use usb_desc::NoMemory;
use usb_device::{Device, Host};
use usb_script_lines::{Name, StringIndex, Timeout};
use usb_session_text::{write_condition, write_descriptor, write_languages, write_string};

/// Asks a device that is open for a descriptor by its type, index and language.
pub(crate) fn get_descriptor_open(
    devices: &[Option<Device>],
    host: &mut Host,
    line: &mut String,
    name: Name,
    descriptor_type: u8,
    index: u8,
    language: u16,
    timeout: Timeout,
) -> Result<(), NoMemory>
    requires devices { DevicesStand host.old devices.now }
    ensures keeps { KeepsHandles host.old host.new }
    ensures answered { TargetAnswers host.old host.new line.old line.new result
        (λ h n. descriptor_asked h n (descriptor_request descriptor_type index language) timeout)
        (λ h n. came_line descriptor_line
        (descriptor_answered h n (descriptor_request descriptor_type index language) timeout))
        (number_of_target host.old devices.now [] (target.Device name)) }
{
    if bars_control(host) {
        return write_condition(line);
    }
    let Some(device) = open_at(devices, name.number()) else {
        return write_condition(line);
    };
    let tried = device.get_descriptor(
        host,
        descriptor_type,
        index,
        language,
        timeout.nanoseconds(),
    );
    write_descriptor(line, &answer_of(tried)?)
}

/// Asks a device that is open for the languages of its strings.
pub(crate) fn languages_open(
    devices: &[Option<Device>],
    host: &mut Host,
    line: &mut String,
    name: Name,
    timeout: Timeout,
) -> Result<(), NoMemory>
    requires devices { DevicesStand host.old devices.now }
    ensures keeps { KeepsHandles host.old host.new }
    ensures answered { TargetAnswers host.old host.new line.old line.new result
        (λ h n. descriptor_asked h n (descriptor_request 3 0 0) timeout)
        (λ h n. came_line languages_line
        (languages_answered h n (descriptor_request 3 0 0) timeout))
        (number_of_target host.old devices.now [] (target.Device name)) }
{
    if bars_control(host) {
        return write_condition(line);
    }
    let Some(device) = open_at(devices, name.number()) else {
        return write_condition(line);
    };
    let tried = device.get_string_descriptor_supported_languages(host, timeout.nanoseconds());
    write_languages(line, answer_of(tried)?)
}

/// Asks a device that is open for a string.
pub(crate) fn string_open(
    devices: &[Option<Device>],
    host: &mut Host,
    line: &mut String,
    name: Name,
    index: &StringIndex,
    language: u16,
    timeout: Timeout,
) -> Result<(), NoMemory>
    requires devices { DevicesStand host.old devices.now }
    ensures keeps { KeepsHandles host.old host.new }
    ensures answered { TargetAnswers host.old host.new line.old line.new result
        (λ h n. descriptor_asked h n (descriptor_request 3 index.now language) timeout)
        (λ h n. came_line string_line
        (text_answered h n (descriptor_request 3 index.now language) timeout))
        (number_of_target host.old devices.now [] (target.Device name)) }
{
    if bars_control(host) {
        return write_condition(line);
    }
    let Some(device) = open_at(devices, name.number()) else {
        return write_condition(line);
    };
    let tried = device.get_string_descriptor(host, index.get(), language, timeout.nanoseconds());
    write_string(line, &answer_of(tried)?)
}
