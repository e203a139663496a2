//! The lines of what is set on a device or an interface.

ghost use Rattle.std.specs.Prelude.{◌≡◌, ◌++◌, OnOk, string_bytes};
ghost use Rattle.usb_error.specs.Active.{active_text};
ghost use Rattle.usb_session_text.specs.Settings.{configuration_line, no_configuration_line, speed_word, speed_line, alt_setting_line};

use crate::words::{end_line, push_number, push_number_part};
use usb_desc::NoMemory;
use usb_enum_sysfs::Speed;
use usb_error::ActiveConfigurationError;

/// Appends the value of the active configuration.
#[tactic(auto, unfolding(crate::specs::Settings::configuration_line))]
pub fn write_configuration(out: &mut String, value: u8) -> Result<(), NoMemory>
    ensures text { OnOk result
        (string_bytes out.new ≡ string_bytes out.old ++ configuration_line value) }
{
    out.push_str("config")?;
    push_number_part(out, u64::from(value))?;
    end_line(out)
}

/// Appends the text of an error.
fn push_active_text(out: &mut String, error: &ActiveConfigurationError) -> Result<(), NoMemory>
    ensures text { OnOk result
        (string_bytes out.new ≡ string_bytes out.old ++ active_text error.now) }
{
    if error.configuration_value == 0 {
        out.push_str("device is not configured")?;
        return Ok(());
    }
    out.push_str("no descriptor found for active configuration ")?;
    let value = error.configuration_value as u64;
    push_number(out, value)?;
    Ok(())
}

/// Appends that there is no active configuration, and why.
#[tactic(auto, unfolding(crate::specs::Settings::no_configuration_line))]
pub fn write_no_configuration(
    out: &mut String,
    error: &ActiveConfigurationError,
) -> Result<(), NoMemory>
    ensures text { OnOk result
        (string_bytes out.new ≡ string_bytes out.old ++ no_configuration_line error.now) }
{
    out.push_str("noconfig ")?;
    push_active_text(out, error)?;
    end_line(out)
}

/// The word of a speed.
pub fn word_of_speed(speed: Option<Speed>) -> &'static str
    ensures word { result.now ≡ speed_word speed }
{
    match speed {
        None => "none",
        Some(Speed::Low) => "Low",
        Some(Speed::Full) => "Full",
        Some(Speed::High) => "High",
        Some(Speed::Super) => "Super",
        Some(Speed::SuperPlus) => "SuperPlus",
    }
}

/// Appends a speed, or that none is told.
#[tactic(auto, unfolding(crate::specs::Settings::speed_line))]
pub fn write_speed(out: &mut String, speed: Option<Speed>) -> Result<(), NoMemory>
    ensures text { OnOk result
        (string_bytes out.new ≡ string_bytes out.old ++ speed_line speed) }
{
    out.push_str("speed ")?;
    out.push_str(word_of_speed(speed))?;
    end_line(out)
}

/// Appends the number of an alternate setting.
#[tactic(auto, unfolding(crate::specs::Settings::alt_setting_line))]
pub fn write_alt_setting(out: &mut String, setting: u8) -> Result<(), NoMemory>
    ensures text { OnOk result
        (string_bytes out.new ≡ string_bytes out.old ++ alt_setting_line setting) }
{
    out.push_str("alt")?;
    push_number_part(out, u64::from(setting))?;
    end_line(out)
}
