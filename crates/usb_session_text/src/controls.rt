//! The lines of control transfers, and of what a device tells by them.

ghost use Rattle.std.specs.Prelude.{◌≡◌, ◌++◌, OnOk, string_bytes, flat_map};
ghost use Rattle.usb_error.specs.Outcomes.{result_map};
ghost use Rattle.usb_session_text.specs.Controls.{pending_line, data_line, failed_line, descriptor_failed_line, received_line, sent_line, descriptor_line, language_part, languages_told, languages_line, string_told, string_line};

use crate::calls::write_ok;
use crate::completions::push_status;
use crate::words::{end_line, push_bytes, push_four_digits, push_space};
use usb_desc::{Languages, NoMemory};
use usb_error::GetDescriptorError;
use usb_xfer::TransferError;

/// Appends that a control transfer is on its way.
pub fn write_pending(out: &mut String) -> Result<(), NoMemory>
    ensures text { OnOk result (string_bytes out.new ≡ string_bytes out.old ++ pending_line) }
{
    out.push_str("pending\n")?;
    Ok(())
}

/// Appends the bytes that a device sent.
#[tactic(auto, unfolding(crate::specs::Controls::data_line))]
fn write_data(out: &mut String, bytes: &[u8]) -> Result<(), NoMemory>
    ensures text { OnOk result
        (string_bytes out.new ≡ string_bytes out.old ++ data_line bytes.now) }
{
    out.push_str("data ")?;
    push_bytes(out, bytes)?;
    end_line(out)
}

/// Appends why a control transfer failed.
#[tactic(auto, unfolding(crate::specs::Controls::failed_line))]
fn write_failed(out: &mut String, error: TransferError) -> Result<(), NoMemory>
    ensures text { OnOk result (string_bytes out.new ≡ string_bytes out.old ++ failed_line error) }
{
    out.push_str("failed ")?;
    push_status(out, &Err(error))?;
    end_line(out)
}

/// Appends the answer of a control transfer that brings bytes: these, or why it failed.
pub fn write_received(
    out: &mut String,
    answer: &Result<Vec<u8>, TransferError>,
) -> Result<(), NoMemory>
    ensures text { OnOk result (string_bytes out.new ≡ string_bytes out.old
        ++ received_line (result_map (λ bytes. bytes.items) answer.now)) }
{
    match answer {
        Ok(bytes) => write_data(out, bytes),
        Err(error) => write_failed(out, *error),
    }
}

/// Appends the answer of a control transfer that takes bytes away: done, or why it failed.
pub fn write_sent(out: &mut String, answer: &Result<(), TransferError>) -> Result<(), NoMemory>
    ensures text { OnOk result
        (string_bytes out.new ≡ string_bytes out.old ++ sent_line answer.now) }
{
    match answer {
        Ok(()) => write_ok(out),
        Err(error) => write_failed(out, *error),
    }
}

/// Appends why a descriptor was not read.
fn write_descriptor_failed(out: &mut String, error: GetDescriptorError) -> Result<(), NoMemory>
    ensures text { OnOk result
        (string_bytes out.new ≡ string_bytes out.old ++ descriptor_failed_line error) }
{
    match error {
        GetDescriptorError::Transfer(error) => write_failed(out, error),
        GetDescriptorError::InvalidDescriptor => {
            out.push_str("failed invalid-descriptor\n")?;
            Ok(())
        }
    }
}

/// Appends the bytes of a descriptor, or why it was not read.
pub fn write_descriptor(
    out: &mut String,
    answer: &Result<Vec<u8>, GetDescriptorError>,
) -> Result<(), NoMemory>
    ensures text { OnOk result (string_bytes out.new ≡ string_bytes out.old
        ++ descriptor_line (result_map (λ bytes. bytes.items) answer.now)) }
{
    match answer {
        Ok(bytes) => write_data(out, bytes),
        Err(error) => write_descriptor_failed(out, *error),
    }
}

/// Appends languages, each with a space before it.
fn push_languages(out: &mut String, languages: Languages) -> Result<(), NoMemory>
    ensures text { OnOk result (string_bytes out.new ≡ string_bytes out.old
        ++ flat_map language_part languages) }
{
    for language in languages {
        push_space(out)?;
        push_four_digits(out, language)?;
    }
    Ok(())
}

/// Appends the line of the languages of a device.
#[tactic(auto, unfolding(crate::specs::Controls::languages_told))]
fn write_told(out: &mut String, languages: Languages) -> Result<(), NoMemory>
    ensures text { OnOk result
        (string_bytes out.new ≡ string_bytes out.old ++ languages_told languages) }
{
    out.push_str("langs")?;
    push_languages(out, languages)?;
    end_line(out)
}

/// Appends the languages that a device has strings in, or why they were not read.
pub fn write_languages(
    out: &mut String,
    answer: Result<Languages, GetDescriptorError>,
) -> Result<(), NoMemory>
    ensures text { OnOk result
        (string_bytes out.new ≡ string_bytes out.old ++ languages_line answer) }
{
    match answer {
        Ok(languages) => write_told(out, languages),
        Err(error) => write_descriptor_failed(out, error),
    }
}

/// Appends the line of a string of a device.
#[tactic(auto, unfolding(crate::specs::Controls::string_told))]
fn write_text(out: &mut String, text: &str) -> Result<(), NoMemory>
    ensures text { OnOk result
        (string_bytes out.new ≡ string_bytes out.old ++ string_told text.now) }
{
    out.push_str("string ")?;
    push_bytes(out, text.as_bytes())?;
    end_line(out)
}

/// Appends a string of a device in UTF-8, or why it was not read.
pub fn write_string(
    out: &mut String,
    answer: &Result<String, GetDescriptorError>,
) -> Result<(), NoMemory>
    ensures text { OnOk result (string_bytes out.new ≡ string_bytes out.old
        ++ string_line (result_map (λ text. string_bytes text) answer.now)) }
{
    match answer {
        Ok(text) => write_text(out, text.as_str()),
        Err(error) => write_descriptor_failed(out, *error),
    }
}
