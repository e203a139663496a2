//! Reading the lines of a trace.

ghost use Rattle.std.specs.Prelude.{◌≡◌, ◌≤◌, length, Err, IfOk, IfSome, IsTrue};
ghost use Rattle.hex.specs.Hex.{IsBytes};
ghost use Rattle.usb_trace_lines.specs.Forms.{IsU64, IsBodySized, HasBytes, GoesWith, IsSubmission, IsTold, IsStatus, IsLineTold};
ghost use Rattle.usb_script_words.specs.Fields.{texts};
ghost use Rattle.usb_script_words.specs.Outcome.{Gives};
ghost use Rattle.usb_script_words.specs.Words.{digits_after};
ghost use Rattle.usb_trace_lines.specs.Readings.{long_number_of, bytes_within, body_of_words, goes_with, seven_words, submitted_of, deadline_of_word, submit_line_of, refuse_line_of, event_named, error_of_word, status_of_word, line_named, line_of_words};

use crate::fate_line::FateLine;
use crate::line::TraceLine;
use crate::sized::{MAX_BODY, MAX_PACKET};
use std::alloc::Global;
use usb_kernel::{Body, Bytes, Event};
use usb_script_words::{
    LineError, byte, errno, hex_byte, no_word, number, one_word, reads, three_words, two_words,
};
use usb_xfer::TransferError;

/// The number that these decimal digits make.
fn digits(word: &[u8]) -> Option<u128>
    requires few { length word.now ≤ 20 }
    ensures value { result ≡ digits_after 0 word.now }
{
    let mut value = 0u128;
    for b in word {
        if !b.is_ascii_digit() {
            return None;
        }
        value = value * 10 + u128::from(*b - b'0');
    }
    Some(value)
}

/// A number of 64 bits.
#[tactic(auto, unfolding(crate::specs::Readings::long_number_of))]
fn ticket(word: &[u8]) -> Result<u64, LineError>
    ensures value { Gives (λ n. n) result (long_number_of word.now) }
{
    if word.len() > 20 {
        return Err(LineError::Malformed);
    }
    let Some(value) = digits(word) else {
        return Err(LineError::Malformed);
    };
    if value > u128::from(u64::MAX) {
        return Err(LineError::Malformed);
    }
    Ok(value as u64)
}

/// What a slice of bytes holds is bytes.
pub(crate) fn are_bytes(bytes: &[u8]) -> usize
    ensures all { IsBytes bytes.now }
    ensures len { result ≡ length bytes.now }
{
    bytes.len()
}

/// Bytes as hexadecimal digits, or a dash for none, at most so many bytes.
#[tactic(auto, unfolding(crate::specs::Readings::bytes_within))]
fn bytes(alloc: Global, most: usize, word: &[u8]) -> Result<Bytes, LineError>
    ensures value { Gives (λ b. b) result (bytes_within most word.now) }
    ensures few { IfOk result (λ b. length b ≤ most) }
    ensures bytes { IfOk result IsBytes }
{
    if reads(word, b"-") {
        return Ok(Bytes::from_vec(Vec::new(alloc)));
    }
    match hex::decode(alloc, word) {
        Ok(bytes) => {
            if are_bytes(bytes.as_slice()) > most {
                return Err(LineError::Malformed);
            }
            Ok(Bytes::from_vec(bytes))
        }
        Err(hex::FromHexError::OutOfMemory) => Err(LineError::Memory),
        Err(_) => Err(LineError::Malformed),
    }
}

/// A direction, and how many bytes are wanted or which are sent.
#[tactic(auto, unfolding(crate::specs::Readings::body_of_words))]
fn body(alloc: Global, direction: &[u8], word: &[u8]) -> Result<Body, LineError>
    ensures value { Gives (λ b. b) result (body_of_words direction.now word.now) }
    ensures sized { IfOk result IsBodySized }
    ensures bytes { IfOk result HasBytes }
{
    if reads(direction, b"in") {
        let wanted = number(MAX_BODY as u64, word)?;
        Ok(Body::Wanted(wanted as usize))
    } else if reads(direction, b"out") {
        Ok(Body::Sent(bytes(alloc, MAX_BODY, word)?))
    } else {
        Err(LineError::Malformed)
    }
}

/// Whether a body goes with the direction of its endpoint.
fn goes_with(endpoint: u8, body: &Body) -> bool
    requires bytes { HasBytes body.now }
    ensures value { result ≡ goes_with endpoint body.now }
    ensures goes { IsTrue result → GoesWith endpoint body.now }
{
    match body {
        Body::Wanted(_) => endpoint >= 128,
        Body::Sent(_) => endpoint < 128,
    }
}

/// What the lines of a submission and of a refusal share.
#[derive(Drop)]
pub(crate) struct SubmittedFields {
    ticket: u64,
    device: u8,
    endpoint: u8,
    maximum: usize,
    body: Body,
}

/// Seven words.
#[tactic(auto, unfolding(crate::specs::Readings::seven_words))]
fn seven_words<'a>(
    words: &[&'a [u8]],
) -> Result<
    (
        &'a [u8],
        &'a [u8],
        &'a [u8],
        &'a [u8],
        &'a [u8],
        &'a [u8],
        &'a [u8],
    ),
    LineError,
>
    ensures value { Gives
        (λ x. (x.0.now, x.1.now, x.2.now, x.3.now, x.4.now, x.5.now, x.6.now)) result
        (seven_words (texts words.now)) }
{
    match *words {
        [a, b, c, d, e, f, g] => Ok((a, b, c, d, e, f, g)),
        _ => Err(LineError::Malformed),
    }
}

/// The words that a submission and a refusal share, and the last word, which they do not.
#[tactic(auto, unfolding(crate::specs::Readings::submitted_of))]
fn submitted<'a>(
    alloc: Global,
    words: &[&'a [u8]],
) -> Result<(SubmittedFields, &'a [u8]), LineError>
    ensures value { Gives (λ s. (s.0, s.1.now)) result (submitted_of (texts words.now)) }
    ensures told { IfOk result (λ s. IsSubmission s.0.ticket s.0.device s.0.endpoint
        s.0.maximum s.0.body) }
{
    let (a, b, c, d, e, f, last) = seven_words(words)?;
    let fields = SubmittedFields {
        ticket: ticket(a)?,
        device: byte(b)?,
        endpoint: hex_byte(c)?,
        maximum: number(MAX_PACKET as u64, d)? as usize,
        body: body(alloc, e, f)?,
    };
    if !goes_with(fields.endpoint, &fields.body) {
        return Err(LineError::Malformed);
    }
    Ok((fields, last))
}

/// A deadline, or a dash for none.
#[tactic(auto, unfolding(crate::specs::Readings::deadline_of_word))]
fn deadline(word: &[u8]) -> Result<Option<u64>, LineError>
    ensures value { Gives (λ d. d) result (deadline_of_word word.now) }
    ensures small { IfOk result (λ d. IfSome d IsU64) }
{
    if reads(word, b"-") {
        return Ok(None);
    }
    let deadline = ticket(word)?;
    Ok(Some(deadline))
}

/// The event of a submission. The capacity of its buffer is not told, and is 0 here.
#[tactic(auto, unfolding(crate::specs::Readings::submit_line_of))]
fn submit_line(alloc: Global, words: &[&[u8]]) -> Result<Event, LineError>
    ensures value { Gives (λ e. e) result (submit_line_of (texts words.now)) }
    ensures told { IfOk result IsTold }
{
    let (fields, last) = submitted(alloc, words)?;
    let deadline = deadline(last)?;
    Ok(Event::Submit {
        ticket: fields.ticket,
        device: fields.device,
        endpoint: fields.endpoint,
        maximum: fields.maximum,
        body: fields.body,
        capacity: 0,
        deadline,
    })
}

/// The event of a refused submission. The capacity of its buffer is not told, and is 0 here.
#[tactic(auto, unfolding(crate::specs::Readings::refuse_line_of))]
fn refuse_line(alloc: Global, words: &[&[u8]]) -> Result<Event, LineError>
    ensures value { Gives (λ e. e) result (refuse_line_of (texts words.now)) }
    ensures told { IfOk result IsTold }
{
    let (fields, last) = submitted(alloc, words)?;
    let errno = errno(last)?;
    Ok(Event::Refuse {
        ticket: fields.ticket,
        device: fields.device,
        endpoint: fields.endpoint,
        maximum: fields.maximum,
        body: fields.body,
        capacity: 0,
        errno,
    })
}

/// The event with this first word.
#[tactic(auto, unfolding(crate::specs::Readings::event_named, usb_script_words::specs::Fields::one_field, usb_script_words::specs::Fields::two_fields, usb_script_words::specs::Fields::three_fields))]
fn event(alloc: Global, name: &[u8], words: &[&[u8]]) -> Result<Event, LineError>
    ensures value { Gives (λ e. e) result (event_named name.now (texts words.now)) }
    ensures told { IfOk result IsTold }
{
    if reads(name, b"submit") {
        submit_line(alloc, words)
    } else if reads(name, b"refuse") {
        refuse_line(alloc, words)
    } else if reads(name, b"pkt") {
        let (first, second, third) = three_words(words)?;
        Ok(Event::Packet {
            device: byte(first)?,
            endpoint: hex_byte(second)?,
            bytes: bytes(alloc, MAX_PACKET, third)?,
        })
    } else if reads(name, b"ack") {
        let (first, second) = two_words(words)?;
        Ok(Event::Ack {
            device: byte(first)?,
            endpoint: hex_byte(second)?,
        })
    } else if reads(name, b"echo") {
        let (first, second, third) = three_words(words)?;
        Ok(Event::Echo {
            device: byte(first)?,
            output: hex_byte(second)?,
            input: hex_byte(third)?,
        })
    } else if reads(name, b"fail") {
        let (first, second, third) = three_words(words)?;
        Ok(Event::Fail {
            device: byte(first)?,
            endpoint: hex_byte(second)?,
            errno: errno(third)?,
        })
    } else if reads(name, b"discard") {
        Ok(Event::Discard {
            ticket: ticket(one_word(words)?)?,
        })
    } else if reads(name, b"reap") {
        Ok(Event::Reap {
            ticket: ticket(one_word(words)?)?,
        })
    } else if reads(name, b"unplug") {
        Ok(Event::Unplug {
            device: byte(one_word(words)?)?,
        })
    } else {
        Err(LineError::Malformed)
    }
}

/// Why a transfer failed.
#[tactic(auto, unfolding(crate::specs::Readings::error_of_word))]
fn error(word: &[u8]) -> Result<TransferError, LineError>
    ensures value { Gives (λ e. e) result (error_of_word word.now) }
    ensures told { IfOk result (λ e. IsStatus (Err e)) }
{
    if reads(word, b"cancelled") {
        Ok(TransferError::Cancelled)
    } else if reads(word, b"stall") {
        Ok(TransferError::Stall)
    } else if reads(word, b"disconnected") {
        Ok(TransferError::Disconnected)
    } else if reads(word, b"fault") {
        Ok(TransferError::Fault)
    } else if reads(word, b"invalid") {
        Ok(TransferError::InvalidArgument)
    } else if word.len() >= 8 && reads(&word[..8], b"unknown:") {
        let errno = errno(&word[8..])?;
        Ok(TransferError::Unknown(u32::from(errno)))
    } else {
        Err(LineError::Malformed)
    }
}

/// The status of a fate.
#[tactic(auto, unfolding(crate::specs::Readings::status_of_word))]
fn status(word: &[u8]) -> Result<Option<Result<(), TransferError>>, LineError>
    ensures value { Gives (λ s. s) result (status_of_word word.now) }
    ensures told { IfOk result (λ s. IfSome s IsStatus) }
{
    if reads(word, b"open") {
        return Ok(None);
    }
    if reads(word, b"ok") {
        return Ok(Some(Ok(())));
    }
    let error = error(word)?;
    Ok(Some(Err(error)))
}

/// The line with this first word.
#[tactic(auto, unfolding(crate::specs::Readings::line_named, usb_script_words::specs::Fields::three_fields))]
fn named_line(alloc: Global, name: &[u8], words: &[&[u8]]) -> Result<TraceLine, LineError>
    ensures value { Gives (λ l. l) result (line_named name.now (texts words.now)) }
    ensures told { IfOk result IsLineTold }
{
    if reads(name, b"nusb-trace") {
        if reads(one_word(words)?, b"1") {
            Ok(TraceLine::First)
        } else {
            Err(LineError::Malformed)
        }
    } else if reads(name, b"end") {
        no_word(words)?;
        Ok(TraceLine::Last)
    } else if reads(name, b"fate") {
        let (first, second, third) = three_words(words)?;
        Ok(TraceLine::Fate(FateLine {
            ticket: ticket(first)?,
            status: status(second)?,
            count: number(MAX_BODY as u64, third)?,
        }))
    } else {
        let event = event(alloc, name, words)?;
        Ok(TraceLine::Event(event))
    }
}

/// The line of these words.
#[tactic(auto, unfolding(crate::specs::Readings::line_of_words))]
pub(crate) fn line(alloc: Global, words: &[&[u8]]) -> Result<TraceLine, LineError>
    ensures value { Gives (λ l. l) result (line_of_words (texts words.now)) }
    ensures told { IfOk result IsLineTold }
{
    match words {
        [name, rest @ ..] => named_line(alloc, *name, rest),
        _ => Err(LineError::Malformed),
    }
}
