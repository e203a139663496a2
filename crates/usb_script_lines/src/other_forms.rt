//! Lines with fields that few others have, or with bytes and further words behind them.
#![tactic(auto, unfolding(crate::specs::Forms::forms, usb_script_words::specs::Fields::one_field, usb_script_words::specs::Fields::two_fields, usb_script_words::specs::Fields::three_fields, crate::specs::Shapes::field_and_steps))]

ghost use Rattle.std.specs.Prelude.{◌≤◌, length, IfOk, codes};
ghost use Rattle.usb_script_words.specs.Fields.{texts};
ghost use Rattle.usb_script_words.specs.Outcome.{Gives};
ghost use Rattle.usb_script_words.specs.Tables.{read_by};
ghost use Rattle.usb_script_lines.specs.Forms.{forms};
ghost use Rattle.usb_script_lines.specs.ItemKinds.{places_in};

use crate::form::{exactly, field, form, letter};
use crate::item::Item;
use std::alloc::Global;
use usb_script_words::{Length, LineError, Name, Timeout, byte, three_words};

/// `device k B B B B BYTES`.
pub fn device_line(alloc: Global, words: &[&[u8]]) -> Result<Item, LineError>
    ensures value { Gives (λ i. i) result (read_by forms (codes "device") (texts words.now)) }
    ensures few { IfOk result (λ item. places_in item ≤ length words.now) }
{
    form!(
        alloc,
        words,
        Device {
            device: k,
            bus: B,
            address: B,
            speed: B,
            configuration: B,
            descriptors: BYTES
        }
    )
}

/// `dsubmitout e BYTES TIME`.
pub fn dsubmitout_line(alloc: Global, words: &[&[u8]]) -> Result<Item, LineError>
    ensures value { Gives (λ i. i) result (read_by forms (codes "dsubmitout") (texts words.now)) }
    ensures few { IfOk result (λ item. places_in item ≤ length words.now) }
{
    form!(
        alloc,
        words,
        SubmitOutWithDeadline {
            endpoint: e,
            bytes: BYTES,
            timeout: TIME
        }
    )
}

/// `write w BYTES : STEP ; ..`.
pub fn write_line(alloc: Global, words: &[&[u8]]) -> Result<Item, LineError>
    ensures value { Gives (λ i. i) result (read_by forms (codes "write") (texts words.now)) }
    ensures few { IfOk result (λ item. places_in item ≤ length words.now) }
{
    form!(alloc, words, Write { writer: w, bytes: BYTES; steps })
}

/// `mreq m BYTES : STEP ; ..`.
pub fn mreq_line(alloc: Global, words: &[&[u8]]) -> Result<Item, LineError>
    ensures value { Gives (λ i. i) result (read_by forms (codes "mreq") (texts words.now)) }
    ensures few { IfOk result (λ item. places_in item ≤ length words.now) }
{
    form!(alloc, words, Request { client: m, body: BYTES; steps })
}

/// `xferout e BYTES TIME : STEP ; ..`.
#[tactic(auto, unfolding(crate::specs::Forms::forms))]
pub fn xferout_line(alloc: Global, words: &[&[u8]]) -> Result<Item, LineError>
    ensures value { Gives (λ i. i) result (read_by forms (codes "xferout") (texts words.now)) }
    ensures few { IfOk result (λ item. places_in item ≤ length words.now) }
{
    form!(alloc, words, TransferOut { endpoint: e, bytes: BYTES, timeout: TIME; steps })
}

/// `dsubmitin e N TIME`.
pub fn dsubmitin_line(words: &[&[u8]]) -> Result<Item, LineError>
    ensures value { Gives (λ i. i) result (read_by forms (codes "dsubmitin") (texts words.now)) }
    ensures few { IfOk result (λ item. places_in item ≤ length words.now) }
{
    let (endpoint, length, timeout) = three_words(words)?;
    let endpoint = Name::parse(b'e', endpoint)?;
    let length = Length::parse(length)?;
    let timeout = Timeout::parse(timeout)?;
    Ok(Item::SubmitInWithDeadline {
        endpoint,
        length,
        timeout,
    })
}

/// `msg m e e`.
pub fn msg_line(words: &[&[u8]]) -> Result<Item, LineError>
    ensures value { Gives (λ i. i) result (read_by forms (codes "msg") (texts words.now)) }
    ensures few { IfOk result (λ item. places_in item ≤ length words.now) }
{
    let (client, out, inp) = three_words(words)?;
    let client = Name::parse(b'm', client)?;
    let out = Name::parse(b'e', out)?;
    let inp = Name::parse(b'e', inp)?;
    Ok(Item::Client { client, out, inp })
}

/// `open d B B`.
pub fn open_line(words: &[&[u8]]) -> Result<Item, LineError>
    ensures value { Gives (λ i. i) result (read_by forms (codes "open") (texts words.now)) }
    ensures few { IfOk result (λ item. places_in item ≤ length words.now) }
{
    let (device, bus, address) = three_words(words)?;
    let device = Name::parse(b'd', device)?;
    let bus = byte(bus)?;
    let address = byte(address)?;
    Ok(Item::Open {
        device,
        bus,
        address,
    })
}
