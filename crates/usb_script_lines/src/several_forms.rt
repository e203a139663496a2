//! Lines whose first word has several forms, which the letters of the names tell apart.
#![tactic(auto, unfolding(crate::specs::Forms::forms, usb_script_words::specs::Fields::one_field, usb_script_words::specs::Fields::two_fields, usb_script_words::specs::Fields::three_fields, crate::specs::Shapes::field_and_steps))]

ghost use Rattle.std.specs.Prelude.{◌≤◌, length, IfOk, codes};
ghost use Rattle.usb_script_words.specs.Fields.{texts};
ghost use Rattle.usb_script_words.specs.Outcome.{Gives};
ghost use Rattle.usb_script_words.specs.Tables.{read_by};
ghost use Rattle.usb_script_lines.specs.Forms.{forms};
ghost use Rattle.usb_script_lines.specs.ItemKinds.{places_in};

use crate::item::Item;
use usb_script_words::{Length, LineError, Name, Timeout, one_word, two_words};

/// `cancel e` or `cancel r`.
pub fn cancel_line(words: &[&[u8]]) -> Result<Item, LineError>
    ensures value { Gives (λ i. i) result (read_by forms (codes "cancel") (texts words.now)) }
    ensures few { IfOk result (λ item. places_in item ≤ length words.now) }
{
    let word = one_word(words)?;
    if let Some(endpoint) = Name::spelled(b'e', word) {
        return Ok(Item::Cancel { endpoint });
    }
    let reader = Name::parse(b'r', word)?;
    Ok(Item::CancelReader { reader })
}

/// `clone d d` or `clone i i`.
pub fn clone_line(words: &[&[u8]]) -> Result<Item, LineError>
    ensures value { Gives (λ i. i) result (read_by forms (codes "clone") (texts words.now)) }
    ensures few { IfOk result (λ item. places_in item ≤ length words.now) }
{
    let (new, old) = two_words(words)?;
    if let (Some(name), Some(device)) = (Name::spelled(b'd', new), Name::spelled(b'd', old)) {
        return Ok(Item::CloneDevice { name, device });
    }
    let name = Name::parse(b'i', new)?;
    let interface = Name::parse(b'i', old)?;
    Ok(Item::CloneInterface { name, interface })
}

/// `close d`, and so with the name of an interface, an endpoint, a reader, a writer, a client or a future.
pub fn close_line(words: &[&[u8]]) -> Result<Item, LineError>
    ensures value { Gives (λ i. i) result (read_by forms (codes "close") (texts words.now)) }
    ensures few { IfOk result (λ item. places_in item ≤ length words.now) }
{
    let word = one_word(words)?;
    if let Some(device) = Name::spelled(b'd', word) {
        return Ok(Item::CloseDevice { device });
    }
    if let Some(interface) = Name::spelled(b'i', word) {
        return Ok(Item::CloseInterface { interface });
    }
    if let Some(endpoint) = Name::spelled(b'e', word) {
        return Ok(Item::CloseEndpoint { endpoint });
    }
    if let Some(reader) = Name::spelled(b'r', word) {
        return Ok(Item::CloseReader { reader });
    }
    if let Some(writer) = Name::spelled(b'w', word) {
        return Ok(Item::CloseWriter { writer });
    }
    if let Some(client) = Name::spelled(b'm', word) {
        return Ok(Item::CloseClient { client });
    }
    let future = Name::parse(b'f', word)?;
    Ok(Item::CloseFuture { future })
}

/// `halt e` or `halt r`.
pub fn halt_line(words: &[&[u8]]) -> Result<Item, LineError>
    ensures value { Gives (λ i. i) result (read_by forms (codes "halt") (texts words.now)) }
    ensures few { IfOk result (λ item. places_in item ≤ length words.now) }
{
    let word = one_word(words)?;
    if let Some(endpoint) = Name::spelled(b'e', word) {
        return Ok(Item::ClearHalt { endpoint });
    }
    let reader = Name::parse(b'r', word)?;
    Ok(Item::ClearReaderHalt { reader })
}

/// `inner e r` or `inner e w`.
pub fn inner_line(words: &[&[u8]]) -> Result<Item, LineError>
    ensures value { Gives (λ i. i) result (read_by forms (codes "inner") (texts words.now)) }
    ensures few { IfOk result (λ item. places_in item ≤ length words.now) }
{
    let (endpoint, stream) = two_words(words)?;
    let endpoint = Name::parse(b'e', endpoint)?;
    if let Some(reader) = Name::spelled(b'r', stream) {
        return Ok(Item::IntoInner { endpoint, reader });
    }
    let writer = Name::parse(b'w', stream)?;
    Ok(Item::WriterIntoInner { endpoint, writer })
}

/// `num r N` or `num w N`.
pub fn num_line(words: &[&[u8]]) -> Result<Item, LineError>
    ensures value { Gives (λ i. i) result (read_by forms (codes "num") (texts words.now)) }
    ensures few { IfOk result (λ item. places_in item ≤ length words.now) }
{
    let (word, count) = two_words(words)?;
    let count = Length::parse(count)?.bytes();
    if let Some(reader) = Name::spelled(b'r', word) {
        return Ok(Item::SetNumTransfers { reader, count });
    }
    let writer = Name::parse(b'w', word)?;
    Ok(Item::SetWriterTransfers { writer, count })
}

/// `timeout r TIME` or `timeout w TIME`.
pub fn timeout_line(words: &[&[u8]]) -> Result<Item, LineError>
    ensures value { Gives (λ i. i) result (read_by forms (codes "timeout") (texts words.now)) }
    ensures few { IfOk result (λ item. places_in item ≤ length words.now) }
{
    let (word, timeout) = two_words(words)?;
    let timeout = Timeout::parse(timeout)?;
    if let Some(reader) = Name::spelled(b'r', word) {
        return Ok(Item::SetReadTimeout { reader, timeout });
    }
    let writer = Name::parse(b'w', word)?;
    Ok(Item::SetWriteTimeout { writer, timeout })
}
