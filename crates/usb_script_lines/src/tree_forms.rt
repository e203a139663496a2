//! Lines about places of the tree of attributes, and about packets of udev.
#![tactic(auto, unfolding(crate::specs::Forms::forms, usb_script_words::specs::Fields::one_field, usb_script_words::specs::Fields::two_fields, usb_script_words::specs::Fields::three_fields, crate::specs::Shapes::field_and_steps))]

ghost use Rattle.std.specs.Prelude.{◌≤◌, length, IfOk, codes};
ghost use Rattle.usb_script_words.specs.Fields.{texts};
ghost use Rattle.usb_script_words.specs.Outcome.{Gives};
ghost use Rattle.usb_script_words.specs.Tables.{read_by};
ghost use Rattle.usb_script_lines.specs.Forms.{forms};
ghost use Rattle.usb_script_lines.specs.ItemKinds.{places_in};

use crate::form::{exactly, field, form, letter};
use crate::item::Item;
use std::alloc::Global;
use usb_script_words::{Errno, LineError, Name, Path, number, one_word, two_words, value};

/// The greatest set of groups that a packet of udev is sent to, one bit for each.
const MAX_GROUPS: u64 = 4294967295;

/// `attr PATH NAME VALUE`.
pub fn attr_line(alloc: Global, words: &[&[u8]]) -> Result<Item, LineError>
    ensures value { Gives (λ i. i) result (read_by forms (codes "attr") (texts words.now)) }
    ensures few { IfOk result (λ item. places_in item ≤ length words.now) }
{
    form!(
        alloc,
        words,
        Attribute {
            path: PATH,
            name: NAME,
            value: VALUE
        }
    )
}

/// `child PATH NAME`.
pub fn child_line(alloc: Global, words: &[&[u8]]) -> Result<Item, LineError>
    ensures value { Gives (λ i. i) result (read_by forms (codes "child") (texts words.now)) }
    ensures few { IfOk result (λ item. places_in item ≤ length words.now) }
{
    form!(
        alloc,
        words,
        Child {
            path: PATH,
            name: NAME
        }
    )
}

/// `deny PATH NAME ERRNO`.
pub fn deny_line(alloc: Global, words: &[&[u8]]) -> Result<Item, LineError>
    ensures value { Gives (λ i. i) result (read_by forms (codes "deny") (texts words.now)) }
    ensures few { IfOk result (λ item. places_in item ≤ length words.now) }
{
    form!(
        alloc,
        words,
        Denied {
            path: PATH,
            name: NAME,
            errno: ERRNO
        }
    )
}

/// `entry NAME PATH`.
pub fn entry_line(alloc: Global, words: &[&[u8]]) -> Result<Item, LineError>
    ensures value { Gives (λ i. i) result (read_by forms (codes "entry") (texts words.now)) }
    ensures few { IfOk result (λ item. places_in item ≤ length words.now) }
{
    form!(
        alloc,
        words,
        Entry {
            name: NAME,
            path: PATH
        }
    )
}

/// `link PATH NAME TEXT`.
pub fn link_line(alloc: Global, words: &[&[u8]]) -> Result<Item, LineError>
    ensures value { Gives (λ i. i) result (read_by forms (codes "link") (texts words.now)) }
    ensures few { IfOk result (λ item. places_in item ≤ length words.now) }
{
    form!(
        alloc,
        words,
        Link {
            path: PATH,
            name: NAME,
            target: TEXT
        }
    )
}

/// `match PATH SEL`.
pub fn match_line(alloc: Global, words: &[&[u8]]) -> Result<Item, LineError>
    ensures value { Gives (λ i. i) result (read_by forms (codes "match") (texts words.now)) }
    ensures few { IfOk result (λ item. places_in item ≤ length words.now) }
{
    form!(
        alloc,
        words,
        Match {
            path: PATH,
            selector: SEL
        }
    )
}

/// `openpath d PATH`.
pub fn openpath_line(alloc: Global, words: &[&[u8]]) -> Result<Item, LineError>
    ensures value { Gives (λ i. i) result (read_by forms (codes "openpath") (texts words.now)) }
    ensures few { IfOk result (λ item. places_in item ≤ length words.now) }
{
    let (device, path) = two_words(words)?;
    let device = Name::parse(b'd', device)?;
    let path = Path::parse(alloc, path)?;
    Ok(Item::OpenPath { device, path })
}

/// `probe PATH`.
pub fn probe_line(alloc: Global, words: &[&[u8]]) -> Result<Item, LineError>
    ensures value { Gives (λ i. i) result (read_by forms (codes "probe") (texts words.now)) }
    ensures few { IfOk result (λ item. places_in item ≤ length words.now) }
{
    let path = Path::parse(alloc, one_word(words)?)?;
    Ok(Item::Probe { path })
}

/// `root ERRNO`.
pub fn root_line(words: &[&[u8]]) -> Result<Item, LineError>
    ensures value { Gives (λ i. i) result (read_by forms (codes "root") (texts words.now)) }
    ensures few { IfOk result (λ item. places_in item ≤ length words.now) }
{
    let errno = Errno::parse(one_word(words)?)?;
    Ok(Item::Root { errno })
}

/// `uevent T VALUE`.
pub fn uevent_line(alloc: Global, words: &[&[u8]]) -> Result<Item, LineError>
    ensures value { Gives (λ i. i) result (read_by forms (codes "uevent") (texts words.now)) }
    ensures few { IfOk result (λ item. places_in item ≤ length words.now) }
{
    let (groups, bytes) = two_words(words)?;
    let groups = number(MAX_GROUPS, groups)? as u32;
    let bytes = value(alloc, bytes)?;
    Ok(Item::Uevent { groups, bytes })
}
