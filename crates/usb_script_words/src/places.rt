//! Words that name a place of a tree of attributes.

ghost use Rattle.std.specs.Prelude.{◌≡◌, IfOk, IsTrue};
ghost use Rattle.std.specs.List.{list_all, slice_split};
ghost use Rattle.usb_script_words.specs.Lines.{is_word};
ghost use Rattle.usb_script_words.specs.Outcome.{Gives};
ghost use Rattle.usb_script_words.specs.Places.{is_slash, is_step, is_path, is_file_name, utf8_of, path_of, file_name_of, target_of, value_of};

use crate::line_bytes::Data;
use crate::line_error::LineError;
use crate::words::reads;
use std::alloc::Global;
use std::marker::Model;
use usb_desc::NoMemory;
use usb_enum_sysfs::Text;
use usb_kernel::Bytes;

/// The path of a folder: `/`, or names with a slash before each, none of them empty, `.` or `..`. A
/// contract sees its bytes.
#[derive(Clone, Drop)]
pub struct Path {
    text: Text,
}

impl Model for Path {
    ghost use Rattle.std.specs.Prelude.{ℕ, List, IsTrue};
    ghost use Rattle.usb_script_words.specs.Places.{is_path};

    ghost Value = { List ℕ };

    ghost view = { λ path. path.text };

    ghost invariant = { λ path. IsTrue (is_path path.text) };
}

impl Path {
    /// The same path once more.
    pub fn clone(&self) -> Result<Path, NoMemory>
        ensures same { IfOk result (λ copy. copy ≡ self.now) }
    {
        Ok(Clone::clone(self)?)
    }

    /// The path.
    pub fn as_str(&self) -> &str
        ensures value { result.now ≡ self.now }
        ensures form { IsTrue (is_path result.now) }
    {
        self.text.as_str()
    }

    /// The path that a word spells.
    #[tactic(auto, unfolding(crate::specs::Places::path_of))]
    pub fn parse(alloc: Global, word: &[u8]) -> Result<Path, LineError>
        ensures value { Gives (λ path. path) result (path_of word.now) }
    {
        if !is_path(word) {
            return Err(LineError::Malformed);
        }
        let text = text(alloc, word)?;
        Ok(Path { text })
    }
}

/// The name of an attribute, a sub-folder, a link or an entry: at least one byte, none of them a
/// slash. A contract sees its bytes.
#[derive(Clone, Drop)]
pub struct FileName {
    text: Text,
}

impl Model for FileName {
    ghost use Rattle.std.specs.Prelude.{ℕ, List, IsTrue};
    ghost use Rattle.usb_script_words.specs.Places.{is_file_name};

    ghost Value = { List ℕ };

    ghost view = { λ name. name.text };

    ghost invariant = { λ name. IsTrue (is_file_name name.text) };
}

impl FileName {
    /// The same name once more.
    pub fn clone(&self) -> Result<FileName, NoMemory>
        ensures same { IfOk result (λ copy. copy ≡ self.now) }
    {
        Ok(Clone::clone(self)?)
    }

    /// The name.
    pub fn as_str(&self) -> &str
        ensures value { result.now ≡ self.now }
        ensures form { IsTrue (is_file_name result.now) }
    {
        self.text.as_str()
    }

    /// The name that a word spells.
    #[tactic(auto, unfolding(crate::specs::Places::file_name_of))]
    pub fn parse(alloc: Global, word: &[u8]) -> Result<FileName, LineError>
        ensures value { Gives (λ name. name) result (file_name_of word.now) }
    {
        if !is_file_name(word) {
            return Err(LineError::Malformed);
        }
        let text = text(alloc, word)?;
        Ok(FileName { text })
    }
}

/// The target of a link: at least one byte. A contract sees its bytes.
#[derive(Clone, Drop)]
pub struct Target {
    text: Text,
}

impl Model for Target {
    ghost use Rattle.std.specs.Prelude.{ℕ, List, IsTrue};
    ghost use Rattle.usb_script_words.specs.Lines.{is_word};

    ghost Value = { List ℕ };

    ghost view = { λ target. target.text };

    ghost invariant = { λ target. IsTrue (is_word target.text) };
}

impl Target {
    /// The same target once more.
    pub fn clone(&self) -> Result<Target, NoMemory>
        ensures same { IfOk result (λ copy. copy ≡ self.now) }
    {
        Ok(Clone::clone(self)?)
    }

    /// The target.
    pub fn as_str(&self) -> &str
        ensures value { result.now ≡ self.now }
        ensures form { IsTrue (is_word result.now) }
    {
        self.text.as_str()
    }

    /// The target that a word spells.
    #[tactic(auto, unfolding(crate::specs::Places::target_of))]
    pub fn parse(alloc: Global, word: &[u8]) -> Result<Target, LineError>
        ensures value { Gives (λ target. target) result (target_of word.now) }
    {
        if word.is_empty() {
            return Err(LineError::Malformed);
        }
        let text = text(alloc, word)?;
        Ok(Target { text })
    }
}

/// A word as text.
pub fn text(alloc: Global, word: &[u8]) -> Result<Text, LineError>
    ensures value { Gives (λ text. text) result (utf8_of word.now) }
{
    let text = utf8(word)?;
    match Text::from_str(alloc, text) {
        Ok(text) => Ok(text),
        Err(_) => Err(LineError::Memory),
    }
}

/// A word that is UTF-8.
fn utf8(word: &[u8]) -> Result<&str, LineError>
    ensures value { Gives (λ text. text.now) result (utf8_of word.now) }
{
    match str::from_utf8(word) {
        Ok(text) => Ok(text),
        Err(_) => Err(LineError::Malformed),
    }
}

/// A name in a path: not empty, not `.` and not `..`.
fn is_step(name: &[u8]) -> bool
    ensures value { result ≡ is_step name.now }
{
    !name.is_empty() && !reads(name, b".") && !reads(name, b"..")
}

/// Whether each name between slashes may stand in a path.
fn are_steps(names: &[u8]) -> bool
    ensures value { result ≡ list_all is_step (slice_split is_slash names.now) }
{
    for name in names.split(|b| *b == b'/') {
        if !is_step(name) {
            return false;
        }
    }
    true
}

fn is_path(word: &[u8]) -> bool
    ensures value { result ≡ is_path word.now }
{
    match word {
        [b'/', names @ ..] => names.is_empty() || are_steps(names),
        _ => false,
    }
}

fn is_file_name(word: &[u8]) -> bool
    ensures value { result ≡ is_file_name word.now }
{
    !word.is_empty() && !word.contains(&b'/')
}

/// The bytes that a word gives: those behind an equals sign, or those of its hexadecimal digits.
#[tactic(auto, unfolding(crate::specs::Places::value_of))]
pub fn value(alloc: Global, word: &[u8]) -> Result<Bytes, LineError>
    ensures value { Gives (λ bytes. bytes) result (value_of word.now) }
{
    if let [b'=', text @ ..] = word {
        return match Bytes::from_slice(alloc, text) {
            Ok(bytes) => Ok(bytes),
            Err(_) => Err(LineError::Memory),
        };
    }
    Ok(Data::parse(alloc, word)?.into_bytes())
}
