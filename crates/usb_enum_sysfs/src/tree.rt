//! The tree of attributes that stands in for the file system under `/sys`.

ghost use Rattle.std.specs.Prelude.{◌≡◌, [], Some, OnOk, OnErr, IfOk, IsOk, ◌++◌, string_bytes, map};
ghost use Rattle.std.specs.Option.{option_copied};
ghost use Rattle.std.specs.Map.{lookup};
ghost use Rattle.std.specs.Str.{bytes_eq};
ghost use Rattle.usb_error.specs.Outcomes.{result_map};
ghost use Rattle.usb_enum_sysfs.specs.Tree.{utf8_text};
ghost use Rattle.indexmap.specs.IndexMap.{insert_entry};
ghost use Rattle.usb_enum_sysfs.specs.Paths.{path_in};

use crate::folders::Folders;
use crate::names::Names;
use crate::text::Text;
use crate::text_map::TextMap;
use indexmap::map::Iter;
use std::alloc::Global;
use std::marker::Model;
use usb_desc::NoMemory;
use usb_kernel::{Bytes, errno};

/// `EILSEQ`: bytes are no text.
const ILSEQ: u16 = 84;

/// An attribute: what it holds, or the errno with which reading it fails.
#[derive(Clone, Drop)]
pub enum Attribute {
    /// It holds these bytes.
    Content(Bytes),
    /// Reading it fails with this errno.
    Denied(u16),
}

impl Attribute {
    /// The same once more.
    pub fn clone(&self) -> Result<Attribute, NoMemory>
        ensures same { IfOk result (λ copy. copy ≡ self.now) }
    {
        Ok(Clone::clone(self)?)
    }
}

/// Folders with attributes, sub-folders and links, and the listing of devices. Each call that sets
/// one place replaces what stood there, in its place in the order. An `Err` is want of memory, and
/// leaves the tree as it was.
#[derive(Drop)]
pub struct AttrTree {
    alloc: Global,
    attributes: TextMap<Attribute>,
    folders: Folders,
    links: TextMap<Text>,
    entries: TextMap<Text>,
    refusal: Option<u16>,
}

impl Model for AttrTree {
    ghost use Rattle.usb_enum_sysfs.specs.Tree.{Tree};

    ghost Value = { Tree };

    ghost view = { λ t. record {
      attributes = t.attributes;
      folders = t.folders;
      links = t.links;
      entries = t.entries;
      refusal = t.refusal;
    } };
}

impl AttrTree {
    ghost use Rattle.usb_enum_sysfs.specs.Tree.{bare, text_at, with_attribute, with_child, with_link, with_entry};
    ghost use Rattle.usb_enum_sysfs.specs.declared.tree.Attribute.TheVariants.{Content, Denied as denied};

    /// A tree with nothing in it.
    pub fn new(alloc: Global) -> AttrTree
        ensures tree { result ≡ bare }
    {
        AttrTree {
            alloc,
            attributes: TextMap::new(alloc),
            folders: Folders::new(alloc),
            links: TextMap::new(alloc),
            entries: TextMap::new(alloc),
            refusal: None,
        }
    }

    /// The same tree once more.
    pub fn clone(&self) -> Result<AttrTree, NoMemory>
        ensures same { IfOk result (λ copy. copy ≡ self.now) }
    {
        let attributes = self.attributes.clone()?;
        let folders = self.folders.clone()?;
        let links = self.links.clone()?;
        let entries = self.entries.clone()?;
        Ok(AttrTree {
            alloc: self.alloc,
            attributes,
            folders,
            links,
            entries,
            refusal: self.refusal,
        })
    }

    /// Sets what an attribute of a folder holds.
    pub fn attr(&mut self, path: &str, name: &str, value: &[u8]) -> Result<(), NoMemory>
        ensures ok { OnOk result
            (self.new ≡ with_attribute self.old path.now name.now (Content value.now)) }
        ensures err { OnErr result (self.new ≡ self.old) }
    {
        let Ok(value) = Bytes::from_slice(self.alloc, value) else {
            return Err(NoMemory);
        };
        self.set_attribute(path, name, Attribute::Content(value))
    }

    /// Lets reading an attribute of a folder fail with this errno.
    pub fn deny(&mut self, path: &str, name: &str, errno: u16) -> Result<(), NoMemory>
        ensures ok { OnOk result
            (self.new ≡ with_attribute self.old path.now name.now (denied errno)) }
        ensures err { OnErr result (self.new ≡ self.old) }
    {
        self.set_attribute(path, name, Attribute::Denied(errno))
    }

    fn set_attribute(
        &mut self,
        path: &str,
        name: &str,
        attribute: Attribute,
    ) -> Result<(), NoMemory>
        ensures ok { OnOk result (self.new ≡ with_attribute self.old path.now name.now attribute) }
        ensures err { OnErr result (self.new ≡ self.old) }
    {
        let Ok(path) = path_in(self.alloc, path, name) else {
            return Err(NoMemory);
        };
        self.attributes.put(self.alloc, path.as_str(), attribute)
    }

    /// Lets a folder have a sub-folder of this name.
    pub fn child(&mut self, path: &str, name: &str) -> Result<(), NoMemory>
        ensures ok { OnOk result (self.new ≡ with_child self.old path.now name.now) }
        ensures err { OnErr result (self.new ≡ self.old) }
    {
        self.folders.add(self.alloc, path, name)
    }

    /// Sets the target of a symbolic link in a folder.
    pub fn link(&mut self, path: &str, name: &str, target: &str) -> Result<(), NoMemory>
        ensures ok { OnOk result (self.new ≡ with_link self.old path.now name.now target.now) }
        ensures err { OnErr result (self.new ≡ self.old) }
    {
        let Ok(path) = path_in(self.alloc, path, name) else {
            return Err(NoMemory);
        };
        let Ok(target) = Text::from_str(self.alloc, target) else {
            return Err(NoMemory);
        };
        self.links.put(self.alloc, path.as_str(), target)
    }

    /// Lets the listing of devices hold a name, which leads to the path.
    pub fn entry(&mut self, name: &str, path: &str) -> Result<(), NoMemory>
        ensures ok { OnOk result (self.new ≡ with_entry self.old name.now path.now) }
        ensures err { OnErr result (self.new ≡ self.old) }
    {
        let Ok(path) = Text::from_str(self.alloc, path) else {
            return Err(NoMemory);
        };
        self.entries.put(self.alloc, name, path)
    }

    /// Lets the listing of devices fail with this errno, which takes no memory.
    pub fn fail_listing(&mut self, errno: u16) -> Result<(), NoMemory>
        ensures ok { IsOk result }
        ensures refusal { self.new ≡ record self.old { refusal = Some errno } }
    {
        self.refusal = Some(errno);
        Ok(())
    }

    /// The names of a folder's sub-folders, where it has any.
    pub fn children(&self, folder: &str) -> Option<&Names>
        ensures names { option_copied result ≡ lookup (bytes_eq folder.now) self.now.folders }
    {
        self.folders.get(folder)
    }

    /// The errno with which the listing of devices fails.
    pub fn refusal(&self) -> Option<u16>
        ensures errno { result ≡ self.now.refusal }
    {
        self.refusal
    }

    /// The entries of the listing of devices, in their order.
    pub fn entries(&self) -> Iter<'_, String, Text>
        ensures entries { map (λ e. (string_bytes e.0, e.1)) result ≡ self.now.entries }
    {
        self.entries.iter()
    }

    /// The target of the link with this path.
    pub fn target(&self, path: &str) -> Option<&Text>
        ensures target { option_copied result ≡ lookup (bytes_eq path.now) self.now.links }
    {
        self.links.get(path)
    }

    /// The text of the attribute with this path, or the errno with which reading it fails: 2 where
    /// it is missing, 84 where it is no UTF-8.
    pub fn read(&self, path: &str) -> Result<&str, u16>
        ensures text { result_map (λ t. t.now) result ≡ text_at self.now path.now }
    {
        match self.attributes.get(path) {
            None => Err(errno::NOENT),
            Some(Attribute::Denied(errno)) => Err(*errno),
            Some(Attribute::Content(bytes)) => utf8_text(bytes.as_slice()),
        }
    }
}

/// Bytes as text, or errno 84 where they are no UTF-8.
fn utf8_text(bytes: &[u8]) -> Result<&str, u16>
    ensures text { result_map (λ t. t.now) result ≡ utf8_text bytes.now }
{
    match str::from_utf8(bytes) {
        Ok(text) => Ok(text),
        Err(_) => Err(ILSEQ),
    }
}

/// The path of what is called so in a folder.
pub fn path_in(alloc: Global, folder: &str, name: &str) -> Result<Text, NoMemory>
    ensures path { IfOk result (λ p. p ≡ path_in folder.now name.now) }
{
    let Ok(mut path) = String::from_str(alloc, folder) else {
        return Err(NoMemory);
    };
    if folder != "/" {
        append(&mut path, "/")?;
    }
    append(&mut path, name)?;
    Ok(Text::from_string(path))
}

fn append(text: &mut String, more: &str) -> Result<(), NoMemory>
    ensures text { OnOk result (string_bytes text.new ≡ string_bytes text.old ++ more.now) }
{
    match text.push_str(more) {
        Ok(()) => Ok(()),
        Err(_) => Err(NoMemory),
    }
}
