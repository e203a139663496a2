//! The sub-folders of folders.

ghost use Rattle.std.specs.Prelude.{◌≡◌, [], IfOk, OnOk, OnErr, unwrap_or};
ghost use Rattle.std.specs.Option.{option_copied};
ghost use Rattle.std.specs.Map.{lookup};
ghost use Rattle.std.specs.Str.{bytes_eq};
ghost use Rattle.indexmap.specs.IndexMap.{insert_entry};
ghost use Rattle.usb_enum_sysfs.specs.Names.{with_name};

use crate::names::Names;
use indexmap::IndexMap;
use std::alloc::Global;
use std::marker::Model;
use usb_desc::NoMemory;

/// Folders with the names of their sub-folders, in the order in which the folders came.
#[derive(Drop)]
pub struct Folders {
    index: IndexMap<String, Names>,
}

impl Model for Folders {
    ghost use Rattle.std.specs.Prelude.{ℕ, List, map, string_bytes};

    ghost Value = { List (List ℕ × List (List ℕ)) };

    ghost view = { λ f. map (λ e. (string_bytes e.0, e.1)) f.index.entries };
}

impl Folders {
    /// No folders.
    pub fn new(alloc: Global) -> Folders
        ensures empty { result ≡ [] }
    {
        Folders {
            index: IndexMap::new(alloc),
        }
    }

    /// The same folders once more.
    pub fn clone(&self) -> Result<Folders, NoMemory>
        ensures same { IfOk result (λ copy. copy ≡ self.now) }
    {
        let index = self.index.clone()?;
        Ok(Folders { index })
    }

    /// The sub-folders of a folder, where it has any.
    pub fn get(&self, folder: &str) -> Option<&Names>
        ensures names { option_copied result ≡ lookup (bytes_eq folder.now) self.now }
    {
        self.index.get(folder)
    }

    /// Lets a folder have a sub-folder of this name.
    pub fn add(&mut self, alloc: Global, folder: &str, name: &str) -> Result<(), NoMemory>
        ensures ok { OnOk result
            (self.new
            ≡ insert_entry bytes_eq self.old folder.now
            (with_name (unwrap_or (lookup (bytes_eq folder.now) self.old) []) name.now)) }
        ensures err { OnErr result (self.new ≡ self.old) }
    {
        let Some(place) = self.index.get_index_of(folder) else {
            return self.add_first(alloc, folder, name);
        };
        match self.index.get_index_mut(place) {
            Some(names) => names.insert(alloc, name),
            None => unreachable!(),
        }
    }

    /// The same, for a folder that has none.
    fn add_first(&mut self, alloc: Global, folder: &str, name: &str) -> Result<(), NoMemory>
        ensures ok { OnOk result
            (self.new ≡ insert_entry bytes_eq self.old folder.now (with_name [] name.now)) }
        ensures err { OnErr result (self.new ≡ self.old) }
    {
        let mut names = Names::new(alloc);
        names.insert(alloc, name)?;
        let Ok(folder) = String::from_str(alloc, folder) else {
            return Err(NoMemory);
        };
        let Ok(_) = self.index.insert(folder, names) else {
            return Err(NoMemory);
        };
        Ok(())
    }
}
