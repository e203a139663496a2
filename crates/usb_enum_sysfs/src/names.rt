//! Names of sub-folders.

ghost use Rattle.std.specs.Prelude.{◌≡◌, [], IfOk, OnOk, OnErr, map, string_bytes};
ghost use Rattle.usb_enum_sysfs.specs.Names.{with_name};

use std::alloc::{AllocError, Global};
use std::collections::BTreeSet;
use std::collections::btree_set::Iter;
use std::marker::Model;
use usb_desc::NoMemory;

/// Names, each once: seen as the list of them in order of their bytes.
#[derive(Drop)]
pub struct Names {
    set: BTreeSet<String>,
}

impl Model for Names {
    ghost use Rattle.std.specs.Prelude.{ℕ, List, map, string_bytes};

    ghost Value = { List (List ℕ) };

    ghost view = { λ n. map (λ name. string_bytes name) n.set.keys };
}

impl Clone for Names {
    ghost is_clone = { λ names copy. copy ≡ names };

    fn clone(&self) -> Result<Names, AllocError> {
        let set = self.set.clone()?;
        Ok(Names { set })
    }
}

impl Names {
    /// No names.
    pub fn new(alloc: Global) -> Names
        ensures empty { result ≡ [] }
    {
        Names {
            set: BTreeSet::new(alloc),
        }
    }

    /// The same names once more.
    pub fn clone(&self) -> Result<Names, NoMemory>
        ensures same { IfOk result (λ copy. copy ≡ self.now) }
    {
        Ok(Clone::clone(self)?)
    }

    /// Adds a name, unless it is there.
    pub fn insert(&mut self, alloc: Global, name: &str) -> Result<(), NoMemory>
        ensures ok { OnOk result (self.new ≡ with_name self.old name.now) }
        ensures err { OnErr result (self.new ≡ self.old) }
    {
        let Ok(name) = String::from_str(alloc, name) else {
            return Err(NoMemory);
        };
        let Ok(_) = self.set.insert(name) else {
            return Err(NoMemory);
        };
        Ok(())
    }

    /// The names, in order of their bytes.
    pub fn iter(&self) -> Iter<'_, String>
        ensures names { map (λ name. string_bytes name) result ≡ self.now }
    {
        self.set.iter()
    }
}
