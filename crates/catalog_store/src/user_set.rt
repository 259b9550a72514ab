//! The names of the entries that use one and the same name.

ghost use Rattle.std.specs.Prelude.{◌≡◌, ℕ, List, [], true, false, if◌then◌else◌, length, OnOk};
ghost use Rattle.std.specs.Prelude.{OnErr};
ghost use Rattle.std.specs.List.{IsDistinct, list_any};
ghost use Rattle.std.specs.Str.{bytes_eq};

use indexmap::IndexSet;
use sql_values::{Name, NoMemory};
use std::alloc::Global;
use std::marker::Model;

/// Names that differ, in no order that counts.
#[derive(Drop)]
pub struct UserSet {
    names: IndexSet<Name>,
}

impl Model for UserSet {
    ghost use Rattle.std.specs.Prelude.{ℕ, List};

    ghost Value = { List (List ℕ) };

    ghost view = { λ s. s.names.keys };
}

impl UserSet {
    /// No name.
    pub fn new(alloc: Global) -> UserSet
        ensures { result ≡ [] }
    {
        UserSet {
            names: IndexSet::new(alloc),
        }
    }

    /// How many names there are.
    pub fn len(&self) -> usize
        ensures value { result ≡ length self.now }
        ensures distinct { IsDistinct bytes_eq self.now }
    {
        self.names.len()
    }

    /// With a name, which may be there already. Without memory the set stays.
    pub fn insert(&mut self, name: &Name) -> Result<(), NoMemory>
        ensures ok { OnOk result ((other : List ℕ) → list_any (bytes_eq other) self.new ≡
            (if bytes_eq name.now other then true else list_any (bytes_eq other) self.old)) }
        ensures err { OnErr result (self.new ≡ self.old) }
    {
        self.names.insert(name.copied()?)?;
        Ok(())
    }

    /// Without a name, which may be there or not.
    pub fn remove(&mut self, name: &Name)
        ensures { (other : List ℕ) → list_any (bytes_eq other) self.new ≡
            (if bytes_eq name.now other then false else list_any (bytes_eq other) self.old) }
    {
        let _ = self.names.swap_remove(name);
    }
}
