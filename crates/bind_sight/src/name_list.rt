//! Names in a row, with an index by which the place of each is found.

ghost use Rattle.std.specs.Prelude.{◌≡◌, [], ◌∷◌, ◌++◌, IfOk, OnOk, OnErr, is_some, take};
ghost use Rattle.bind_sight.specs.Index.{place_of, with_name, Indexes};

use indexmap::IndexMap;
use sql_values::{Name, NoMemory};
use sqlite_items::Items;
use std::alloc::Global;
use std::marker::Model;

/// Names in their order, some of them perhaps more than once.
#[derive(Drop)]
pub struct NameList {
    names: Items<Name>,
    index: IndexMap<Name, usize>,
}

impl Model for NameList {
    ghost use Rattle.std.specs.Prelude.{List, ℕ};
    ghost use Rattle.bind_sight.specs.Index.{Indexes};

    ghost Value = { List (List ℕ) };

    ghost view = { λ l. l.names };

    ghost invariant = { λ l. Indexes l.index.entries l.names };
}

// A name with its place, where it is not there already.
fn add(index: &mut IndexMap<Name, usize>, name: &Name, place: usize) -> Result<(), NoMemory>
    ensures ok { OnOk result (index.new.entries ≡ with_name index.old.entries name.now place) }
    ensures err { OnErr result (index.new.entries ≡ index.old.entries) }
{
    match index.get(name) {
        Some(_) => Ok(()),
        None => {
            index.insert(name.copied()?, place)?;
            Ok(())
        }
    }
}

// The first place of each name.
fn index_of(alloc: Global, names: &[Name]) -> Result<IndexMap<Name, usize>, NoMemory>
    ensures { IfOk result (λ m. Indexes m.entries names.now) }
{
    let mut index = IndexMap::new(alloc);
    for (place, name) in names.iter().enumerate() {
        add(&mut index, name, place)?;
    }
    Ok(index)
}

impl NameList {
    /// No name.
    pub fn new(alloc: Global) -> NameList
        ensures { result ≡ [] }
    {
        NameList {
            names: Items::new(alloc),
            index: IndexMap::new(alloc),
        }
    }

    /// These names.
    pub fn of(alloc: Global, names: Items<Name>) -> Result<NameList, NoMemory>
        ensures { IfOk result (λ l. l ≡ names) }
    {
        let index = index_of(alloc, names.as_slice())?;
        Ok(NameList { names, index })
    }

    /// One name more, after the others. Without memory there is none more.
    pub fn push(&mut self, name: Name) -> Result<(), NoMemory>
        ensures ok { OnOk result (self.new ≡ self.old ++ name ∷ []) }
        ensures err { OnErr result (self.new ≡ self.old) }
    {
        let place = self.names.len();
        let copy = name.copied()?;
        self.names.push(copy)?;
        match add(&mut self.index, &name, place) {
            Ok(()) => Ok(()),
            Err(failed) => {
                let _last = self.names.pop();
                Err(failed)
            }
        }
    }

    /// The place of the first of this name.
    pub fn place(&self, name: &Name) -> Option<usize>
        ensures { result ≡ place_of name.now self.now }
    {
        self.index.get(name).copied()
    }

    /// Whether a name stands before a place.
    pub fn stands_before(&self, name: &Name, place: usize) -> bool
        ensures { result ≡ is_some (place_of name.now (take place self.now)) }
    {
        match self.place(name) {
            Some(first) => first < place,
            None => false,
        }
    }
}
