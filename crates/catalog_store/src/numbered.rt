//! Entries by the numbers of their making. A name is found by its number, and how many entries use
//! it is counted; an entry goes, and the others keep their order, in a time that hardly grows with
//! them.

ghost use Rattle.std.specs.Prelude.{◌≡◌, [], ◌∷◌, ◌++◌, filter, length, None, OnOk, OnErr, IfErr};
ghost use Rattle.std.specs.Map.{lookup, remove_entry};
ghost use Rattle.std.specs.BTreeMap.{is_at};
ghost use Rattle.std.specs.Option.{option_copied, option_map};
ghost use Rattle.std.specs.Ordering.{nat_cmp};
ghost use Rattle.std.specs.Str.{bytes_eq};
ghost use Rattle.catalog_store.specs.Holding.{Awaits, Holds, held};
ghost use Rattle.catalog_store.specs.Using.{held_user, uses_of as uses_by};

use crate::Object;
use crate::user_set::UserSet;
use crate::users::{add_uses, remove_uses, users_of};
use indexmap::IndexMap;
use sql_values::{Name, NoMemory};
use std::alloc::{AllocFailed, Global};
use std::collections::BTreeMap;

/// An object with its name.
#[derive(Drop)]
pub struct Numbered {
    pub name: Name,
    pub object: Object,
}

/// Entries by the numbers of their making, the number of each name, of each name the entries that
/// use it, and the number of the next entry.
#[derive(Drop)]
pub struct Entries {
    pub alloc: Global,
    pub entries: BTreeMap<usize, Numbered>,
    pub numbers: IndexMap<Name, usize>,
    pub users: IndexMap<Name, UserSet>,
    pub next: usize,
}

// The names that an object lists as used.
fn uses_of(object: &Object) -> &[Name]
    ensures { result.now ≡ uses_by object.now }
{
    match object {
        Object::Table(_) => &[],
        Object::Function(record) => record.head.uses.as_slice(),
        Object::Interpreted(function) => function.head.uses.as_slice(),
        Object::Procedure(procedure) => procedure.head.uses.as_slice(),
    }
}

// The object of a number.
fn object_at(entries: &BTreeMap<usize, Numbered>, number: usize) -> Option<&Object>
    ensures { option_copied result ≡ option_map (λ e. e.object)
        (lookup (is_at (nat_cmp number)) entries.now.entries) }
{
    match entries.get(&number) {
        Some(entry) => Some(&entry.object),
        None => None,
    }
}

impl Entries {
    /// No entries.
    pub(crate) fn new(alloc: Global) -> Entries
        ensures holds { Holds result }
        ensures value { held result ≡ [] }
    {
        Entries {
            alloc,
            entries: BTreeMap::new(alloc),
            numbers: IndexMap::new(alloc),
            users: IndexMap::new(alloc),
            next: 0,
        }
    }

    /// The number of entries.
    pub(crate) fn len(&self) -> usize
        ensures { result ≡ length (held self.now) }
    {
        self.entries.len()
    }

    /// The object of a name.
    pub(crate) fn get(&self, name: &Name) -> Option<&Object>
        requires { Holds self.now }
        ensures { option_copied result ≡ lookup (bytes_eq name.now) (held self.now) }
    {
        match self.numbers.get(name) {
            Some(number) => object_at(&self.entries, *number),
            None => None,
        }
    }

    /// How many other entries use a name.
    pub(crate) fn users_of(&self, name: &Name) -> usize
        requires { Holds self.now }
        ensures { result ≡ length (filter (held_user name.now) (held self.now)) }
    {
        users_of(&self.users, name)
    }

    // Takes a name and its uses out of what is kept beside the entries.
    fn forget(&mut self, name: &Name, object: &Object)
        requires { Awaits self.old name.now object.now }
        ensures holds { Holds self.new }
        ensures entries { held self.new ≡ held self.old }
    {
        let _ = self.numbers.swap_remove(name);
        remove_uses(&mut self.users, name, uses_of(object));
    }

    // Notes the number of the next entry, and its uses.
    fn note(&mut self, name: &Name, object: &Object) -> Result<(), NoMemory>
        requires holds { Holds self.old }
        requires free { lookup (bytes_eq name.now) (held self.old) ≡ None }
        ensures ok { OnOk result (Awaits self.new name.now object.now) }
        ensures err { OnErr result (Holds self.new) }
        ensures entries { held self.new ≡ held self.old }
    {
        let number = self.next;
        let Some(next) = number.checked_add(1) else {
            return Err(NoMemory);
        };
        let uses = uses_of(object);
        self.numbers.insert(name.copied()?, number)?;
        match add_uses(self.alloc, &mut self.users, name, uses) {
            Ok(()) => {
                self.next = next;
                Ok(())
            }
            Err(failed) => {
                let _ = self.numbers.swap_remove(name);
                remove_uses(&mut self.users, name, uses);
                Err(failed)
            }
        }
    }

    // Puts an entry that is noted after the others.
    fn put(&mut self, name: Name, object: Object) -> Result<(), AllocFailed<(Name, Object)>>
        requires { Awaits self.old name object }
        ensures holds { Holds self.new }
        ensures ok { OnOk result (held self.new ≡ held self.old ++ (name, object) ∷ []) }
        ensures err { OnErr result (held self.new ≡ held self.old) }
        ensures returned { IfErr result (λ f. f.value ≡ (name, object)) }
    {
        let number = self.next - 1;
        match self.entries.insert(number, Numbered { name, object }) {
            Ok(_) => Ok(()),
            Err(failed) => {
                let (_, entry) = failed.value;
                let Numbered { name, object } = entry;
                self.forget(&name, &object);
                Err(AllocFailed {
                    value: (name, object),
                })
            }
        }
    }

    /// One more entry, after the others. Without memory they stay as they were, and name and object
    /// are handed back.
    pub(crate) fn add(
        &mut self,
        name: Name,
        object: Object,
    ) -> Result<(), AllocFailed<(Name, Object)>>
        requires holds { Holds self.old }
        requires free { lookup (bytes_eq name) (held self.old) ≡ None }
        ensures holds { Holds self.new }
        ensures ok { OnOk result (held self.new ≡ held self.old ++ (name, object) ∷ []) }
        ensures err { OnErr result (held self.new ≡ held self.old) }
        ensures returned { IfErr result (λ f. f.value ≡ (name, object)) }
    {
        match self.note(&name, &object) {
            Ok(()) => self.put(name, object),
            Err(_) => Err(AllocFailed {
                value: (name, object),
            }),
        }
    }

    /// Takes the entry of a name out that no other entry uses; the others keep their order.
    pub(crate) fn remove(&mut self, name: &Name)
        requires holds { Holds self.old }
        requires unused { length (filter (held_user name.now) (held self.old)) ≡ 0 }
        ensures holds { Holds self.new }
        ensures entries { held self.new ≡ remove_entry (bytes_eq name.now) (held self.old) }
    {
        let Some(number) = self.numbers.swap_remove(name) else {
            return;
        };
        let Some(entry) = self.entries.remove(&number) else {
            return;
        };
        remove_uses(&mut self.users, name, uses_of(&entry.object));
        let _ = self.users.swap_remove(name);
    }
}
