//! The catalog: objects under one set of names, in the order of their making.

ghost use Rattle.std.specs.Prelude.{◌≡◌, [], ◌∷◌, ◌++◌, length, None, IsSome, IfSome, MatchOption};
ghost use Rattle.std.specs.Prelude.{OnOk, OnErr, IfErr};
ghost use Rattle.std.specs.Option.{option_copied, option_map};
ghost use Rattle.rel_algebra.specs.Tree.{Returned};
ghost use Rattle.std.specs.List.{IsDistinct};
ghost use Rattle.std.specs.Str.{bytes_eq};
ghost use Rattle.catalog_store.specs.Catalog.{names_of, object_named, routine_named, missing};
ghost use Rattle.catalog_store.specs.Planning.{AllPlanned};
ghost use Rattle.catalog_store.specs.Entries.{object_of, entry_of, ObjectFits, IsPlanned, IsNamed};
ghost use Rattle.catalog_store.specs.Users.{users_of, without};
ghost use Rattle.catalog_store.specs.View.{tree_of};

use crate::numbered::Entries;
use crate::{Object, RoutineRecord};
use sql_values::Name;
use std::alloc::{AllocFailed, Global};
use std::marker::Model;

/// Tables, functions and procedures by their names, which differ, in the order of their making.
/// Where a function has a plan, each call in its body names another that has one, stands before it,
/// is lower, and has as many parameters as the call has arguments, and each table in FROM stands
/// before it; and its plan is kept, which is what the emitter makes of its body. Of a function
/// without a plan and of a procedure, each name that the head lists stands for something before it.
#[derive(Drop)]
pub struct Catalog {
    entries: Entries,
}

impl Model for Catalog {
    ghost use Rattle.catalog_store.specs.Catalog.{Catalog as PlainCatalog};
    ghost use Rattle.catalog_store.specs.Codes.{coded_catalog};

    ghost Value = { PlainCatalog };

    ghost coded = { coded_catalog };

    ghost use Rattle.std.specs.Prelude.{[]};
    ghost use Rattle.catalog_store.specs.Entries.{plain, AreSound};
    ghost use Rattle.catalog_store.specs.Holding.{Holds, held};

    ghost view = { λ c. plain (held c.entries) };

    ghost invariant = { λ c. AreSound [] (held c.entries) × Holds c.entries };
}

impl Catalog {
    /// A catalog without entries.
    pub fn new(alloc: Global) -> Catalog
        ensures { result ≡ [] }
    {
        Catalog {
            entries: Entries::new(alloc),
        }
    }

    /// The number of entries. Their names differ, and each function that is kept with a plan is
    /// planned.
    pub fn len(&self) -> usize
        ensures value { result ≡ length self.now }
        ensures names { IsDistinct bytes_eq (names_of self.now) }
        ensures planned { AllPlanned self.now }
    {
        self.entries.len()
    }

    /// What a name stands for; `None` exactly where it stands for nothing.
    pub fn get(&self, name: &Name) -> Option<&Object>
        ensures value { object_named name.now self.now ≡ option_map (object_of self.now)
            (option_copied result) }
        ensures fits { IfSome result (λ o. ObjectFits self.now o.now) }
        ensures planned { IfSome result (λ o. IsPlanned self.now o.now) }
    {
        self.entries.get(name)
    }

    /// The function with a plan of a name; `None` where the name stands for none.
    pub fn routine(&self, name: &Name) -> Option<&RoutineRecord>
        ensures tree { MatchOption result (routine_named name.now self.now ≡ missing)
            (λ r. routine_named name.now self.now ≡ Returned r.now.head.parameters r.now.head.returns (tree_of self.now r.now.body)) }
        ensures named { IfSome result (λ r. IsNamed name.now self.now r.now) }
    {
        match self.get(name) {
            Some(Object::Function(record)) => Some(record),
            Some(Object::Table(_)) => None,
            Some(Object::Interpreted(_)) => None,
            Some(Object::Procedure(_)) => None,
            None => None,
        }
    }

    /// One more entry, after the others. Without memory the catalog stays as it was, and name and
    /// object are handed back.
    pub fn add(&mut self, name: Name, object: Object) -> Result<(), AllocFailed<(Name, Object)>>
        requires free { object_named name self.old ≡ None }
        requires fits { ObjectFits self.old object }
        requires planned { IsPlanned self.old object }
        ensures ok { OnOk result (self.new ≡ self.old ++ entry_of self.old name object ∷ []) }
        ensures err { OnErr result (self.new ≡ self.old) }
        ensures returned { IfErr result (λ f. f.value ≡ (name, object)) }
    {
        self.entries.add(name, object)
    }

    /// Takes out the entry of a name that no other entry uses, so that no routine calls it, reads
    /// it or writes it. The others keep their order, and stand for what they stood for.
    pub fn drop_entry(&mut self, name: &Name)
        requires there { IsSome (object_named name.now self.old) }
        requires unused { users_of name.now self.old ≡ 0 }
        ensures entries { self.new ≡ without name.now self.old }
        ensures gone { object_named name.now self.new ≡ None }
    {
        self.entries.remove(name);
    }

    /// How many other entries use a name.
    pub fn users_of(&self, name: &Name) -> usize
        ensures { result ≡ users_of name.now self.now }
    {
        self.entries.users_of(name)
    }
}
