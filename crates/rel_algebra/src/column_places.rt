//! The places of the columns that a Keep keeps.

ghost use Rattle.std.specs.Prelude.{◌≡◌, IfOk};
ghost use Rattle.rel_algebra.specs.Joins.{places};
ghost use Rattle.rel_algebra.specs.PlaceForms.{kept_places};

use sql_values::NoMemory;
use sqlite_items::Items;
use std::alloc::Global;
use std::marker::Model;

// How places lie in memory: the first so many take none.
#[derive(Drop)]
enum Form {
    Listed(Items<usize>),
    Front(usize),
}

/// ColumnPlaces of columns in an order: any of them, or the first so many, which take no memory however
/// many they are.
#[derive(Drop)]
pub struct ColumnPlaces {
    form: Form,
}

impl Model for ColumnPlaces {
    ghost use Rattle.std.specs.Prelude.{ℕ, List};
    ghost use Rattle.rel_algebra.specs.PlaceForms.{places_in};

    ghost Value = { List ℕ };

    ghost view = { λ p. places_in p.form };
}

/// ColumnPlaces as they are kept.
#[derive(Clone, Copy)]
pub enum KeptPlaces<'a> {
    /// These.
    Listed(&'a [usize]),
    /// The first so many.
    Front(usize),
}

impl ColumnPlaces {
    /// These places.
    pub fn listed(list: Items<usize>) -> ColumnPlaces
        ensures { result ≡ list }
    {
        ColumnPlaces {
            form: Form::Listed(list),
        }
    }

    /// The first so many.
    pub fn front(count: usize) -> ColumnPlaces
        ensures { result ≡ places 0 count }
    {
        ColumnPlaces {
            form: Form::Front(count),
        }
    }

    /// How they are kept.
    pub fn as_kept(&self) -> KeptPlaces
        ensures { kept_places result ≡ self.now }
    {
        match &self.form {
            Form::Listed(list) => KeptPlaces::Listed(list.as_slice()),
            Form::Front(count) => KeptPlaces::Front(*count),
        }
    }

    /// The same once more.
    pub fn copied(&self, alloc: Global) -> Result<ColumnPlaces, NoMemory>
        ensures { IfOk result (λ p. p ≡ self.now) }
    {
        match &self.form {
            Form::Listed(list) => {
                let list = Items::from_slice(alloc, list.as_slice())?;
                Ok(ColumnPlaces::listed(list))
            }
            Form::Front(count) => Ok(ColumnPlaces::front(*count)),
        }
    }
}
