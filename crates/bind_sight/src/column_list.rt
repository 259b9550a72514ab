//! The columns of an item, with an index by which each is found by its name.

ghost use Rattle.std.specs.Prelude.{◌≡◌, IfOk, OnOk, Some, length};
ghost use Rattle.std.specs.Map.{lookup};
ghost use Rattle.std.specs.Str.{bytes_eq};
ghost use Rattle.bind_sight.specs.Columns.{hits, known, once_more, Counts, CountsMore};

use crate::output::{Hit, Output, known, once_more};
use bind_kinds::Kind;
use indexmap::IndexMap;
use sql_values::{Name, NoMemory};
use sqlite_items::Items;
use std::alloc::Global;
use std::marker::Model;

/// Columns in their order, some of them perhaps without a name, or of the name of another.
#[derive(Drop)]
pub struct ColumnList {
    columns: Items<Output>,
    index: IndexMap<Name, Hit>,
}

impl Model for ColumnList {
    ghost use Rattle.std.specs.Prelude.{List};
    ghost use Rattle.bind_sight.specs.Columns.{Counts};
    ghost use Rattle.bind_sight.specs.declared.output.Output.{Output};

    ghost Value = { List Output };

    ghost view = { λ l. l.columns };

    ghost invariant = { λ l. Counts l.index.entries l.columns };
}

// How often a name stands, with a column more.
fn counted(index: &IndexMap<Name, Hit>, name: &Name, place: usize, kind: Kind) -> Hit
    ensures { result ≡ once_more (known (lookup (bytes_eq name.now) index.now.entries)) place kind }
{
    once_more(known(index.get(name).copied()), place, kind)
}

// A column of this name.
fn add_name(
    index: &mut IndexMap<Name, Hit>,
    name: &Name,
    place: usize,
    kind: Kind,
) -> Result<(), NoMemory>
    ensures { OnOk result (CountsMore index.old.entries index.new.entries
        (record { name = Some name.now; kind = kind }) place) }
{
    let hit = counted(index, name, place, kind);
    index.insert(name.copied()?, hit)?;
    Ok(())
}

fn add(index: &mut IndexMap<Name, Hit>, column: &Output, place: usize) -> Result<(), NoMemory>
    ensures { OnOk result (CountsMore index.old.entries index.new.entries column.now place) }
{
    match &column.name {
        Some(name) => add_name(index, name, place, column.kind),
        None => Ok(()),
    }
}

// How often each name stands among the columns.
fn index_of(alloc: Global, columns: &[Output]) -> Result<IndexMap<Name, Hit>, NoMemory>
    ensures { IfOk result (λ m. Counts m.entries columns.now) }
{
    let mut index = IndexMap::new(alloc);
    for (place, column) in columns.iter().enumerate() {
        add(&mut index, column, place)?;
    }
    Ok(index)
}

impl ColumnList {
    /// These columns.
    pub fn of(alloc: Global, columns: Items<Output>) -> Result<ColumnList, NoMemory>
        ensures { IfOk result (λ l. l ≡ columns) }
    {
        let index = index_of(alloc, columns.as_slice())?;
        Ok(ColumnList { columns, index })
    }

    /// How often a name stands among them, in a time that does not grow with their number.
    pub fn find(&self, name: &Name) -> Hit
        ensures { result ≡ hits name.now self.now }
    {
        known(self.index.get(name).copied())
    }

    /// The columns in their order.
    pub fn as_slice(&self) -> &[Output]
        ensures { result.now ≡ self.now }
    {
        self.columns.as_slice()
    }

    /// The columns, without their index.
    pub fn into_items(self) -> Items<Output>
        ensures { result ≡ self }
    {
        let ColumnList { columns, .. } = self;
        columns
    }

    /// How many there are.
    pub fn len(&self) -> usize
        ensures { result ≡ length self.now }
    {
        self.columns.len()
    }
}
