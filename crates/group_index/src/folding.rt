//! Groups of which no row is kept: what comes of each aggregate is folded as the rows come.

ghost use Rattle.std.specs.Prelude.{◌≡◌, ◌<◌, length, IfOk, OnOk};
ghost use Rattle.indexmap.specs.IndexMap.{insert_entry};
ghost use Rattle.row_types.specs.Groups.{same_row, values_at};
ghost use Rattle.group_index.specs.Kept.{none_kept, kept_with};
ghost use Rattle.group_index.specs.Folded.{first_kept, kept_at, kept_put};

use crate::column_fold::value_of;
use crate::finished_group::FinishedGroup;
use crate::kept_rows::KeptRows;
use indexmap::IndexMap;
use row_types::{AggregateColumn, Key};
use sql_values::{NoMemory, Value};
use sqlite_items::Items;
use std::alloc::Global;
use std::marker::Model;

/// The groups of the rows that it took so far, by the columns at some places, with some aggregates
/// (ISO/IEC 9075-2, 7.13 and 10.9). NULL equals NULL. It keeps nothing of the rows but their
/// groups' keys and aggregates, so that its memory is that of the groups; a key of up to four
/// columns takes none of its own. Contracts see what it keeps; of a list of rows that is
/// `folded_rows`, and the law `foldings_are_of_groups` says that it finishes as the groups of the
/// list.
#[derive(Drop)]
pub struct Folding {
    alloc: Global,
    places: Items<usize>,
    aggregates: Items<AggregateColumn>,
    groups: IndexMap<Key, KeptRows>,
}

impl Model for Folding {
    ghost use Rattle.group_index.specs.Folded.{Folded};

    ghost Value = { Folded };

    ghost view = { λ f. record { places = f.places; aggregates = f.aggregates; groups = f.groups.entries } };
}

// The values of a row at places.
fn key_at(alloc: Global, places: &[usize], row: &[Value]) -> Result<Key, NoMemory>
    ensures { IfOk result (λ k. k ≡ values_at row.now places.now) }
{
    let mut key = Key::new(alloc);
    for place in places {
        key.push(value_of(row, *place)?)?;
    }
    Ok(key)
}

// The groups of no rows: without a column there is one.
fn first_groups(
    alloc: Global,
    places: &[usize],
    aggregates: &[AggregateColumn],
) -> Result<IndexMap<Key, KeptRows>, NoMemory>
    ensures { IfOk result (λ m. m.entries ≡ first_kept places.now aggregates.now) }
{
    let mut groups = IndexMap::new(alloc);
    if places.is_empty() {
        groups.insert(Key::new(alloc), KeptRows::new(alloc, aggregates)?)?;
    }
    Ok(groups)
}

// A row more in the group at a place.
fn add_at(groups: &mut IndexMap<Key, KeptRows>, at: usize, row: &[Value]) -> Result<(), NoMemory>
    requires { at < length groups.old.entries }
    ensures { OnOk result (groups.new.entries ≡ kept_at at row.now groups.old.entries) }
{
    groups[at].take(row)
}

// A group more, of this row. None has its key.
fn add_new(
    groups: &mut IndexMap<Key, KeptRows>,
    alloc: Global,
    key: Key,
    aggregates: &[AggregateColumn],
    row: &[Value],
) -> Result<(), NoMemory>
    ensures { OnOk result (groups.new.entries ≡ insert_entry same_row groups.old.entries key
        (kept_with row.now (none_kept aggregates.now))) }
{
    let mut kept = KeptRows::new(alloc, aggregates)?;
    kept.take(row)?;
    groups.insert(key, kept)?;
    Ok(())
}

// A row more, in the group of this key.
fn add_row(
    groups: &mut IndexMap<Key, KeptRows>,
    alloc: Global,
    key: Key,
    aggregates: &[AggregateColumn],
    row: &[Value],
) -> Result<(), NoMemory>
    ensures { OnOk result (groups.new.entries ≡ kept_put aggregates.now key row.now
        groups.old.entries) }
{
    match groups.get_index_of(&key) {
        Some(at) => add_at(groups, at, row),
        None => add_new(groups, alloc, key, aggregates, row),
    }
}

impl Folding {
    ghost use Rattle.group_index.specs.Folded.{no_rows, with_row, finished};

    /// Groups of no rows. Without a column there is one group, even of no rows.
    pub fn new(
        alloc: Global,
        places: &[usize],
        aggregates: &[AggregateColumn],
    ) -> Result<Folding, NoMemory>
        ensures { IfOk result (λ f. f ≡ no_rows places.now aggregates.now) }
    {
        Ok(Folding {
            alloc,
            places: Items::from_slice(alloc, places)?,
            aggregates: Items::from_slice(alloc, aggregates)?,
            groups: first_groups(alloc, places, aggregates)?,
        })
    }

    /// Takes one row more: it goes to the group of its key, or makes a new one, the last. A place
    /// past the row's end is NULL.
    pub fn take(&mut self, row: &[Value]) -> Result<(), NoMemory>
        ensures { OnOk result (self.new ≡ with_row self.old row.now) }
    {
        let key = key_at(self.alloc, self.places.as_slice(), row)?;
        add_row(
            &mut self.groups,
            self.alloc,
            key,
            self.aggregates.as_slice(),
            row,
        )
    }

    /// The groups, in the order of their first rows.
    pub fn finish(self) -> Result<Items<FinishedGroup>, NoMemory>
        ensures { IfOk result (λ gs. gs ≡ finished self) }
    {
        let mut ends = Items::from_vec(Vec::with_capacity(self.alloc, self.groups.len())?);
        for (key, kept) in self.groups {
            ends.push(FinishedGroup {
                key,
                ends: kept.finish(self.alloc)?,
            })?;
        }
        Ok(ends)
    }
}
