//! Rows in groups by the values of some of their columns, each found by its key.

ghost use Rattle.std.specs.Prelude.{◌≡◌, ◌+◌, ◌<◌, ◌≤◌, ◌++◌, [], ◌∷◌, filter, length};
ghost use Rattle.std.specs.Prelude.{if◌then◌else◌, IfOk, OnOk};
ghost use Rattle.indexmap.specs.IndexMap.{insert_entry};
ghost use Rattle.row_types.specs.Groups.{same_row};
ghost use Rattle.row_types.specs.Rows.{Row};
ghost use Rattle.group_index.specs.Indexed.{cells_at_places, group_of, has_key};
ghost use Rattle.group_index.specs.Indexed.{is_poisoned as is_poisoned_by, pushed_at, row_key};
ghost use Rattle.group_index.specs.Indexed.{values_in};

use indexmap::IndexMap;
use row_types::{Cell, Key, PlanRow, RowInSight, RowList, Steps};
use sql_values::NoMemory;
use std::alloc::Global;
use std::marker::Model;
use std::sync::ledger::Ledger;

/// Groups of rows by keys (ISO/IEC 9075-2, 7.13), in which NULL equals NULL. Contracts see each key
/// with its rows.
#[derive(Drop)]
pub struct Groups {
    index: IndexMap<Key, RowList>,
    none: RowList,
}

impl Model for Groups {
    ghost use Rattle.std.specs.Prelude.{List, [], ◌≡◌};
    ghost use Rattle.row_types.specs.Rows.{Row};
    ghost use Rattle.row_types.specs.Cells.{PlanRow as PlainRow};

    ghost Value = { List (Row × List PlainRow) };

    ghost view = { λ g. g.index.entries };

    ghost invariant = { λ g. g.none ≡ [] };
}

/// The rows in groups by the values at these places, each group in the order of the rows. A row
/// that is poisoned, or has a condition at one of these places, is in no group; a place past its
/// end is NULL. Each row that is read is a step.
pub fn build<L: Ledger>(
    alloc: Global,
    rows: RowList,
    columns: &[usize],
    steps: &mut Steps<L>,
) -> Result<Groups, NoMemory>
    ensures groups { IfOk result (λ g. (key : Row) →
        group_of key g ≡ filter (has_key columns.now key) rows) }
    ensures work { steps.new ≤ steps.old + length rows }
{
    let mut left = rows;
    let mut index = IndexMap::new(alloc);
    while left.len() > 0 {
        if let Some(row) = left.take_first(steps) {
            add_row(&mut index, alloc, columns, row)?;
        }
    }
    Ok(Groups {
        index,
        none: RowList::new(alloc),
    })
}

impl Groups {
    /// The rows of a key; none where no row has it. It is a step.
    pub fn group<L: Ledger>(&self, key: &Key, steps: &mut Steps<L>) -> &RowList
        ensures rows { result.now ≡ group_of key.now self.now }
        ensures step { steps.new ≡ steps.old + 1 }
    {
        steps.tick();
        match self.index.get(key) {
            Some(rows) => rows,
            None => &self.none,
        }
    }
}

// A row more, in the group of its key, where it has one.
fn add_row(
    index: &mut IndexMap<Key, RowList>,
    alloc: Global,
    columns: &[usize],
    row: PlanRow,
) -> Result<(), NoMemory>
    ensures { OnOk result ((key : Row) → group_of key index.new.entries ≡
        group_of key index.old.entries ++ (if has_key columns.now key row then row ∷ [] else [])) }
{
    match key_of(alloc, &row, columns)? {
        Some(key) => add_to(index, alloc, key, row),
        None => Ok(()),
    }
}

// A row more, in the group of this key.
fn add_to(
    index: &mut IndexMap<Key, RowList>,
    alloc: Global,
    key: Key,
    row: PlanRow,
) -> Result<(), NoMemory>
    ensures { OnOk result ((sought : Row) → group_of sought index.new.entries ≡
        group_of sought index.old.entries ++ (if same_row key sought then row ∷ [] else [])) }
{
    match index.get_index_of(&key) {
        Some(at) => push_at(index, at, row),
        None => push_new(index, alloc, key, row),
    }
}

// A row more in the group at a place.
fn push_at(index: &mut IndexMap<Key, RowList>, at: usize, row: PlanRow) -> Result<(), NoMemory>
    requires { at < length index.old.entries }
    ensures { OnOk result (index.new.entries ≡ pushed_at at row index.old.entries) }
{
    index[at].push(row)
}

// A group more, of this row. None has its key.
fn push_new(
    index: &mut IndexMap<Key, RowList>,
    alloc: Global,
    key: Key,
    row: PlanRow,
) -> Result<(), NoMemory>
    ensures { OnOk result (index.new.entries ≡ insert_entry same_row index.old.entries key
        (row ∷ [])) }
{
    let mut rows = RowList::new(alloc);
    rows.push(row)?;
    index.insert(key, rows)?;
    Ok(())
}

// Whether a row is poisoned.
fn is_poisoned(row: &PlanRow) -> bool
    ensures { result ≡ is_poisoned_by row.now }
{
    row.first_area().is_some() && row.in_sight().len() == 0
}

// The key of a row: its values at these places. `None` exactly where it is poisoned or has a
// condition at one of them.
fn key_of(alloc: Global, row: &PlanRow, columns: &[usize]) -> Result<Option<Key>, NoMemory>
    ensures { IfOk result (λ o. o ≡ row_key columns.now row.now) }
{
    if is_poisoned(row) {
        return Ok(None);
    }
    key_of_cells(alloc, &row.in_sight(), columns)
}

// The key of cells.
fn key_of_cells(alloc: Global, row: &RowInSight, columns: &[usize]) -> Result<Option<Key>, NoMemory>
    ensures { IfOk result (λ o. o ≡ values_in (cells_at_places row.now columns.now)) }
{
    let mut key = Key::new(alloc);
    for column in columns {
        match row.cell(alloc, *column)? {
            Cell::Val(value) => key.push(value)?,
            Cell::Cond(_) => return Ok(None),
        }
    }
    Ok(Some(key))
}
