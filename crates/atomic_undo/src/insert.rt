//! Rows that go into a table.

ghost use Rattle.std.specs.Prelude.{◌≡◌, ◌<◌, ◌≤◌, ◌+◌, [], ◌++◌, length, true, slice_index};
ghost use Rattle.std.specs.Prelude.{vec_len, vec_capacity, None, IfOk, OnErr, IsTrue};
ghost use Rattle.std.specs.List.{list_all};
ghost use Rattle.row_types.specs.Ordered.{rises};
ghost use Rattle.row_types.specs.Rows.{fits};
ghost use Rattle.row_types.specs.Tables.{table_at};
ghost use Rattle.table_store.specs.Memory.{kept_at};
ghost use Rattle.atomic_undo.specs.Undo.{CanUndo};
ghost use Rattle.atomic_undo.specs.Changes.{order_in, rows_in, IsAnswer, WentIn};

use crate::between::insert_between;
use crate::fault::ApplyFault;
use crate::log::Edit;
use crate::passes::takes_one_pass;
use crate::sorted::{place_in, rise_after, rising_rows};
use crate::undo::take_back;
use row_types::Row;
use sql_values::NoMemory;
use sqlite_items::Items;
use std::alloc::Global;
use std::collections::VecDeque;
use table_store::Tables;

/// Puts new rows into a table one after another, each at its place, up to the first whose key
/// stands there. There is memory for all.
pub fn insert_each(
    tables: &mut Tables,
    table: usize,
    new: Vec<Row>,
    edits: &mut Vec<Edit>,
) -> Option<usize>
    requires there { table < length tables.old.tables }
    requires fit { list_all (fits (table_at tables.old.tables table).columns
        (table_at tables.old.tables table).key) new.items ≡ true }
    requires room { length (rows_in tables.old.tables table) + vec_len new ≤
        slice_index tables.old.capacities table }
    requires noted { vec_len edits.old + vec_len new ≤ vec_capacity edits.old }
    requires can { CanUndo (kept_at tables.old table) edits.old.items }
    ensures { WentIn tables.old tables.new table new.items edits.old.items edits.new.items result }
{
    let mut rest = VecDeque::from_vec(new);
    let mut stored = 0;
    while let Some(row) = rest.pop_front() {
        match place_in(tables.table_at(table), &row) {
            Ok(_) => return Some(stored),
            Err(at) => {
                tables.insert_at(table, at, row);
                edits.push_reserved(Edit::Inserted(at));
                stored += 1;
            }
        }
    }
    None
}

// Puts new rows after those of a table, where all their keys rise. There is memory for all.
fn insert_after(tables: &mut Tables, table: usize, new: Vec<Row>, edits: &mut Vec<Edit>)
    requires there { table < length tables.old.tables }
    requires fit { list_all (fits (table_at tables.old.tables table).columns
        (table_at tables.old.tables table).key) new.items ≡ true }
    requires room { length (rows_in tables.old.tables table) + vec_len new ≤
        slice_index tables.old.capacities table }
    requires noted { vec_len edits.old < vec_capacity edits.old }
    requires can { CanUndo (kept_at tables.old table) edits.old.items }
    requires rise { rises (order_in tables.old.tables table)
        (rows_in tables.old.tables table ++ new.items) ≡ true }
    ensures { WentIn tables.old tables.new table new.items edits.old.items edits.new.items None }
{
    let first = tables.table_at(table).len();
    tables.append(table, new);
    edits.push_reserved(Edit::Appended(first));
}

/// Puts new rows into a table, after the others, in one pass or each by itself, up to the first
/// whose key stands there. There is memory for them; without memory for what is noted nothing
/// changes.
pub fn put_in(
    alloc: Global,
    tables: &mut Tables,
    table: usize,
    new: Vec<Row>,
    rise: bool,
    edits: &mut Vec<Edit>,
) -> Result<Option<usize>, NoMemory>
    requires there { table < length tables.old.tables }
    requires fit { list_all (fits (table_at tables.old.tables table).columns
        (table_at tables.old.tables table).key) new.items ≡ true }
    requires room { length (rows_in tables.old.tables table) + vec_len new ≤
        slice_index tables.old.capacities table }
    requires can { CanUndo (kept_at tables.old table) edits.old.items }
    requires rise { IsTrue rise → rises (order_in tables.old.tables table) new.items ≡ true }
    ensures done { IfOk result (λ at. WentIn tables.old tables.new table new.items edits.old.items
        edits.new.items at) }
    ensures tables { OnErr result (tables.new ≡ tables.old) }
    ensures edits { OnErr result (edits.new.items ≡ edits.old.items) }
{
    if rise && rise_after(tables.table_at(table), &new) {
        edits.reserve(1)?;
        insert_after(tables, table, new, edits);
        return Ok(None);
    }
    if rise && takes_one_pass(new.len(), tables.table_at(table).len()) {
        return insert_between(alloc, tables, table, new, edits);
    }
    edits.reserve(new.len())?;
    Ok(insert_each(tables, table, new, edits))
}

// Puts new rows into a table, or none where a key stands twice.
fn insert_or_refuse(
    alloc: Global,
    tables: &mut Tables,
    table: usize,
    new: Vec<Row>,
    rise: bool,
) -> Result<Items<Edit>, ApplyFault>
    requires there { table < length tables.old.tables }
    requires fit { list_all (fits (table_at tables.old.tables table).columns
        (table_at tables.old.tables table).key) new.items ≡ true }
    requires rise { IsTrue rise → rises (order_in tables.old.tables table) new.items ≡ true }
    ensures { IsAnswer tables.old tables.new table (rows_in tables.old.tables table ++ new.items)
        result }
{
    let before = tables.table_at(table).len();
    let Ok(()) = tables.reserve(table, new.len()) else {
        return Err(ApplyFault::NoMemory);
    };
    let mut edits = Vec::new(alloc);
    let Ok(refused) = put_in(alloc, tables, table, new, rise, &mut edits) else {
        return Err(ApplyFault::NoMemory);
    };
    match refused {
        None => Ok(Items::from_vec(edits)),
        Some(at) => {
            take_back(tables, table, edits);
            Err(ApplyFault::Constraint(before + at))
        }
    }
}

/// Puts new rows into a table, in key order, or none where a key stands twice.
pub fn insert_rows(
    alloc: Global,
    tables: &mut Tables,
    table: usize,
    new: Vec<Row>,
) -> Result<Items<Edit>, ApplyFault>
    requires there { table < length tables.old.tables }
    requires fit { list_all (fits (table_at tables.old.tables table).columns
        (table_at tables.old.tables table).key) new.items ≡ true }
    ensures { IsAnswer tables.old tables.new table (rows_in tables.old.tables table ++ new.items)
        result }
{
    match rising_rows(alloc, tables.table_at(table), new) {
        Ok(sorted) => insert_or_refuse(alloc, tables, table, sorted.rows, sorted.rise),
        Err(NoMemory) => Err(ApplyFault::NoMemory),
    }
}
