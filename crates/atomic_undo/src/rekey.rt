//! Rows that take the place of others with other keys: the old ones go out, and the new ones go in.

ghost use Rattle.std.specs.Prelude.{◌≡◌, ◌<◌, ◌≤◌, ◌+◌, ◌++◌, [], length, true, take, slice_index};
ghost use Rattle.std.specs.Prelude.{vec_len, None, IfOk, OnErr};
ghost use Rattle.std.specs.List.{list_all};
ghost use Rattle.row_types.specs.Ordered.{first_repeat};
ghost use Rattle.row_types.specs.Rows.{fits, by_key};
ghost use Rattle.row_types.specs.Tables.{table_at};
ghost use Rattle.table_store.specs.Memory.{kept_at};
ghost use Rattle.atomic_undo.specs.Undo.{CanUndo};
ghost use Rattle.atomic_undo.specs.Changes.{rows_in, set_all, Climb, GoesIn, IsAnswer, IsJudged};

use crate::delete::take_out;
use crate::fault::ApplyFault;
use crate::insert::{insert_each, put_in};
use crate::log::Edit;
use crate::sorted::rising_rows;
use crate::undo::take_back;
use row_types::{Row, RowType, copied_columns, copied_row};
use sql_values::{Name, NoMemory};
use sqlite_items::Items;
use std::alloc::Global;
use table_store::{Table, Tables};

// The same rows once more.
fn copied_rows(alloc: Global, rows: &[Row]) -> Result<Vec<Row>, NoMemory>
    ensures { IfOk result (λ v. v.items ≡ rows.now) }
{
    let mut copies = Vec::new(alloc);
    for row in rows {
        copies.push(copied_row(alloc, row)?)?;
    }
    Ok(copies)
}

// The rows of a table once more.
fn copied_table(alloc: Global, table: &Table) -> Result<Vec<Row>, NoMemory>
    ensures { IfOk result (λ v. v.items ≡ table.now.table.rows) }
{
    let mut copies = Vec::new(alloc);
    for i in 0..table.len() {
        copies.push(copied_row(alloc, table.row_at(i))?)?;
    }
    Ok(copies)
}

// The place of the first row that has the key of an earlier one: they go into a table of their own,
// up to that row.
fn find_repeat(alloc: Global, table: &Table, rows: Vec<Row>) -> Result<Option<usize>, NoMemory>
    requires { list_all (fits table.now.table.columns table.now.table.key) rows.items ≡ true }
    ensures { IfOk result (λ place. place ≡ first_repeat (by_key table.now.table.key) rows.items) }
{
    let columns = copied_columns(alloc, table.columns())?;
    let key = Items::from_slice(alloc, table.key())?;
    let mut alone = Tables::new(alloc);
    let name = Name::folded(alloc, b"t")?;
    alone.add_table(name, Table::new(alloc, RowType { columns, key }))?;
    alone.reserve(0, rows.len())?;
    let mut edits = Vec::with_capacity(alloc, rows.len())?;
    let place = insert_each(&mut alone, 0, rows, &mut edits);
    Ok(place)
}

// The rows with others at places, the last first.
fn with_rows_at(rows: Vec<Row>, places: Vec<usize>, new: Vec<Row>) -> Vec<Row>
    requires places { Climb 0 places.items (length rows.items) }
    requires both { length places.items ≡ length new.items }
    ensures { result.items ≡ set_all places.items new.items rows.items }
{
    let mut rows = rows;
    let mut places = places;
    let mut new = new;
    while let Some(at) = places.pop() {
        let Some(row) = new.pop() else { unreachable!() };
        rows[at] = row;
    }
    rows
}

// Where a result has its first repeat. Without memory to lay the result out that is the answer.
fn judge(alloc: Global, table: &Table, places: Vec<usize>, new: Vec<Row>) -> ApplyFault
    requires places { Climb 0 places.items (length table.now.table.rows) }
    requires both { length places.items ≡ length new.items }
    requires fit { list_all (fits table.now.table.columns table.now.table.key) new.items ≡ true }
    requires repeats { first_repeat (by_key table.now.table.key)
        (set_all places.items new.items table.now.table.rows) ≡ None → ⊥ }
    ensures { IsJudged (first_repeat (by_key table.now.table.key)
        (set_all places.items new.items table.now.table.rows)) result }
{
    let _kept = table.len();
    let Ok(rows) = copied_table(alloc, table) else {
        return ApplyFault::NoMemory;
    };
    let Ok(place) = find_repeat(alloc, table, with_rows_at(rows, places, new)) else {
        return ApplyFault::NoMemory;
    };
    match place {
        Some(at) => ApplyFault::Constraint(at),
        None => unreachable!(),
    }
}

// Puts new rows into a table in key order, and says whether all went in; where a key would stand
// twice, some may have. There is memory for them; without memory for what is noted nothing changes.
fn put_in_order(
    alloc: Global,
    tables: &mut Tables,
    table: usize,
    new: Vec<Row>,
    edits: &mut Vec<Edit>,
) -> Result<bool, NoMemory>
    requires there { table < length tables.old.tables }
    requires fit { list_all (fits (table_at tables.old.tables table).columns
        (table_at tables.old.tables table).key) new.items ≡ true }
    requires room { length (rows_in tables.old.tables table) + vec_len new ≤
        slice_index tables.old.capacities table }
    requires can { CanUndo (kept_at tables.old table) edits.old.items }
    ensures done { IfOk result (λ all. GoesIn tables.old tables.new table new.items edits.old.items
        edits.new.items all) }
    ensures tables { OnErr result (tables.new ≡ tables.old) }
    ensures edits { OnErr result (edits.new.items ≡ edits.old.items) }
{
    let _rows = tables.table_at(table).len();
    let sorted = rising_rows(alloc, tables.table_at(table), new)?;
    let refused = put_in(alloc, tables, table, sorted.rows, sorted.rise, edits)?;
    match refused {
        None => Ok(true),
        Some(_) => Ok(false),
    }
}

/// Puts rows in the places of others, where keys change.
pub fn rekey_rows(
    alloc: Global,
    tables: &mut Tables,
    table: usize,
    places: Vec<usize>,
    new: Vec<Row>,
) -> Result<Items<Edit>, ApplyFault>
    requires there { table < length tables.old.tables }
    requires places { Climb 0 places.items (length (rows_in tables.old.tables table)) }
    requires both { length places.items ≡ length new.items }
    requires fit { list_all (fits (table_at tables.old.tables table).columns
        (table_at tables.old.tables table).key) new.items ≡ true }
    ensures { IsAnswer tables.old tables.new table
        (set_all places.items new.items (rows_in tables.old.tables table)) result }
{
    let _before = tables.table_at(table).len();
    let Ok(places_again) = Vec::from_slice(alloc, &places) else {
        return Err(ApplyFault::NoMemory);
    };
    let Ok(new_again) = copied_rows(alloc, &new) else {
        return Err(ApplyFault::NoMemory);
    };
    let mut edits = Vec::new(alloc);
    let Ok(()) = take_out(tables, table, places, &mut edits) else {
        return Err(ApplyFault::NoMemory);
    };
    let Ok(all) = put_in_order(alloc, tables, table, new, &mut edits) else {
        take_back(tables, table, edits);
        return Err(ApplyFault::NoMemory);
    };
    let _rows = tables.table_at(table).len();
    if all {
        return Ok(Items::from_vec(edits));
    }
    take_back(tables, table, edits);
    Err(judge(alloc, tables.table_at(table), places_again, new_again))
}
