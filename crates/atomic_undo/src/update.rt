//! Rows that take the place of others.

ghost use Rattle.std.specs.Prelude.{◌≡◌, ◌<◌, ◌≤◌, ◌+◌, [], length, true, IsTrue, vec_len};
ghost use Rattle.std.specs.Prelude.{vec_capacity};
ghost use Rattle.std.specs.List.{list_all};
ghost use Rattle.row_types.specs.Rows.{fits, by_key};
ghost use Rattle.row_types.specs.Tables.{table_at};
ghost use Rattle.table_store.specs.Memory.{kept_at};
ghost use Rattle.atomic_undo.specs.Undo.{CanUndo};
ghost use Rattle.atomic_undo.specs.Changes.{order_in, rows_in, set_all, keys_stay, Climb};
ghost use Rattle.atomic_undo.specs.Changes.{Replacing, IsAnswer};

use crate::fault::ApplyFault;
use crate::log::Edit;
use crate::rekey::rekey_rows;
use row_types::Row;
use sqlite_items::Items;
use std::alloc::Global;
use table_store::{Table, Tables};

// Whether each new row has the key of the row at its place.
fn keep_keys(table: &Table, places: &[usize], new: &[Row]) -> bool
    requires places { Climb 0 places.now (length table.now.table.rows) }
    requires both { length places.now ≡ length new.now }
    ensures { IsTrue result → keys_stay (by_key table.now.table.key) places.now new.now
        table.now.table.rows ≡ true }
{
    for (i, row) in new.iter().enumerate() {
        if !table.has_key_at(places[i], row) {
            return false;
        }
    }
    true
}

// Puts rows in the places of others with their keys, the last first. There is memory for the edits.
fn replace_each(
    tables: &mut Tables,
    table: usize,
    places: Vec<usize>,
    new: Vec<Row>,
    edits: &mut Vec<Edit>,
)
    requires start { Replacing tables.old tables.old table places.items new.items places.items
        new.items edits.old.items }
    requires noted { vec_len edits.old + vec_len places ≤ vec_capacity edits.old }
    ensures { Replacing tables.old tables.new table places.items new.items [] [] edits.new.items }
{
    let mut places = places;
    let mut new = new;
    while let Some(at) = places.pop() {
        let Some(row) = new.pop() else { unreachable!() };
        let old = tables.replace_at(table, at, row);
        edits.push_reserved(Edit::Replaced(at, old));
    }
}

// Puts rows in the places of others with their keys.
fn replace_rows(
    alloc: Global,
    tables: &mut Tables,
    table: usize,
    places: Vec<usize>,
    new: Vec<Row>,
) -> Result<Items<Edit>, ApplyFault>
    requires there { table < length tables.old.tables }
    requires places { Climb 0 places.items (length (rows_in tables.old.tables table)) }
    requires both { length places.items ≡ length new.items }
    requires fit { list_all (fits (table_at tables.old.tables table).columns
        (table_at tables.old.tables table).key) new.items ≡ true }
    requires same { keys_stay (order_in tables.old.tables table) places.items new.items
        (rows_in tables.old.tables table) ≡ true }
    ensures { IsAnswer tables.old tables.new table
        (set_all places.items new.items (rows_in tables.old.tables table)) result }
{
    let _rows = tables.table_at(table).len();
    let Ok(mut edits) = Vec::with_capacity(alloc, places.len()) else {
        return Err(ApplyFault::NoMemory);
    };
    replace_each(tables, table, places, new, &mut edits);
    Ok(Items::from_vec(edits))
}

/// Puts rows in the places of others.
pub fn update_rows(
    alloc: Global,
    tables: &mut Tables,
    table: usize,
    places: Vec<usize>,
    new: Vec<Row>,
) -> Result<Items<Edit>, ApplyFault>
    requires there { table < length tables.old.tables }
    requires places { Climb 0 places.items (length (rows_in tables.old.tables table)) }
    requires both { length places.items ≡ length new.items }
    requires fit { list_all (fits (table_at tables.old.tables table).columns
        (table_at tables.old.tables table).key) new.items ≡ true }
    ensures { IsAnswer tables.old tables.new table
        (set_all places.items new.items (rows_in tables.old.tables table)) result }
{
    let stay = keep_keys(tables.table_at(table), &places, &new);
    if stay {
        replace_rows(alloc, tables, table, places, new)
    } else {
        rekey_rows(alloc, tables, table, places, new)
    }
}
