//! Rows that go out of a table.

ghost use Rattle.std.specs.Prelude.{◌≡◌, ◌<◌, ◌≤◌, ◌+◌, [], length, vec_len, vec_capacity, OnOk};
ghost use Rattle.std.specs.Prelude.{OnErr};
ghost use Rattle.table_store.specs.Memory.{kept_at};
ghost use Rattle.atomic_undo.specs.Undo.{CanUndo};
ghost use Rattle.atomic_undo.specs.Changes.{rows_in, removed_all, Climb, IsAnswer, Going_out};
ghost use Rattle.atomic_undo.specs.Changes.{Unchanged};

use crate::fault::ApplyFault;
use crate::log::Edit;
use crate::passes::takes_one_pass;
use sql_values::NoMemory;
use sqlite_items::Items;
use std::alloc::Global;
use table_store::Tables;

// Takes the rows at places out, the last first. There is memory for the edits.
fn remove_each(tables: &mut Tables, table: usize, places: Vec<usize>, edits: &mut Vec<Edit>)
    requires there { table < length tables.old.tables }
    requires places { Climb 0 places.items (length (rows_in tables.old.tables table)) }
    requires noted { vec_len edits.old + vec_len places ≤ vec_capacity edits.old }
    requires can { CanUndo (kept_at tables.old table) edits.old.items }
    ensures out { Going_out tables.old tables.new table places.items [] edits.old.items
        edits.new.items }
    ensures noted { vec_len edits.new ≤ vec_len edits.old + vec_len places }
    ensures capacity { vec_capacity edits.new ≡ vec_capacity edits.old }
{
    let _rows = tables.table_at(table).len();
    let mut rest = places;
    while let Some(at) = rest.pop() {
        let row = tables.remove_at(table, at);
        edits.push_reserved(Edit::Removed(at, row));
    }
}

// Takes the rows at places out in one pass. There is memory for an edit; without memory for the
// rows nothing changes.
fn remove_at_once(
    tables: &mut Tables,
    table: usize,
    places: &[usize],
    edits: &mut Vec<Edit>,
) -> Result<(), NoMemory>
    requires there { table < length tables.old.tables }
    requires places { Climb 0 places.now (length (rows_in tables.old.tables table)) }
    requires noted { vec_len edits.old < vec_capacity edits.old }
    requires can { CanUndo (kept_at tables.old table) edits.old.items }
    ensures out { OnOk result (Going_out tables.old tables.new table places.now [] edits.old.items
        edits.new.items) }
    ensures unchanged { OnErr result (Unchanged tables.old tables.new) }
{
    let _rows = tables.table_at(table).len();
    let removed = tables.remove_all(table, places)?;
    edits.push_reserved(Edit::RemovedAll(Items::from_vec(removed)));
    Ok(())
}

/// Takes the rows at places out, in one pass or each by itself, and adds to edits what brings them
/// back. Without memory the tables stay.
pub fn take_out(
    tables: &mut Tables,
    table: usize,
    places: Vec<usize>,
    edits: &mut Vec<Edit>,
) -> Result<(), NoMemory>
    requires there { table < length tables.old.tables }
    requires places { Climb 0 places.items (length (rows_in tables.old.tables table)) }
    requires can { CanUndo (kept_at tables.old table) edits.old.items }
    ensures out { OnOk result (Going_out tables.old tables.new table places.items [] edits.old.items
        edits.new.items) }
    ensures unchanged { OnErr result (Unchanged tables.old tables.new) }
{
    if takes_one_pass(places.len(), tables.table_at(table).len()) {
        edits.reserve(1)?;
        return remove_at_once(tables, table, &places, edits);
    }
    edits.reserve(places.len())?;
    remove_each(tables, table, places, edits);
    Ok(())
}

/// Takes the rows at places out of a table.
pub fn delete_rows(
    alloc: Global,
    tables: &mut Tables,
    table: usize,
    places: Vec<usize>,
) -> Result<Items<Edit>, ApplyFault>
    requires there { table < length tables.old.tables }
    requires places { Climb 0 places.items (length (rows_in tables.old.tables table)) }
    ensures { IsAnswer tables.old tables.new table
        (removed_all places.items (rows_in tables.old.tables table)) result }
{
    let mut edits = Vec::new(alloc);
    match take_out(tables, table, places, &mut edits) {
        Ok(()) => Ok(Items::from_vec(edits)),
        Err(NoMemory) => Err(ApplyFault::NoMemory),
    }
}
