//! New rows, whose keys rise, that go in among those of a table in one pass.

ghost use Rattle.std.specs.Prelude.{◌≡◌, ◌<◌, ◌≤◌, ◌+◌, length, true, slice_index, vec_len};
ghost use Rattle.std.specs.Prelude.{vec_capacity, None, IfOk, OnErr};
ghost use Rattle.std.specs.List.{list_all};
ghost use Rattle.row_types.specs.Ordered.{rises};
ghost use Rattle.row_types.specs.Rows.{by_key, fits};
ghost use Rattle.row_types.specs.Tables.{table_at};
ghost use Rattle.table_store.specs.Memory.{kept_at};
ghost use Rattle.atomic_undo.specs.Undo.{CanUndo};
ghost use Rattle.atomic_undo.specs.Changes.{order_in, rows_in, WentIn};
ghost use Rattle.atomic_undo.specs.Between.{with_places as with_places_by, IsFound};

use crate::log::Edit;
use crate::sorted::place_in;
use row_types::Row;
use sql_values::NoMemory;
use sqlite_items::Items;
use std::alloc::Global;
use std::collections::VecDeque;
use table_store::{PlacedRow, Table, Tables};

/// What is found of the keys of new rows in a table.
#[derive(Drop)]
pub enum FoundPlaces {
    /// None stands there: the places that the rows take.
    Free(Vec<usize>),
    /// That of the new row at this place stands there, and none of those before it.
    Taken(usize),
}

// Where new rows go in, or the first whose key stands in the table.
fn find_places(alloc: Global, table: &Table, new: &[Row]) -> Result<FoundPlaces, NoMemory>
    requires { rises (by_key table.now.table.key) new.now ≡ true }
    ensures { IfOk result (λ found. IsFound (by_key table.now.table.key) table.now.table.rows
        new.now found) }
{
    let _rows = table.len();
    let mut places = Vec::with_capacity(alloc, new.len())?;
    for i in 0..new.len() {
        match place_in(table, &new[i]) {
            Ok(_) => return Ok(FoundPlaces::Taken(i)),
            Err(at) => places.push_reserved(at + i),
        }
    }
    Ok(FoundPlaces::Free(places))
}

// New rows with the places that they take.
fn with_places(alloc: Global, places: &[usize], new: Vec<Row>) -> Result<Items<PlacedRow>, NoMemory>
    requires { length places.now ≡ length new.items }
    ensures { IfOk result (λ v. v ≡ with_places_by places.now new.items) }
{
    let mut placed = Vec::with_capacity(alloc, places.len())?;
    let mut left = VecDeque::from_vec(new);
    let mut i = 0;
    while let Some(row) = left.pop_front() {
        placed.push_reserved(PlacedRow { at: places[i], row });
        i += 1;
    }
    Ok(Items::from_vec(placed))
}

/// Puts new rows, whose keys rise, in among those of a table in one pass, or none where the key of
/// one stands there. There is memory for them; without memory for their places nothing changes.
pub fn insert_between(
    alloc: Global,
    tables: &mut Tables,
    table: usize,
    new: Vec<Row>,
    edits: &mut Vec<Edit>,
) -> Result<Option<usize>, NoMemory>
    requires there { table < length tables.old.tables }
    requires fit { list_all (fits (table_at tables.old.tables table).columns
        (table_at tables.old.tables table).key) new.items ≡ true }
    requires room { length (rows_in tables.old.tables table) + vec_len new ≤
        slice_index tables.old.capacities table }
    requires can { CanUndo (kept_at tables.old table) edits.old.items }
    requires rise { rises (order_in tables.old.tables table) new.items ≡ true }
    ensures done { IfOk result (λ at. WentIn tables.old tables.new table new.items edits.old.items
        edits.new.items at) }
    ensures tables { OnErr result (tables.new ≡ tables.old) }
    ensures edits { OnErr result (edits.new.items ≡ edits.old.items) }
{
    let _rows = tables.table_at(table).len();
    let found = find_places(alloc, tables.table_at(table), &new)?;
    match found {
        FoundPlaces::Taken(at) => Ok(Some(at)),
        FoundPlaces::Free(places) => {
            let placed = with_places(alloc, &places, new)?;
            edits.reserve(1)?;
            tables.insert_all(table, placed);
            edits.push_reserved(Edit::InsertedAll(Items::from_vec(places)));
            Ok(None)
        }
    }
}
