//! UPDATE and DELETE of rows wherever they stand (ISO/IEC 9075-2, 14.14 and 14.9). Rows that a
//! query gave may be any rows: in another order than the table's, or one of them twice. Those of a
//! statement of a script stand in the table's order, since what writes is refused in INSERT, UPDATE
//! and DELETE. Places that increase change in one pass; for others an UPDATE puts all rows of the
//! table anew, and a DELETE takes each row out by itself.

ghost use Rattle.std.specs.Prelude.{◌≡◌, ◌<◌, length, true, slice_set, IfOk, Some};
ghost use Rattle.std.specs.List.{list_all, remove};
ghost use Rattle.row_types.specs.Rows.{fits};
ghost use Rattle.row_types.specs.Tables.{table_at};
ghost use Rattle.atomic_undo.specs.declared.changes.Changes.TheVariants.{Update};
ghost use Rattle.atomic_undo.specs.Applying.{IsFor, result_of};
ghost use Rattle.atomic_undo.specs.Changes.{Climb, set_all, removed_all};
ghost use Rattle.run_expressions.specs.Content.{world_of};
ghost use Rattle.run_expressions.specs.Ending.{Ended};
ghost use Rattle.run_changes.specs.Making.{keep_at, rows_after, places_below};

use crate::making::make;
use crate::places::climb;
use atomic_undo::Changes;
use row_types::{Row, copied_row};
use run_expressions::{Stop, World};
use sql_values::NoMemory;
use std::alloc::Global;
use table_store::Table;

// ---- UPDATE

// The rows of a table once more.
fn copied_rows(alloc: Global, table: &Table) -> Result<Vec<Row>, NoMemory>
    ensures { IfOk result (λ rows. rows.items ≡ table.now.table.rows) }
{
    let mut rows = Vec::with_capacity(alloc, table.len())?;
    for at in 0..table.len() {
        rows.push(copied_row(alloc, table.row_at(at))?)?;
    }
    Ok(rows)
}

// The places of so many rows.
fn all_places(alloc: Global, count: usize) -> Result<Vec<usize>, NoMemory>
    ensures { IfOk result (λ places. places.items ≡ places_below count) }
{
    let mut places = Vec::with_capacity(alloc, count)?;
    for place in 0..count {
        places.push(place)?;
    }
    Ok(places)
}

// Puts a row in the place of another; past the end it does nothing.
fn set_row(rows: &mut Vec<Row>, at: usize, row: Row)
    ensures { rows.new.items ≡ slice_set rows.old.items at row }
{
    if at < rows.len() {
        rows[at] = row;
    }
}

// Puts rows in the places of others, the last first.
fn set_rows(rows: &mut Vec<Row>, places: Vec<usize>, new: Vec<Row>)
    requires { length places.items ≡ length new.items }
    ensures { rows.new.items ≡ set_all places.items new.items rows.old.items }
{
    let mut places = places;
    let mut new = new;
    while let Some(at) = places.pop() {
        let Some(row) = new.pop() else { unreachable!() };
        set_row(rows, at, row);
    }
}

// The change that puts all rows of a table anew, with these in the places of others.
fn whole_update(
    alloc: Global,
    table: &Table,
    places: Vec<usize>,
    new: Vec<Row>,
) -> Result<Changes, NoMemory>
    requires both { length places.items ≡ length new.items }
    requires fit { list_all (fits table.now.table.columns table.now.table.key) new.items ≡ true }
    ensures whole { IfOk result (λ changes. IsFor table.now.table changes) }
    ensures rows { IfOk result (λ changes. result_of changes table.now.table.rows ≡
        set_all places.items new.items table.now.table.rows) }
{
    let count = table.len();
    let all = all_places(alloc, count)?;
    let mut rows = copied_rows(alloc, table)?;
    set_rows(&mut rows, places, new);
    Ok(Changes::Update(all, rows))
}

// Puts rows in the places of others, all rows anew.
fn change_anew(
    place: usize,
    places: Vec<usize>,
    new: Vec<Row>,
    world: &mut World,
) -> Result<(), Stop>
    requires there { place < length world.old.memory.tables }
    requires both { length places.items ≡ length new.items }
    requires fit { list_all (fits (table_at world.old.memory.tables place).columns
        (table_at world.old.memory.tables place).key) new.items ≡ true }
    ensures { Ended world.old world.new result
        (keep_at place (rows_after (table_at world.old.memory.tables place) (Update places new))
        (world_of world.old)) }
{
    let table = world.tables().table_at(place);
    let changes = whole_update(world.allocator(), table, places, new)?;
    make(place, changes, world)
}

/// Puts rows in the places of others in the table at a place.
pub fn change_at(
    place: usize,
    places: Vec<usize>,
    new: Vec<Row>,
    world: &mut World,
) -> Result<(), Stop>
    requires there { place < length world.old.memory.tables }
    requires both { length places.items ≡ length new.items }
    requires fit { list_all (fits (table_at world.old.memory.tables place).columns
        (table_at world.old.memory.tables place).key) new.items ≡ true }
    ensures { Ended world.old world.new result
        (keep_at place (rows_after (table_at world.old.memory.tables place) (Update places new))
        (world_of world.old)) }
{
    if climb(&places, world.tables().table_at(place).len()) {
        make(place, Changes::Update(places, new), world)
    } else {
        change_anew(place, places, new, world)
    }
}

// ---- DELETE

// Takes the rows at places that increase out in one pass.
fn remove_climbing(place: usize, places: Vec<usize>, world: &mut World) -> Result<(), Stop>
    requires there { place < length world.old.memory.tables }
    requires places { Climb 0 places.items (length (table_at world.old.memory.tables place).rows) }
    ensures { Ended world.old world.new result
        (keep_at place (Some (removed_all places.items
        (table_at world.old.memory.tables place).rows)) (world_of world.old)) }
{
    let _rows = world.tables().len();
    make(place, Changes::Delete(places), world)
}

// Takes the row at a place out; past the end it does nothing.
fn remove_one(place: usize, at: usize, world: &mut World) -> Result<(), Stop>
    requires there { place < length world.old.memory.tables }
    ensures { Ended world.old world.new result
        (keep_at place (Some (remove (table_at world.old.memory.tables place).rows at))
        (world_of world.old)) }
{
    if at >= world.tables().table_at(place).len() {
        return Ok(());
    }
    let places = Vec::from_array(world.allocator(), [at])?;
    remove_climbing(place, places, world)
}

// Takes the rows at places out, each by itself, the last first.
fn remove_each(place: usize, places: Vec<usize>, world: &mut World) -> Result<(), Stop>
    requires there { place < length world.old.memory.tables }
    ensures { Ended world.old world.new result
        (keep_at place (Some (removed_all places.items
        (table_at world.old.memory.tables place).rows)) (world_of world.old)) }
{
    let mut left = places;
    while let Some(at) = left.pop() {
        remove_one(place, at, world)?;
    }
    Ok(())
}

/// Takes the rows at places out of the table at a place.
pub fn remove_at(place: usize, places: Vec<usize>, world: &mut World) -> Result<(), Stop>
    requires there { place < length world.old.memory.tables }
    ensures { Ended world.old world.new result
        (keep_at place (Some (removed_all places.items
        (table_at world.old.memory.tables place).rows)) (world_of world.old)) }
{
    if climb(&places, world.tables().table_at(place).len()) {
        remove_climbing(place, places, world)
    } else {
        remove_each(place, places, world)
    }
}
