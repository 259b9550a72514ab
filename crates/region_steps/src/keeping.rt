//! Keeping some of the cells of a row: where none of them goes back, those that stay aren't copied.

ghost use Rattle.std.specs.Prelude.{◌≡◌, ◌++◌, ◌<◌, ◌≤◌, ℕ, true, length, get_or, slice_set, OnOk};
ghost use Rattle.rel_algebra.specs.Joins.{places as first_places};
ghost use Rattle.rel_algebra.specs.Plan.{cell_at, cells_at};

use plan_rows::own_cell;
use row_types::{Cell, RowInSight};
use sql_values::NoMemory;
use std::alloc::Global;

/// Whether each place is at least its own index.
pub(crate) fn goes_forward(places: &[usize]) -> bool
    ensures { result ≡ true → (k : ℕ) → k < length places.now → k ≤ get_or places.now k 0 }
{
    for at in 0..places.len() {
        if places[at] < at {
            return false;
        }
    }
    true
}

/// Keeps the cells at these places, in this order, none of which goes back; they are no more than
/// there are cells.
pub(crate) fn keep_forward(
    cells: &mut Vec<Cell>,
    alloc: Global,
    places: &[usize],
) -> Result<(), NoMemory>
    requires forward { (k : ℕ) → k < length places.now → k ≤ get_or places.now k 0 }
    requires within { length places.now ≤ length cells.now.items }
    ensures { OnOk result (cells.new.items ≡ cells_at cells.old.items places.now) }
{
    for at in 0..places.len() {
        bring(cells, alloc, places[at], at)?;
    }
    cells.truncate(places.len());
    Ok(())
}

// Puts the cell at a place into another, where it isn't that one.
fn bring(cells: &mut Vec<Cell>, alloc: Global, from: usize, to: usize) -> Result<(), NoMemory>
    ensures { OnOk result (cells.new.items ≡ slice_set cells.old.items to
        (cell_at cells.old.items from)) }
{
    if from == to {
        return Ok(());
    }
    let cell = own_cell(alloc, &RowInSight::of(&[], cells.as_slice()), from)?;
    put(cells, to, cell);
    Ok(())
}

// Puts a cell in the place of another; past the end it does nothing.
fn put(cells: &mut Vec<Cell>, at: usize, cell: Cell)
    ensures { cells.new.items ≡ slice_set cells.old.items at cell }
{
    if at < cells.len() {
        cells[at] = cell;
    }
}

/// Adds the cells at places of a row.
pub(crate) fn pick(
    cells: &mut Vec<Cell>,
    alloc: Global,
    places: &[usize],
    row: &RowInSight,
) -> Result<(), NoMemory>
    ensures { OnOk result (cells.new.items ≡ cells.old.items ++ cells_at row.now places.now) }
{
    for place in places {
        cells.push(own_cell(alloc, row, *place)?)?;
    }
    Ok(())
}

/// Adds the first so many cells of a row.
pub(crate) fn pick_front(
    cells: &mut Vec<Cell>,
    alloc: Global,
    count: usize,
    row: &RowInSight,
) -> Result<(), NoMemory>
    ensures { OnOk result (cells.new.items ≡ cells.old.items ++ cells_at row.now
        (first_places 0 count)) }
{
    for place in 0..count {
        cells.push(own_cell(alloc, row, place)?)?;
    }
    Ok(())
}
