//! Rows of a list, opened so that scalars and inner plans can see their cells where they lie.

ghost use Rattle.std.specs.Prelude.{◌≡◌, ◌++◌, IfOk, OnOk};
ghost use Rattle.plan_exec.specs.Applying.{has_condition as has_condition_by, opened_row};

use plan_nodes::Scratch;
use plan_rows::own_cell;
use row_types::{Cell, PlanRow, Row, RowEnd, RowInSight};
use sql_conditions::Area;
use sql_values::NoMemory;
use sqlite_items::{Boxed, Items};
use std::alloc::Global;

/// A row that was opened.
#[derive(Drop)]
pub enum Opened {
    /// These values; its other cells stand in the scratch after them.
    Values(Row),
    /// It is poisoned by this area.
    Poison(Boxed<Area>),
}

/// A row, opened. Values that it was made of are handed on as they lie; where one of its cells is a
/// condition, all of them stand in the scratch.
pub fn open_row(alloc: Global, row: PlanRow, scratch: &mut Scratch) -> Result<Opened, NoMemory>
    ensures { IfOk result (λ o. opened_row o scratch.new.cells.items ≡ row) }
{
    scratch.clear();
    if has_condition(&row) {
        copy_cells(&mut scratch.cells, alloc, &row.in_sight())?;
        return Ok(Opened::Values(Items::new(alloc)));
    }
    match row.into_end(alloc)? {
        RowEnd::Values(values) => Ok(Opened::Values(values)),
        RowEnd::Raised(area) => Ok(Opened::Poison(area)),
    }
}

// Whether a cell of a row that isn't poisoned is a condition.
fn has_condition(row: &PlanRow) -> bool
    ensures { result ≡ has_condition_by row.now }
{
    row.in_sight().len() > 0 && row.first_area().is_some()
}

// Adds the cells of a row.
fn copy_cells(cells: &mut Vec<Cell>, alloc: Global, row: &RowInSight) -> Result<(), NoMemory>
    ensures { OnOk result (cells.new.items ≡ cells.old.items ++ row.now) }
{
    for place in 0..row.len() {
        cells.push(own_cell(alloc, row, place)?)?;
    }
    Ok(())
}
