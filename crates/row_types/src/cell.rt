//! Cells: what stands in a column of a plan's row.

ghost use Rattle.std.specs.Prelude.{◌≡◌, IfOk};

use sql_conditions::Area;
use sql_values::{NoMemory, Value};
use sqlite_items::Boxed;
use std::alloc::Global;

/// What stands in a column of a plan's row: a value, or the area of the conditions that computing
/// it raised (ISO/IEC 9075-2, 4.33). It takes at most 32 bytes; only an area lies in memory of its
/// own, so that a cell of an INTEGER takes none.
#[derive(Drop)]
pub enum Cell {
    /// A value.
    Val(Value),
    /// The conditions that were raised in its place, the newest first.
    Cond(Boxed<Area>),
}

/// The same area once more.
pub fn copied_area(alloc: Global, area: &Area) -> Result<Boxed<Area>, NoMemory>
    ensures { IfOk result (λ a. a ≡ area.now) }
{
    Ok(Boxed::new(alloc, area.copied()?)?)
}

/// The same cell once more.
pub fn copied_cell(alloc: Global, cell: &Cell) -> Result<Cell, NoMemory>
    ensures { IfOk result (λ c. c ≡ cell.now) }
{
    match cell {
        Cell::Val(value) => Ok(Cell::Val(value.copied()?)),
        Cell::Cond(area) => Ok(Cell::Cond(copied_area(alloc, area.get())?)),
    }
}
