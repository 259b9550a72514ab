//! Where columns and arguments are found: by level and place, NULL where there is none.

ghost use Rattle.std.specs.Prelude.{◌≡◌, ◌∷◌, IfOk, slice_index_or};
ghost use Rattle.sql_values.specs.declared.value.Value.TheVariants.{Null};
ghost use Rattle.row_types.specs.OuterRows.{outer_rows};
ghost use Rattle.rel_algebra.specs.Endings.{value_at};
ghost use Rattle.rel_algebra.specs.Plan.{cell_at, cells_row};

use row_types::{Cell, Outer, RowInSight, outer_cell};
use sql_values::{NoMemory, Value};
use std::alloc::Global;

/// The cell of a column; NULL where there is none.
#[tactic(auto, using(crate::proofs::Places::same_cell, crate::proofs::Places::same_row, std::proofs::lemmas::Grind::common_steps))]
pub fn column(
    alloc: Global,
    row: &RowInSight,
    outer: &Outer,
    level: usize,
    place: usize,
) -> Result<Cell, NoMemory>
    ensures { IfOk result (λ c. c ≡ cell_at (cells_row (row.now ∷ outer_rows outer.now) level)
        place) }
{
    if level == 0 {
        row.cell(alloc, place)
    } else {
        outer_cell(alloc, outer, level - 1, place)
    }
}

/// The value of an argument; NULL where there is none.
#[tactic(auto, using(crate::proofs::Places::same_value, std::proofs::lemmas::Grind::common_steps))]
pub fn argument(args: &[Value], place: usize) -> Result<Value, NoMemory>
    ensures { IfOk result (λ v. v ≡ value_at args.now place) }
{
    found(args, place)
}

// The value at a place, and NULL past the last.
fn found(args: &[Value], place: usize) -> Result<Value, NoMemory>
    ensures { IfOk result (λ v. v ≡ slice_index_or args.now place Null) }
{
    match args.get(place) {
        Some(value) => value.copied(),
        None => Ok(Value::Null),
    }
}

/// The cell at a place of a row; NULL where there is none.
#[tactic(auto, using(crate::proofs::Places::same_cell, std::proofs::lemmas::Grind::common_steps))]
pub fn own_cell(alloc: Global, row: &RowInSight, place: usize) -> Result<Cell, NoMemory>
    ensures { IfOk result (λ c. c ≡ cell_at row.now place) }
{
    row.cell(alloc, place)
}
