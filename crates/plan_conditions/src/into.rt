//! What the rows of a query come to in SELECT INTO (ISO/IEC 9075-2, 14.7).

ghost use Rattle.std.specs.Prelude.{◌≡◌, ℕ, List, IfOk, replicate};
ghost use Rattle.sql_conditions.specs.Conditions.{area_of};
ghost use Rattle.row_types.specs.Cells.{PlanRow};
ghost use Rattle.row_types.specs.declared.cell.Cell.{Cell as PlainCell};
ghost use Rattle.row_types.specs.declared.cell.Cell.TheVariants.{Cond};
ghost use Rattle.rel_algebra.specs.Endings.{value_at};
ghost use Rattle.rel_algebra.specs.Joins.{places};
ghost use Rattle.rel_algebra.specs.Plan.{cells_at, collapse, collected, into, shown};
ghost use Rattle.rel_algebra.specs.Plan.{into_cells as into_cells_by};
ghost use Rattle.plan_conditions.specs.Into.{into_end};

use row_types::{Cell, Row, copied_area};
use sql_conditions::{Area, Condition, EngineCondition};
use sql_values::{NoMemory, Value};
use sqlite_items::Items;
use std::alloc::Global;

/// The cells of SELECT INTO of so many columns, by the rows of its query: the values of the one row,
/// NULL where it has fewer; in each cell 02000 where there is no row, and 21000 where there are
/// several.
pub fn into_cells(alloc: Global, columns: usize, rows: &Items<Row>) -> Result<Items<Cell>, NoMemory>
    ensures { IfOk result (λ cs. cs ≡ into_cells_by columns rows.now) }
{
    if rows.len() > 1 {
        return engine_cells(alloc, columns, EngineCondition::SeveralRows);
    }
    match rows.get(0) {
        Some(row) => row_cells(alloc, columns, row),
        None => engine_cells(alloc, columns, EngineCondition::NoData),
    }
}

/// The same where a row of the query has an area: it stands in each cell.
pub fn raised_cells(alloc: Global, columns: usize, area: &Area) -> Result<Items<Cell>, NoMemory>
    ensures { IfOk result (λ cs. cs ≡ replicate columns (Cond area.now)) }
{
    let mut cells = Items::from_vec(Vec::with_capacity(alloc, columns)?);
    for _ in 0..columns {
        cells.push(Cell::Cond(copied_area(alloc, area)?))?;
    }
    Ok(cells)
}

/// The two are what an Apply adds. The function does nothing; its contract is the law.
pub fn into_collapses()
    ensures { (n : ℕ) (c : PlainCell) (rows : List PlanRow) →
        collapse (into n) c rows ≡ into_end n (collected rows) }
{}

// A condition that the engine raises, in each of so many cells.
fn engine_cells(
    alloc: Global,
    columns: usize,
    engine: EngineCondition,
) -> Result<Items<Cell>, NoMemory>
    ensures { IfOk result (λ cs. cs ≡ replicate columns (Cond (area_of engine))) }
{
    raised_cells(alloc, columns, &Area::of(Condition::of(engine)))
}

// The first so many values of a row, and NULL past its last.
#[tactic(auto, using(crate::proofs::Places::row_more, std::proofs::lemmas::Grind::common_steps))]
fn row_cells(alloc: Global, columns: usize, row: &Row) -> Result<Items<Cell>, NoMemory>
    ensures { IfOk result (λ cs. cs ≡ cells_at (shown row.now) (places 0 columns)) }
{
    let mut cells = Items::from_vec(Vec::with_capacity(alloc, columns)?);
    for place in 0..columns {
        cells.push(Cell::Val(value_or_null(row, place)?))?;
    }
    Ok(cells)
}

// The value at a place, and NULL past the last.
#[tactic(auto, using(crate::proofs::Places::value_there, crate::proofs::Places::none_there, std::proofs::lemmas::Grind::common_steps))]
fn value_or_null(row: &Row, place: usize) -> Result<Value, NoMemory>
    ensures { IfOk result (λ v. v ≡ value_at row.now place) }
{
    match row.get(place) {
        Some(value) => Ok(value.copied()?),
        None => Ok(Value::Null),
    }
}
