//! Which condition of a list of rows is the first: rows in their order, and cells from left to
//! right.

ghost use Rattle.std.specs.Prelude.{◌≡◌, ◌+◌, ◌≤◌, ◌++◌, [], ◌∷◌, length, map, true, IfOk};
ghost use Rattle.row_types.specs.declared.cell.Cell.TheVariants.{Val};
ghost use Rattle.rel_algebra.specs.Plan.{collected};
ghost use Rattle.plan_rows.specs.Firsts.{is_value, values_end};

use row_types::{Cell, Row, RowEnd, RowList, Steps};
use sql_conditions::Area;
use sql_values::{NoMemory, Value};
use sqlite_items::Items;
use std::alloc::Global;
use std::sync::ledger::Ledger;

/// What the rows of a plan come to, as rows of values.
#[derive(Drop)]
pub enum Values {
    /// The values of the rows.
    Rows(Items<Row>),
    /// The first area.
    Raised(Area),
}

/// The values of the rows, where none of them has an area, and else the first area. A row that was
/// made of values is handed on as it lies. Each row that is taken is a step.
pub fn collect_values<L: Ledger>(
    alloc: Global,
    rows: RowList,
    steps: &mut Steps<L>,
) -> Result<Values, NoMemory>
    ensures values { IfOk result (λ v. values_end v ≡ collected rows) }
    ensures work { steps.new ≤ steps.old + length rows }
{
    let mut left = rows;
    let mut values = Items::from_vec(Vec::with_capacity(alloc, left.len())?);
    while left.len() > 0 {
        if let Some(row) = left.take_first(steps) {
            match row.into_end(alloc)? {
                RowEnd::Values(row) => values.push(row)?,
                RowEnd::Raised(area) => return Ok(Values::Raised(area.into_inner())),
            }
        }
    }
    Ok(Values::Rows(values))
}

/// Takes the value of a cell after others. `false` exactly where the cell is a condition, which no
/// value stands for.
pub fn take_value(values: &mut Vec<Value>, cell: Cell) -> Result<bool, NoMemory>
    ensures value { IfOk result (λ taken. taken ≡ is_value cell) }
    ensures values { IfOk result (λ taken. taken ≡ true →
        map Val values.new.items ≡ map Val values.old.items ++ cell ∷ []) }
{
    match cell {
        Cell::Val(value) => {
            values.push(value)?;
            Ok(true)
        }
        Cell::Cond(_) => Ok(false),
    }
}
