//! The rows of lists of scalars. They are worked out straight into their own memory.

ghost use Rattle.std.specs.Prelude.{◌≡◌, [], map, IfOk, IfSome};
ghost use Rattle.row_types.specs.declared.cell.Cell.TheVariants.{Val};
ghost use Rattle.row_types.specs.Cells.{Whole};
ghost use Rattle.row_types.specs.OuterRows.{outer_rows};
ghost use Rattle.rel_algebra.specs.Plan.{cells_of, list_rows};
ghost use Rattle.rel_algebra.specs.PlanView.{lists_of, scalars_of};
ghost use Rattle.plan_scalars.specs.Sights.{sight_of};

use plan_scalars::{eval_on, value_in_place};
use rel_algebra::{Scalar, ScalarRow};
use row_types::{Cell, Outer, PlanRow, Row, RowInSight, RowList};
use sql_values::{NoMemory, Value};
use sqlite_items::Items;
use std::alloc::Global;

/// The rows of lists of scalars, one for each list.
pub fn listed(
    alloc: Global,
    lists: &[ScalarRow],
    outer: &Outer,
    args: &[Value],
) -> Result<RowList, NoMemory>
    ensures { IfOk result (λ rows. rows ≡ list_rows (lists_of lists.now)
        (sight_of [] (outer_rows outer.now) args.now)) }
{
    let mut rows = RowList::with_capacity(alloc, lists.len())?;
    for list in lists {
        rows.push(listed_row(alloc, list.scalars.as_slice(), outer, args)?)?;
    }
    Ok(rows)
}

// The row of a list of scalars.
fn listed_row(
    alloc: Global,
    scalars: &[Scalar],
    outer: &Outer,
    args: &[Value],
) -> Result<PlanRow, NoMemory>
    ensures { IfOk result (λ r. r ≡ Whole (cells_of (scalars_of scalars.now)
        (sight_of [] (outer_rows outer.now) args.now))) }
{
    match listed_values(alloc, scalars, outer, args)? {
        Some(values) => Ok(PlanRow::of_values(values)),
        None => Ok(PlanRow::of_cells(listed_cells(alloc, scalars, outer, args)?)),
    }
}

// The values of scalars, where each of their cells is one. `None` says nothing.
fn listed_values(
    alloc: Global,
    scalars: &[Scalar],
    outer: &Outer,
    args: &[Value],
) -> Result<Option<Row>, NoMemory>
    ensures { IfOk result (λ o. IfSome o (λ values. map Val values ≡ cells_of
        (scalars_of scalars.now) (sight_of [] (outer_rows outer.now) args.now))) }
{
    let row = RowInSight::of(&[], &[]);
    let mut values = Items::from_vec(Vec::with_capacity(alloc, scalars.len())?);
    for scalar in scalars {
        match value_in_place(scalar, &row, args) {
            Some(value) => values.push(value.copied()?)?,
            None => match eval_on(alloc, scalar, &row, outer, args)? {
                Cell::Val(value) => values.push(value)?,
                Cell::Cond(_) => return Ok(None),
            },
        }
    }
    Ok(Some(values))
}

// The cells of scalars.
fn listed_cells(
    alloc: Global,
    scalars: &[Scalar],
    outer: &Outer,
    args: &[Value],
) -> Result<Items<Cell>, NoMemory>
    ensures { IfOk result (λ cells. cells ≡ cells_of (scalars_of scalars.now)
        (sight_of [] (outer_rows outer.now) args.now)) }
{
    let row = RowInSight::of(&[], &[]);
    let mut cells = Items::from_vec(Vec::with_capacity(alloc, scalars.len())?);
    for scalar in scalars {
        cells.push(eval_on(alloc, scalar, &row, outer, args)?)?;
    }
    Ok(cells)
}
