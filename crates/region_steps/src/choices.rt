//! Which of its operands a CASE is on a row, where its tests are decided in place.

ghost use Rattle.std.specs.Prelude.{◌≡◌, List, IfOk, IfSome};
ghost use Rattle.row_types.specs.declared.cell.Cell.{Cell as PlainCell};
ghost use Rattle.row_types.specs.OuterRows.{outer_rows};
ghost use Rattle.rel_algebra.specs.Plan.{case_cell, cell_of, cells_of};
ghost use Rattle.rel_algebra.specs.PlanView.{scalar_of, scalars_of};
ghost use Rattle.plan_scalars.specs.Sights.{sight_of};

use crate::truths::truth_in_place;
use plan_scalars::eval_on;
use rel_algebra::{ListWord, Scalar};
use row_types::{Cell, Outer, RowInSight};
use sql_values::{NoMemory, Value};
use std::alloc::Global;

// How many CASEs may stand in one another to be chosen of.
const MOST: usize = 8;

/// A scalar that has the same cell on this row, and is no CASE whose tests are decided in place,
/// but for one that stands deep in others.
pub fn chosen<'a>(scalar: &'a Scalar, row: &RowInSight, args: &[Value]) -> &'a Scalar
    ensures { (outer : List (List PlainCell)) →
        cell_of (scalar_of result.now) (sight_of row.now outer args.now)
        ≡ cell_of (scalar_of scalar.now) (sight_of row.now outer args.now) }
{
    let mut found = scalar;
    for _ in 0..MOST {
        match choice(found, row, args) {
            Some(next) => found = next,
            None => return found,
        }
    }
    found
}

// The operand that a CASE is on this row. `None` says nothing.
fn choice<'a>(scalar: &'a Scalar, row: &RowInSight, args: &[Value]) -> Option<&'a Scalar>
    ensures { IfSome result (λ x. (outer : List (List PlainCell)) →
        cell_of (scalar_of x.now) (sight_of row.now outer args.now)
        ≡ cell_of (scalar_of scalar.now) (sight_of row.now outer args.now)) }
{
    match scalar {
        Scalar::Listed(ListWord::Case, operands) => taken(operands.as_slice(), row, args),
        _ => None,
    }
}

// The same by the operands of the CASE: the result after the first test that is true, or the last.
fn taken<'a>(operands: &'a [Scalar], row: &RowInSight, args: &[Value]) -> Option<&'a Scalar>
    ensures { IfSome result (λ x. (outer : List (List PlainCell)) →
        cell_of (scalar_of x.now) (sight_of row.now outer args.now)
        ≡ case_cell (cells_of (scalars_of operands.now) (sight_of row.now outer args.now))) }
{
    let mut at = 0;
    while operands.len() - at >= 2 {
        if truth_in_place(&operands[at], row, args)? {
            return Some(&operands[at + 1]);
        }
        at += 2;
    }
    if at < operands.len() {
        return Some(&operands[at]);
    }
    None
}

/// The cell of a scalar on a row, under the rows outside it and the arguments. Of a CASE whose
/// tests are decided in place only the result is worked out.
pub fn cell_here(
    alloc: Global,
    scalar: &Scalar,
    row: &RowInSight,
    outer: &Outer,
    args: &[Value],
) -> Result<Cell, NoMemory>
    ensures { IfOk result (λ c. c ≡ cell_of (scalar_of scalar.now)
        (sight_of row.now (outer_rows outer.now) args.now)) }
{
    eval_on(alloc, chosen(scalar, row, args), row, outer, args)
}
