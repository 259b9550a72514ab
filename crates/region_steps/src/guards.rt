//! Scalars that are a cell of the row but where the first cell is a certain number.

ghost use Rattle.std.specs.Prelude.{◌≡◌, ◌∷◌, [], false, Some, IfSome};
ghost use Rattle.sql_values.specs.declared.value.Value.TheVariants.{Int};
ghost use Rattle.sql_values.specs.declared.operators.Comparison.TheVariants.{Equals};
ghost use Rattle.row_types.specs.declared.cell.Cell.TheVariants.{Val};
ghost use Rattle.rel_algebra.specs.Endings.{op_value};
ghost use Rattle.rel_algebra.specs.Plan.{Sight, case_cell, cell_at, cell_of, cells_of, cells_row};
ghost use Rattle.rel_algebra.specs.Plan.{strictly};
ghost use Rattle.rel_algebra.specs.PlanView.{scalar_of, scalars_of};
ghost use Rattle.rel_algebra.specs.Tree.{Comparing};
ghost use Rattle.region_steps.specs.Idle.{IsGuarded, IsNotAt};
ghost use Rattle.region_steps.specs.Truths.{truth_of};

use rel_algebra::{ListWord, Scalar};
use sql_values::{Comparison, Value};

/// The number and the place of a scalar `case(eq(#0, number), .., #place)`. `None` says nothing.
pub(crate) fn guarded(scalar: &Scalar) -> Option<(i64, usize)>
    ensures { IfSome result (λ g. IsGuarded scalar.now g.0 g.1) }
{
    match scalar {
        Scalar::Listed(ListWord::Case, operands) => guarded_case(operands.as_slice()),
        _ => None,
    }
}

// The same by the operands of the CASE.
fn guarded_case(operands: &[Scalar]) -> Option<(i64, usize)>
    ensures { IfSome result (λ g. (s : Sight) → IsNotAt g.0 (cells_row s.rows 0) →
        case_cell (cells_of (scalars_of operands.now) s) ≡ cell_at (cells_row s.rows 0) g.1) }
{
    match operands {
        [test, _, last] => {
            let code = tested_code(test)?;
            let place = own_place(last)?;
            Some((code, place))
        }
        _ => None,
    }
}

// The number of a test `eq(#0, number)`, which is false at another number. `None` says nothing.
fn tested_code(test: &Scalar) -> Option<i64>
    ensures { IfSome result (λ code. (s : Sight) → IsNotAt code (cells_row s.rows 0) →
        truth_of (cell_of (scalar_of test.now) s) ≡ Some false) }
{
    match test {
        Scalar::Compare(Comparison::Equals, left, right) => equal_code(left.get(), right.get()),
        _ => None,
    }
}

// The same by the sides of the comparison.
fn equal_code(left: &Scalar, right: &Scalar) -> Option<i64>
    ensures { IfSome result (λ code. (s : Sight) → IsNotAt code (cells_row s.rows 0) →
        truth_of (strictly (op_value (Comparing Equals))
        (cell_of (scalar_of left.now) s ∷ cell_of (scalar_of right.now) s ∷ [])) ≡ Some false) }
{
    let place = own_place(left)?;
    if place > 0 {
        return None;
    }
    constant_number(right)
}

// The place of a column of the row itself. `None` says nothing.
fn own_place(scalar: &Scalar) -> Option<usize>
    ensures { IfSome result (λ place. (s : Sight) →
        cell_of (scalar_of scalar.now) s ≡ cell_at (cells_row s.rows 0) place) }
{
    match scalar {
        Scalar::Column(level, place) => {
            if *level > 0 {
                return None;
            }
            Some(*place)
        }
        _ => None,
    }
}

// The number that a scalar is. `None` says nothing.
fn constant_number(scalar: &Scalar) -> Option<i64>
    ensures { IfSome result (λ n. (s : Sight) → cell_of (scalar_of scalar.now) s ≡ Val (Int n)) }
{
    match scalar {
        Scalar::Constant(Value::Int(number)) => Some(*number),
        _ => None,
    }
}
