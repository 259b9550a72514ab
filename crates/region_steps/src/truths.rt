//! Tests that are decided where their operands lie, without a copy.

ghost use Rattle.std.specs.Prelude.{◌≡◌, ◌∷◌, [], List, Some, IfSome};
ghost use Rattle.row_types.specs.declared.cell.Cell.{Cell as PlainCell};
ghost use Rattle.rel_algebra.specs.Endings.{op_value};
ghost use Rattle.rel_algebra.specs.OnConditions.{condition_cell, number_word};
ghost use Rattle.rel_algebra.specs.Plan.{cell_of, cells_of, strictly};
ghost use Rattle.rel_algebra.specs.PlanView.{scalar_of, scalars_of};
ghost use Rattle.rel_algebra.specs.Tree.{Comparing, NullTest};
ghost use Rattle.rel_algebra.specs.WordView.{condition_word};
ghost use Rattle.plan_scalars.specs.Sights.{sight_of};
ghost use Rattle.region_steps.specs.Truths.{truth_of};

use plan_rows::is_true;
use plan_scalars::value_in_place;
use rel_algebra::{ConditionWord, Scalar, UnaryWord};
use row_types::RowInSight;
use sql_values::{Comparison, Value};

/// Whether a test is TRUE on a row, where it is a value that is found without working out more than
/// a comparison. `None` says nothing of it.
pub fn truth_in_place(test: &Scalar, row: &RowInSight, args: &[Value]) -> Option<bool>
    ensures { IfSome result (λ b. (outer : List (List PlainCell)) →
        truth_of (cell_of (scalar_of test.now) (sight_of row.now outer args.now)) ≡ Some b) }
{
    match test {
        Scalar::Compare(comparison, left, right) => {
            compared_truth(*comparison, left.get(), right.get(), row, args)
        }
        Scalar::Unary(UnaryWord::NullTest, operand) => null_truth(operand.get(), row, args),
        _ => value_truth(test, row, args),
    }
}

// Whether a comparison is TRUE of two scalars, where both are values in place.
fn compared_truth(
    comparison: Comparison,
    left: &Scalar,
    right: &Scalar,
    row: &RowInSight,
    args: &[Value],
) -> Option<bool>
    ensures { IfSome result (λ b. (outer : List (List PlainCell)) →
        let here = sight_of row.now outer args.now in
        truth_of (strictly (op_value (Comparing comparison))
        (cell_of (scalar_of left.now) here ∷ cell_of (scalar_of right.now) here ∷ [])) ≡ Some b) }
{
    let x = value_in_place(left, row, args)?;
    let y = value_in_place(right, row, args)?;
    Some(is_true(&comparison.of(x, y)))
}

// Whether a scalar that is a value in place is NULL. The number of conditions of a value is.
fn null_truth(operand: &Scalar, row: &RowInSight, args: &[Value]) -> Option<bool>
    ensures { IfSome result (λ b. (outer : List (List PlainCell)) →
        truth_of (strictly (op_value NullTest)
        (cell_of (scalar_of operand.now) (sight_of row.now outer args.now) ∷ [])) ≡ Some b) }
{
    match operand {
        Scalar::OnCondition(word, operands) => numberless(word, operands.as_slice(), row, args),
        _ => Some(value_in_place(operand, row, args)?.is_null()),
    }
}

// That the number of conditions of a value in place is NULL. `None` says nothing.
fn numberless(
    word: &ConditionWord,
    operands: &[Scalar],
    row: &RowInSight,
    args: &[Value],
) -> Option<bool>
    ensures { IfSome result (λ b. (outer : List (List PlainCell)) →
        truth_of (strictly (op_value NullTest) (condition_cell (condition_word word.now)
        (cells_of (scalars_of operands.now) (sight_of row.now outer args.now)) ∷ [])) ≡ Some b) }
{
    match word {
        ConditionWord::Number => alone_numberless(operands, row, args),
        _ => None,
    }
}

// The same by the operands of the word.
fn alone_numberless(operands: &[Scalar], row: &RowInSight, args: &[Value]) -> Option<bool>
    ensures { IfSome result (λ b. (outer : List (List PlainCell)) →
        truth_of (strictly (op_value NullTest) (condition_cell number_word
        (cells_of (scalars_of operands.now) (sight_of row.now outer args.now)) ∷ [])) ≡ Some b) }
{
    match operands {
        [only] => {
            let _value = value_in_place(only, row, args)?;
            Some(true)
        }
        _ => None,
    }
}

// Whether a scalar that is a value in place is TRUE.
fn value_truth(test: &Scalar, row: &RowInSight, args: &[Value]) -> Option<bool>
    ensures { IfSome result (λ b. (outer : List (List PlainCell)) →
        truth_of (cell_of (scalar_of test.now) (sight_of row.now outer args.now)) ≡ Some b) }
{
    Some(is_true(value_in_place(test, row, args)?))
}
