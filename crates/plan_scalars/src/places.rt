//! Scalars that are values where they lie, and need no copy.

ghost use Rattle.std.specs.Prelude.{◌≡◌, [], ◌∷◌, List, IfOk, IfSome, Ok, false};
ghost use Rattle.sql_values.specs.declared.value.Value.TheVariants.{Bool as TruthValue};
ghost use Rattle.sql_values.specs.Values.{UnlessNoMemory};
ghost use Rattle.row_types.specs.declared.cell.Cell.{Cell as PlainCell};
ghost use Rattle.row_types.specs.declared.cell.Cell.TheVariants.{Val};
ghost use Rattle.rel_algebra.specs.Endings.{after, among, cell_end, ending_of, op_value};
ghost use Rattle.rel_algebra.specs.Tree.{AnyOf, Arithmetic, Comparing};
ghost use Rattle.rel_algebra.specs.Plan.{cell_of, cells_of, strictly, values_of};
ghost use Rattle.rel_algebra.specs.PlanView.{scalar_of, scalars_of, unary_operation};
ghost use Rattle.plan_scalars.specs.Among.{IsEqualTo};
ghost use Rattle.plan_scalars.specs.Sights.{sight_of};

use plan_rows::unary_value;
use rel_algebra::{Scalar, ScalarLink, UnaryWord};
use row_types::{Cell, RowInSight};
use sql_values::{Comparison, NoMemory, Value, ValueFault};
use std::alloc::Global;
use three_valued::{Truth, or};

/// The value that a scalar is, where it lies: a constant, a column of the row itself, or an
/// argument. `None` says nothing of the scalar.
pub fn value_in_place<'a>(
    scalar: &'a Scalar,
    row: &RowInSight<'a>,
    args: &'a [Value],
) -> Option<&'a Value>
    ensures { IfSome result (λ v. (outer : List (List PlainCell)) →
        cell_of (scalar_of scalar.now) (sight_of row.now outer args.now) ≡ Val v.now) }
{
    match scalar {
        Scalar::Constant(value) => Some(value),
        Scalar::Column(level, place) => { if *level == 0 { row.value(*place) } else { None } }
        Scalar::Argument(place) => {
            if *place < args.len() {
                Some(&args[*place])
            } else {
                None
            }
        }
        _ => None,
    }
}

/// An operator between a value and its right operand, where this is a value that lies in place.
/// `None` says nothing of the operand.
pub fn applied_in_place(
    alloc: Global,
    link: &ScalarLink,
    left: &Value,
    row: &RowInSight,
    args: &[Value],
) -> Option<Result<Value, ValueFault>>
    ensures { IfSome result (λ o. (outer : List (List PlainCell)) →
        UnlessNoMemory o (cell_end (ending_of o)
        ≡ strictly (op_value (Arithmetic link.now.operator)) (Val left.now ∷ cell_of (scalar_of link.now.operand) (sight_of row.now outer args.now) ∷ []))) }
{
    let right = value_in_place(&link.operand, row, args)?;
    Some(link.operator.apply(alloc, left, right))
}

/// An operation on a scalar that is a value in place. `None` says nothing of it.
pub fn unary_in_place(
    alloc: Global,
    word: UnaryWord,
    operand: &Scalar,
    row: &RowInSight,
    args: &[Value],
) -> Option<Result<Cell, NoMemory>>
    ensures { IfSome result (λ o. (outer : List (List PlainCell)) →
        IfOk o (λ c. c ≡ strictly (op_value (unary_operation word)) (cell_of (scalar_of operand.now) (sight_of row.now outer args.now) ∷ []))) }
{
    let value = value_in_place(operand, row, args)?;
    Some(unary_value(alloc, word, value))
}

/// The comparison of two scalars that are values in place; nothing is copied. `None` says nothing
/// of them.
pub fn compared_in_place(
    comparison: Comparison,
    left: &Scalar,
    right: &Scalar,
    row: &RowInSight,
    args: &[Value],
) -> Option<Value>
    ensures { IfSome result (λ v. (outer : List (List PlainCell)) →
        let here = sight_of row.now outer args.now in
        Val v ≡ strictly (op_value (Comparing comparison)) (cell_of (scalar_of left.now) here ∷ cell_of (scalar_of right.now) here ∷ [])) }
{
    let x = value_in_place(left, row, args)?;
    let y = value_in_place(right, row, args)?;
    Some(comparison.of(x, y))
}

/// The first scalar among the others, where all are values in place; nothing is copied. `None` says
/// nothing of them.
pub fn among_in_place(operands: &[Scalar], row: &RowInSight, args: &[Value]) -> Option<Value>
    ensures { IfSome result (λ v. (outer : List (List PlainCell)) →
        Val v ≡ strictly (op_value AnyOf) (cells_of (scalars_of operands.now) (sight_of row.now outer args.now))) }
{
    match operands {
        [first, list @ ..] => {
            let value = value_in_place(first, row, args)?;
            among_these(value, list, row, args)
        }
        [] => Some(Value::Null),
    }
}

// A value among scalars that are values in place.
fn among_these(value: &Value, list: &[Scalar], row: &RowInSight, args: &[Value]) -> Option<Value>
    ensures { IfSome result (λ v. (outer : List (List PlainCell)) →
        Ok v ≡ after (values_of (cells_of (scalars_of list.now) (sight_of row.now outer args.now))) (λ vs. Ok (among (TruthValue false) value.now vs))) }
{
    let mut so_far = Truth::False;
    for item in list {
        so_far = or(so_far, equal_in_place(value, item, row, args)?);
    }
    Some(so_far.to_value())
}

// Whether a value equals a scalar that is a value in place. `None` says nothing of it.
fn equal_in_place(value: &Value, item: &Scalar, row: &RowInSight, args: &[Value]) -> Option<Truth>
    ensures { IfSome result (λ t. (outer : List (List PlainCell)) →
        IsEqualTo t value.now (cell_of (scalar_of item.now) (sight_of row.now outer args.now))) }
{
    let found = value_in_place(item, row, args)?;
    Some(Truth::of_value(&Comparison::Equals.of(value, found)))
}
