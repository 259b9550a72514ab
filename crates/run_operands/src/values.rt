//! What has its value at once.

ghost use Rattle.std.specs.Prelude.{◌≡◌, ◌∷◌, [], Ok, IfSome};
ghost use Rattle.std.specs.Option.{option_map};
ghost use Rattle.sql_values.specs.Operators.{applied};
ghost use Rattle.bound_trees.specs.declared.expr.BoundOperation.TheVariants.{Comparing, NullTest};
ghost use Rattle.bound_trees.specs.declared.expr.BoundOperation.TheVariants.{Opposite};
ghost use Rattle.rel_algebra.specs.World.{give, outcome};
ghost use Rattle.run_choices.specs.Ending.{TellsAnywhere};
ghost use Rattle.run_choices.specs.Sight.{seen};
ghost use Rattle.run_operands.specs.AtOnce.{ChainEndsAs, EndsAs, WordGives};

use crate::there::value_there;
use bound_trees::{BoundExpr, BoundLink, BoundOperation};
use run_choices::opposite;
use run_expressions::{Frame, RowsInSight, Stop};
use sql_values::{Comparison, Operator, Value};
use std::alloc::Global;

/// What an expression gives whose operands are literals, columns and variables (ISO/IEC 9075-2,
/// 6.25): such an operand itself, a comparison (8.2), NOT (6.39) or IS NULL (8.8) of such, and one
/// operator between two (6.27, 6.29). `None` says nothing of the expression.
pub fn at_once(
    alloc: Global,
    expr: &BoundExpr,
    rows: &RowsInSight,
    frame: &Frame,
) -> Option<Result<Value, Stop>>
    ensures { IfSome result (λ answer. EndsAs expr.now (seen rows.now) frame.now answer) }
{
    match expr {
        BoundExpr::Operation(operation, operands) => {
            given(word(*operation, operands.as_slice(), rows, frame))
        }
        BoundExpr::Chain(first, links) => {
            chain(alloc, first.get(), links.as_slice(), rows, frame)
        }
        _ => match value_there(expr, rows, frame) {
            Some(value) => Some(copied(value)),
            None => None,
        },
    }
}

// A value that is given, where there is one.
fn given(value: Option<Value>) -> Option<Result<Value, Stop>>
    ensures { result ≡ option_map Ok value }
{
    match value {
        Some(value) => Some(Ok(value)),
        None => None,
    }
}

// A value once more.
fn copied(value: &Value) -> Result<Value, Stop>
    ensures { TellsAnywhere result (give value.now) }
{
    Ok(value.copied()?)
}

// What a word gives of such operands, where it is a comparison, NOT or IS NULL.
fn word(
    operation: BoundOperation,
    operands: &[BoundExpr],
    rows: &RowsInSight,
    frame: &Frame,
) -> Option<Value>
    ensures { IfSome result (λ v. WordGives operation operands.now (seen rows.now) frame.now v) }
{
    match operation {
        BoundOperation::Comparing(comparison) => match operands {
            [left, right] => compared(comparison, left, right, rows, frame),
            _ => None,
        },
        BoundOperation::Opposite => match operands {
            [operand] => turned(operand, rows, frame),
            _ => None,
        },
        BoundOperation::NullTest => match operands {
            [operand] => is_null(operand, rows, frame),
            _ => None,
        },
        _ => None,
    }
}

// A comparison of two operands.
fn compared(
    comparison: Comparison,
    left: &BoundExpr,
    right: &BoundExpr,
    rows: &RowsInSight,
    frame: &Frame,
) -> Option<Value>
    ensures { IfSome result (λ v. WordGives (Comparing comparison) (left.now ∷ right.now ∷ [])
        (seen rows.now) frame.now v) }
{
    match (
        value_there(left, rows, frame),
        value_there(right, rows, frame),
    ) {
        (Some(left), Some(right)) => Some(comparison.of(left, right)),
        _ => None,
    }
}

// NOT of an operand.
fn turned(operand: &BoundExpr, rows: &RowsInSight, frame: &Frame) -> Option<Value>
    ensures { IfSome result (λ v. WordGives Opposite (operand.now ∷ []) (seen rows.now)
        frame.now v) }
{
    match value_there(operand, rows, frame) {
        Some(value) => Some(opposite(value)),
        None => None,
    }
}

// IS NULL of an operand.
fn is_null(operand: &BoundExpr, rows: &RowsInSight, frame: &Frame) -> Option<Value>
    ensures { IfSome result (λ v. WordGives NullTest (operand.now ∷ []) (seen rows.now)
        frame.now v) }
{
    match value_there(operand, rows, frame) {
        Some(value) => Some(Value::Bool(value.is_null())),
        None => None,
    }
}

// What a chain of one operator gives of such operands.
fn chain(
    alloc: Global,
    first: &BoundExpr,
    links: &[BoundLink],
    rows: &RowsInSight,
    frame: &Frame,
) -> Option<Result<Value, Stop>>
    ensures { IfSome result (λ answer. ChainEndsAs first.now links.now (seen rows.now) frame.now
        answer) }
{
    match links {
        [link] => match (
            value_there(first, rows, frame),
            value_there(&link.operand, rows, frame),
        ) {
            (Some(left), Some(right)) => Some(operated(alloc, link.operator, left, right)),
            _ => None,
        },
        _ => None,
    }
}

// What an operator gives of two values.
fn operated(alloc: Global, operator: Operator, left: &Value, right: &Value) -> Result<Value, Stop>
    ensures { TellsAnywhere result (outcome (applied operator left.now right.now)) }
{
    Ok(operator.apply(alloc, left, right)?)
}
