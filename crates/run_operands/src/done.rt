//! SET of what is there at once.

ghost use Rattle.std.specs.Prelude.{◌≡◌, true, false, Ok, IfSome};
ghost use Rattle.sql_values.specs.Casts.{assigned};
ghost use Rattle.run_operands.specs.AtOnce.{IsDone, IsSet, IsTaken};

use crate::values::at_once;
use bound_trees::{BoundExpr, BoundStmt, BoundTarget};
use run_expressions::RowsInSight;
use run_frames::Frame;
use sql_values::{SqlType, Value, assign};
use std::alloc::Global;

/// Does a SET (ISO/IEC 9075-4, 14.5) whose value is there at once and is taken by its variable.
/// Where it isn't such a statement it answers false, and nothing is done.
pub fn done_at_once(alloc: Global, stmt: &BoundStmt, frame: &mut Frame) -> bool
    ensures done { result ≡ true → IsDone stmt.now frame.old frame.new }
    ensures left { result ≡ false → frame.new ≡ frame.old }
{
    match stmt {
        BoundStmt::Set(target, expr) => set_at_once(alloc, target, expr, frame),
        _ => false,
    }
}

// The same, by the variable and the expression.
fn set_at_once(alloc: Global, target: &BoundTarget, expr: &BoundExpr, frame: &mut Frame) -> bool
    ensures done { result ≡ true → IsSet target.now expr.now frame.old frame.new }
    ensures left { result ≡ false → frame.new ≡ frame.old }
{
    match value_for(alloc, target.data_type, expr, frame) {
        Some(value) => {
            frame.set(target, value);
            frame.complete(0);
            true
        }
        None => false,
    }
}

// The value of an expression as a type takes it, where it is there at once and is taken.
fn value_for(alloc: Global, to: SqlType, expr: &BoundExpr, frame: &Frame) -> Option<Value>
    ensures { IfSome result (λ v. IsTaken to expr.now frame.now v) }
{
    match at_once(alloc, expr, &RowsInSight::NoRow, frame) {
        Some(Ok(value)) => taken(alloc, value, to),
        _ => None,
    }
}

// A value as a type takes it, where it does.
fn taken(alloc: Global, value: Value, to: SqlType) -> Option<Value>
    ensures { IfSome result (λ v. assigned to value ≡ Ok v) }
{
    match assign(alloc, value, to) {
        Ok(value) => Some(value),
        Err(_) => None,
    }
}
