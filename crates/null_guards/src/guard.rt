//! The CASE of a bound expression.

ghost use Rattle.std.specs.Prelude.{◌≡◌, IfOk};
ghost use Rattle.null_guards.specs.Guards as spec;

use bound_trees::{BoundExpr, BoundOperation};
use sql_values::{NoMemory, Value};
use sqlite_items::Items;
use std::alloc::Global;
use std::mem::drop;

// IS NULL of a parameter.
fn null_test(alloc: Global, place: usize) -> Result<BoundExpr, NoMemory>
    ensures { IfOk result (λ e. e ≡ spec.null_test place) }
{
    let mut operands = Items::new(alloc);
    operands.push(BoundExpr::Variable(place))?;
    Ok(BoundExpr::Operation(BoundOperation::NullTest, operands))
}

// IS NULL of so many parameters.
fn null_tests(alloc: Global, count: usize) -> Result<Items<BoundExpr>, NoMemory>
    ensures { IfOk result (λ es. es ≡ spec.null_tests 0 count) }
{
    let mut tests = Items::new(alloc);
    for place in 0..count {
        tests.push(null_test(alloc, place)?)?;
    }
    Ok(tests)
}

// Whether one of so many parameters is NULL, and NULL.
fn guard(alloc: Global, count: usize) -> Result<Items<BoundExpr>, NoMemory>
    ensures { IfOk result (λ es. es ≡ spec.guard count) }
{
    let tests = null_tests(alloc, count)?;
    let mut arms = Items::new(alloc);
    arms.push(BoundExpr::Operation(BoundOperation::Or, tests))?;
    arms.push(BoundExpr::Literal(Value::Null))?;
    Ok(arms)
}

// CASE with a last result. `drop` lets go of the arms in a call.
fn case_of(arms: Items<BoundExpr>, last: BoundExpr) -> Result<BoundExpr, NoMemory>
    ensures { IfOk result (λ e. e ≡ spec.case_of arms last) }
{
    let mut arms = arms;
    match arms.push(last) {
        Ok(()) => Ok(BoundExpr::Operation(BoundOperation::Case, arms)),
        Err(_) => {
            drop(arms);
            Err(NoMemory)
        }
    }
}

/// An expression that is NULL where one of so many parameters is. `drop` lets go of the expression
/// in a call.
pub fn guarded(alloc: Global, count: usize, body: BoundExpr) -> Result<BoundExpr, NoMemory>
    ensures { IfOk result (λ e. e ≡ spec.guarded count body) }
{
    if count == 0 {
        return Ok(body);
    }
    match guard(alloc, count) {
        Ok(arms) => case_of(arms, body),
        Err(NoMemory) => {
            drop(body);
            Err(NoMemory)
        }
    }
}
