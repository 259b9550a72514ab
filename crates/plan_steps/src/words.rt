//! Scalars of steps: codes, tests of them, and CASE.

ghost use Rattle.std.specs.Prelude.{◌≡◌, ◌+◌, suc, IfOk};
ghost use Rattle.sql_values.specs.Values.{is_true as is_true_by};
ghost use Rattle.rel_algebra.specs.BodySteps as steps;
ghost use Rattle.rel_algebra.specs.BodySteps.{col, only};
ghost use Rattle.rel_algebra.specs.Plan.{on_condition, word};
ghost use Rattle.rel_algebra.specs.PlanView.{scalar_of};
ghost use Rattle.rel_algebra.specs.WordView.{condition_word};

use plan_expressions::{compare, one, two};
use rel_algebra::{ConditionWord, ListWord, Scalar};
use sql_values::{Comparison, NoMemory, Value};
use sqlite_items::Items;
use std::alloc::Global;

/// A code.
pub fn tag(code: usize) -> Result<Scalar, NoMemory>
    ensures { IfOk result (λ s. scalar_of s ≡ steps.tag code) }
{
    if code > 0x7fff_ffff_ffff_ffff {
        return Err(NoMemory);
    }
    Ok(Scalar::Constant(Value::Int(code as i64)))
}

/// The code after another.
pub fn after(code: usize) -> Result<usize, NoMemory>
    ensures { IfOk result (λ n. n ≡ suc code) }
{
    sum(1, code)
}

/// The sum of two numbers.
pub fn sum(first: usize, second: usize) -> Result<usize, NoMemory>
    ensures { IfOk result (λ n. n ≡ first + second) }
{
    match first.checked_add(second) {
        Some(number) => Ok(number),
        None => Err(NoMemory),
    }
}

/// CASE with one test.
pub fn case_of(
    alloc: Global,
    test: Scalar,
    taken: Scalar,
    otherwise: Scalar,
) -> Result<Scalar, NoMemory>
    ensures { IfOk result (λ s. scalar_of s ≡ steps.case_of (scalar_of test) (scalar_of taken)
        (scalar_of otherwise)) }
{
    let mut arms = two(alloc, test, taken)?;
    arms.push(otherwise)?;
    Ok(Scalar::Listed(ListWord::Case, arms))
}

/// Whether the row is at a code.
pub fn code_is(alloc: Global, code: usize) -> Result<Scalar, NoMemory>
    ensures { IfOk result (λ s. scalar_of s ≡ steps.code_is code) }
{
    let code = tag(code)?;
    compare(alloc, Comparison::Equals, Scalar::Column(0, 0), code)
}

// Whether a value is TRUE.
fn is_true(value: &Value) -> bool
    ensures { result ≡ is_true_by value.now }
{
    match value {
        Value::Bool(truth) => *truth,
        Value::Null => false,
        Value::Int(_) => false,
        Value::Str(_) => false,
    }
}

// Whether a scalar is TRUE itself. A chain without operators is its operand.
fn is_sure(scalar: &Scalar) -> bool
    ensures { result ≡ steps.is_sure (scalar_of scalar.now) }
{
    match scalar {
        Scalar::Constant(value) => is_true(value),
        Scalar::Chain(first, links) => {
            if links.is_empty() {
                is_sure(first.get())
            } else {
                false
            }
        }
        Scalar::Column(_, _) => false,
        Scalar::Argument(_) => false,
        Scalar::Unary(_, _) => false,
        Scalar::Compare(_, _, _) => false,
        Scalar::Listed(_, _) => false,
        Scalar::OnCondition(_, _) => false,
    }
}

/// Whether the row is at a code, and a scalar is true.
pub fn also(alloc: Global, code: usize, scalar: Scalar) -> Result<Scalar, NoMemory>
    ensures { IfOk result (λ s. scalar_of s ≡ steps.also code (scalar_of scalar)) }
{
    if is_sure(&scalar) {
        return code_is(alloc, code);
    }
    let at_code = code_is(alloc, code)?;
    let both = two(alloc, at_code, scalar)?;
    Ok(Scalar::Listed(ListWord::And, both))
}

/// A word over the cell of a column, which may be a condition.
pub fn on_column(alloc: Global, condition: ConditionWord, column: usize) -> Result<Scalar, NoMemory>
    ensures { IfOk result (λ s. scalar_of s ≡ word (on_condition (condition_word condition))
        (only (col column))) }
{
    Ok(Scalar::OnCondition(condition, one(alloc, Scalar::Column(0, column))?))
}
