//! Words over scalars.

ghost use Rattle.std.specs.Prelude.{◌≡◌, [], ◌∷◌, reverse, IfOk};
ghost use Rattle.rel_algebra.specs.Tree.{Comparing};
ghost use Rattle.rel_algebra.specs.Plan.{strict, word, more, none};
ghost use Rattle.rel_algebra.specs.PlanView.{scalar_of, scalars_of, unary_operation};
ghost use Rattle.plan_expressions.specs.Emission.{guarded, tested, value_check};

use rel_algebra::{ListWord, Scalar, UnaryWord};
use sql_values::{Comparison, NoMemory, Value};
use sqlite_items::{Boxed, Items};
use std::alloc::Global;

/// An operation on one operand.
pub fn unary(alloc: Global, operation: UnaryWord, operand: Scalar) -> Result<Scalar, NoMemory>
    ensures { IfOk result (λ s. scalar_of s ≡ word (strict (unary_operation operation))
        (more (scalar_of operand) none)) }
{
    Ok(Scalar::Unary(operation, Boxed::new(alloc, operand)?))
}

/// A comparison.
pub fn compare(
    alloc: Global,
    comparison: Comparison,
    left: Scalar,
    right: Scalar,
) -> Result<Scalar, NoMemory>
    ensures { IfOk result (λ s. scalar_of s ≡ word (strict (Comparing comparison))
        (more (scalar_of left) (more (scalar_of right) none))) }
{
    let left = Boxed::new(alloc, left)?;
    let right = Boxed::new(alloc, right)?;
    Ok(Scalar::Compare(comparison, left, right))
}

/// One scalar.
pub fn one(alloc: Global, scalar: Scalar) -> Result<Items<Scalar>, NoMemory>
    ensures { IfOk result (λ ss. ss ≡ scalar ∷ []) }
{
    let mut scalars = Items::from_vec(Vec::with_capacity(alloc, 1)?);
    scalars.push(scalar)?;
    Ok(scalars)
}

/// Two scalars.
pub fn two(alloc: Global, first: Scalar, second: Scalar) -> Result<Items<Scalar>, NoMemory>
    ensures { IfOk result (λ ss. ss ≡ first ∷ second ∷ []) }
{
    let mut scalars = Items::from_vec(Vec::with_capacity(alloc, 2)?);
    scalars.push(first)?;
    scalars.push(second)?;
    Ok(scalars)
}

/// TRUE where a column is a value; where it is a condition, that condition.
pub fn check(alloc: Global, place: usize) -> Result<Scalar, NoMemory>
    ensures { IfOk result (λ s. scalar_of s ≡ value_check place) }
{
    check_of(alloc, Scalar::Column(0, place))
}

/// TRUE where a scalar is a value; where it is a condition, that condition.
pub fn check_of(alloc: Global, scalar: Scalar) -> Result<Scalar, NoMemory>
    ensures { IfOk result (λ s. scalar_of s ≡ tested (scalar_of scalar)) }
{
    let null_test = unary(alloc, UnaryWord::NullTest, scalar)?;
    let operands = two(alloc, null_test, Scalar::Constant(Value::Bool(true)))?;
    Ok(Scalar::Listed(ListWord::Or, operands))
}

/// The scalar, where all checks are TRUE; without checks the scalar itself.
pub fn guard(alloc: Global, checks: Items<Scalar>, scalar: Scalar) -> Result<Scalar, NoMemory>
    ensures { IfOk result (λ s. scalar_of s ≡ guarded (scalars_of checks) (scalar_of scalar)) }
{
    if checks.is_empty() {
        return Ok(scalar);
    }
    let arms = two(alloc, Scalar::Listed(ListWord::And, checks), scalar)?;
    Ok(Scalar::Listed(ListWord::Case, arms))
}

/// Scalars from the last to the first.
pub fn turned_scalars(alloc: Global, scalars: Items<Scalar>) -> Result<Items<Scalar>, NoMemory>
    ensures { IfOk result (λ turned. turned ≡ reverse scalars) }
{
    let mut left = scalars;
    let mut turned = Items::from_vec(Vec::with_capacity(alloc, left.len())?);
    while let Some(scalar) = left.pop() {
        turned.push(scalar)?;
    }
    Ok(turned)
}
