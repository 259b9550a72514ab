//! Words of expressions, over the scalars of their operands.

ghost use Rattle.std.specs.Prelude.{◌≡◌, true, length, IfOk};
ghost use Rattle.bound_trees.specs.Operands.{takes};
ghost use Rattle.rel_algebra.specs.Plan.{strict, word};
ghost use Rattle.rel_algebra.specs.PlanView.{scalar_of, scalars_of, unary_operation, list_word};
ghost use Rattle.rel_algebra.specs.Tree.{Comparing};
ghost use Rattle.plan_expressions.specs.Words.{word_of};

use crate::scalars::{compare, unary};
use bound_trees::BoundOperation;
use rel_algebra::{ListWord, Scalar, UnaryWord};
use sql_values::{Comparison, NoMemory};
use sqlite_items::Items;
use std::alloc::Global;

/// A word over as many scalars as it takes. Of CASE with an operand these are the arms, whose tests
/// are compared already.
pub fn word_over(
    alloc: Global,
    operation: BoundOperation,
    operands: Items<Scalar>,
) -> Result<Scalar, NoMemory>
    requires { takes operation (length operands) ≡ true }
    ensures { IfOk result (λ s. scalar_of s ≡ word (word_of operation) (scalars_of operands)) }
{
    match operation {
        BoundOperation::Negation => unary_over(alloc, UnaryWord::Negation, operands),
        BoundOperation::Opposite => unary_over(alloc, UnaryWord::Opposite, operands),
        BoundOperation::Comparing(comparison) => compare_over(alloc, comparison, operands),
        BoundOperation::NullTest => unary_over(alloc, UnaryWord::NullTest, operands),
        BoundOperation::TrueTest => unary_over(alloc, UnaryWord::TrueTest, operands),
        BoundOperation::FalseTest => unary_over(alloc, UnaryWord::FalseTest, operands),
        BoundOperation::CharLength => unary_over(alloc, UnaryWord::CharLength, operands),
        BoundOperation::Cast(target) => unary_over(alloc, UnaryWord::Cast(target), operands),
        BoundOperation::AnyOf => Ok(listed(ListWord::AnyOf, operands)),
        BoundOperation::Modulo => Ok(listed(ListWord::Modulo, operands)),
        BoundOperation::Substring => Ok(listed(ListWord::Substring, operands)),
        BoundOperation::And => Ok(listed(ListWord::And, operands)),
        BoundOperation::Or => Ok(listed(ListWord::Or, operands)),
        BoundOperation::Coalesce => Ok(listed(ListWord::Coalesce, operands)),
        BoundOperation::Case => Ok(listed(ListWord::Case, operands)),
        BoundOperation::CaseOf => Ok(listed(ListWord::Case, operands)),
    }
}

/// An operation on a list of operands.
pub fn listed(operation: ListWord, operands: Items<Scalar>) -> Scalar
    ensures { scalar_of result ≡ word (list_word operation) (scalars_of operands) }
{
    Scalar::Listed(operation, operands)
}

// An operation on the only one of some operands.
fn unary_over(
    alloc: Global,
    operation: UnaryWord,
    operands: Items<Scalar>,
) -> Result<Scalar, NoMemory>
    requires { length operands ≡ 1 }
    ensures { IfOk result (λ s. scalar_of s ≡ word (strict (unary_operation operation))
        (scalars_of operands)) }
{
    let mut left = operands;
    match left.pop() {
        Some(operand) => Ok(unary(alloc, operation, operand)?),
        None => unreachable!(),
    }
}

// A comparison of the only two of some operands.
fn compare_over(
    alloc: Global,
    comparison: Comparison,
    operands: Items<Scalar>,
) -> Result<Scalar, NoMemory>
    requires { length operands ≡ 2 }
    ensures { IfOk result (λ s. scalar_of s ≡ word (strict (Comparing comparison))
        (scalars_of operands)) }
{
    let mut left = operands;
    let Some(second) = left.pop() else {
        unreachable!();
    };
    match left.pop() {
        Some(first) => Ok(compare(alloc, comparison, first, second)?),
        None => unreachable!(),
    }
}
