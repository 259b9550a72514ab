//! Queries inside expressions.

ghost use Rattle.std.specs.Prelude.{◌≡◌, [], ◌∷◌, None, IfOk};
ghost use Rattle.rel_algebra.specs.Emit.{checks_of, if_all, first_value as first_value_by};
ghost use Rattle.rel_algebra.specs.Emit.{row_stands as row_stands_by, if_values};
ghost use Rattle.rel_algebra.specs.PlanView.{scalar_of, scalars_of, tree_of};
ghost use Rattle.plan_expressions.specs.Asking.{asked_by, answered_by};
ghost use Rattle.plan_expressions.specs.Drafts.{drafted};
ghost use Rattle.plan_expressions.specs.Emission.{Emits};

use crate::copied::copied_scalar;
use crate::draft::Draft;
use crate::scalars::{check, check_of, guard, one, turned_scalars, two};
use rel_algebra::{ApplyKind, ListWord, Plan, Scalar};
use sql_values::{NoMemory, Value};
use sqlite_items::Items;
use std::alloc::Global;

/// What a query inside an expression is asked for.
#[derive(Drop)]
pub enum Asked {
    /// The value of its one row (ISO/IEC 9075-2, 7.19).
    Single,
    /// Whether it has a row (8.10).
    Exists,
    /// Whether the value of a scalar is in its column (8.4).
    Member(Scalar),
}

/// Puts an Apply of a query's plan over a plan in the making, and gives the column of its answer.
pub fn ask(asked: Asked, inner: Plan, draft: &mut Draft) -> Result<Scalar, NoMemory>
    ensures { IfOk result (λ s. Emits draft.old draft.new (scalar_of s)
        (asked_by asked None (tree_of inner) (drafted draft.old).width)) }
{
    let column = draft.columns();
    let kind = match asked {
        Asked::Single => ApplyKind::Single,
        Asked::Exists => ApplyKind::Exists,
        Asked::Member(scalar) => ApplyKind::Member(scalar),
    };
    draft.apply(Scalar::Constant(Value::Bool(true)), kind, inner)?;
    Ok(Scalar::Column(0, column))
}

/// What is asked of a query that is folded, by the scalars of its list. The cell of its first
/// aggregate stands in a column, and where it is a condition, that is the answer.
pub fn answered(
    alloc: Global,
    asked: Asked,
    column: usize,
    list: Items<Scalar>,
) -> Result<Scalar, NoMemory>
    ensures { IfOk result (λ s. scalar_of s ≡ answered_by asked column (scalars_of list)) }
{
    match asked {
        Asked::Single => {
            let value = first_value(alloc, list)?;
            where_value(alloc, column, value)
        }
        Asked::Exists => {
            let stands = row_stands(alloc, list)?;
            where_value(alloc, column, stands)
        }
        Asked::Member(scalar) => {
            let value = first_value(alloc, list)?;
            let found = where_value(alloc, column, value)?;
            Ok(Scalar::Listed(ListWord::AnyOf, two(alloc, scalar, found)?))
        }
    }
}

// A scalar, where a column is a value.
fn where_value(alloc: Global, column: usize, scalar: Scalar) -> Result<Scalar, NoMemory>
    ensures { IfOk result (λ s. scalar_of s ≡ if_values (column ∷ []) (scalar_of scalar)) }
{
    let checks = one(alloc, check(alloc, column)?)?;
    Ok(guard(alloc, checks, scalar)?)
}

// The first of the scalars of a list, where all are values.
fn first_value(alloc: Global, list: Items<Scalar>) -> Result<Scalar, NoMemory>
    ensures { IfOk result (λ s. scalar_of s ≡ first_value_by (scalars_of list)) }
{
    let first = match list.get(0) {
        Some(scalar) => copied_scalar(alloc, scalar)?,
        None => return Ok(Scalar::Constant(Value::Null)),
    };
    if list.len() == 1 {
        return Ok(first);
    }
    where_all(alloc, list, first)
}

// TRUE, where the scalars of a list are values.
fn row_stands(alloc: Global, list: Items<Scalar>) -> Result<Scalar, NoMemory>
    ensures { IfOk result (λ s. scalar_of s ≡ row_stands_by (scalars_of list)) }
{
    where_all(alloc, list, Scalar::Constant(Value::Bool(true)))
}

// A scalar, where all of others are values; else the condition of the first that is none.
fn where_all(alloc: Global, list: Items<Scalar>, scalar: Scalar) -> Result<Scalar, NoMemory>
    ensures { IfOk result (λ s. scalar_of s ≡ if_all (scalars_of list) (scalar_of scalar)) }
{
    let checks = value_checks(alloc, list)?;
    let arms = two(alloc, Scalar::Listed(ListWord::And, checks), scalar)?;
    Ok(Scalar::Listed(ListWord::Case, arms))
}

// For each scalar TRUE where it is a value; where it is a condition, that condition.
fn value_checks(alloc: Global, list: Items<Scalar>) -> Result<Items<Scalar>, NoMemory>
    ensures { IfOk result (λ ss. scalars_of ss ≡ checks_of (scalars_of list)) }
{
    let mut checks = Items::from_vec(Vec::with_capacity(alloc, list.len())?);
    let mut left = turned_scalars(alloc, list)?;
    while let Some(scalar) = left.pop() {
        checks.push(check_of(alloc, scalar)?)?;
    }
    Ok(checks)
}
