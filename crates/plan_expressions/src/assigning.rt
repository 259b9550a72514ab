//! Arguments and results, assigned to their types (ISO/IEC 9075-2, 9.2).

ghost use Rattle.std.specs.Prelude.{◌≡◌, [], ◌∷◌, drop, IfOk};
ghost use Rattle.rel_algebra.specs.Emit.{assigning, assigning_first, may_refuse as may_refuse_by};
ghost use Rattle.rel_algebra.specs.PlanView.{scalar_of};

use crate::scalars::unary;
use rel_algebra::{Scalar, UnaryWord};
use sql_values::{NoMemory, SqlType};
use std::alloc::Global;

/// A scalar, assigned to a type. An INTEGER and a truth value are what they were.
pub fn assigned(alloc: Global, target: SqlType, scalar: Scalar) -> Result<Scalar, NoMemory>
    ensures { IfOk result (λ s. scalar_of s ≡ assigning target (scalar_of scalar)) }
{
    match target {
        SqlType::Varchar(_) => Ok(unary(alloc, UnaryWord::Assign(target), scalar)?),
        SqlType::Integer => Ok(scalar),
        SqlType::Boolean => Ok(scalar),
    }
}

/// A scalar, assigned to the type at a place; where there is none, the scalar itself.
pub fn assigned_at(
    alloc: Global,
    types: &[SqlType],
    place: usize,
    scalar: Scalar,
) -> Result<Scalar, NoMemory>
    ensures { IfOk result (λ s. scalar_of s ≡ assigning_first (drop place types.now)
        (scalar_of scalar)) }
{
    match types.get(place) {
        Some(target) => assigned(alloc, *target, scalar),
        None => Ok(scalar),
    }
}

/// Whether the type at a place may refuse a value.
pub fn may_refuse(types: &[SqlType], place: usize) -> bool
    ensures { result ≡ may_refuse_by (drop place types.now) }
{
    match types.get(place) {
        Some(target) => is_varchar(*target),
        None => false,
    }
}

// Whether a type has texts.
fn is_varchar(target: SqlType) -> bool
    ensures { result ≡ may_refuse_by (target ∷ []) }
{
    match target {
        SqlType::Varchar(_) => true,
        SqlType::Integer => false,
        SqlType::Boolean => false,
    }
}
