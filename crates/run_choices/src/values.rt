//! Values, and what is decided by them.

ghost use Rattle.std.specs.Prelude.{◌≡◌, [], ◌∷◌, Ok, false, IfOk, drop, slice_index_or};
ghost use Rattle.std.specs.Option.{option_copied};
ghost use Rattle.sql_values.specs.declared.value.Value.TheVariants.{Null};
ghost use Rattle.sql_values.specs.declared.value.Value.TheVariants.{Bool as Truth};
ghost use Rattle.sql_values.specs.Values.{UnlessNoMemory, is_true as is_true_by};
ghost use Rattle.rel_algebra.specs.Tree.{Opposite};
ghost use Rattle.rel_algebra.specs.Endings.{op_value, is_false as is_false_by, among as among_by};
ghost use Rattle.rel_algebra.specs.Meaning.{assigned_first};
ghost use Rattle.run_choices.specs.Words.{passes_by};

use sql_values::{Comparison, NoMemory, SqlType, Value, ValueFault, assign};
use std::alloc::Global;

/// The value at a place; NULL where there is none.
pub fn value_at(values: &[Value], place: usize) -> Result<Value, NoMemory>
    ensures { IfOk result (λ v. v ≡ slice_index_or values.now place Null) }
{
    match values.get(place) {
        Some(value) => value.copied(),
        None => Ok(Value::Null),
    }
}

/// The value that the parameter at a place takes; without a parameter there the value itself.
pub fn assign_at(
    alloc: Global,
    value: Value,
    types: &[SqlType],
    place: usize,
) -> Result<Value, ValueFault>
    ensures { UnlessNoMemory result (result ≡ assigned_first (drop place types.now) value) }
{
    match types.get(place) {
        Some(target) => assign(alloc, value, *target),
        None => Ok(value),
    }
}

/// Whether a truth value is TRUE.
pub fn is_true(value: &Value) -> bool
    ensures { result ≡ is_true_by value.now }
{
    match value {
        Value::Bool(truth) => *truth,
        _ => false,
    }
}

/// Whether a truth value is FALSE.
pub fn is_false(value: &Value) -> bool
    ensures { result ≡ is_false_by value.now }
{
    match value {
        Value::Bool(truth) => !*truth,
        _ => false,
    }
}

/// Whether the value of a WHEN passes: it equals the operand of CASE, or without an operand is
/// TRUE.
pub fn passes(operand: Option<&Value>, test: &Value) -> bool
    ensures { result ≡ passes_by (option_copied operand.entry) test.now }
{
    match operand {
        Some(operand) => is_true(&Comparison::Equals.of(operand, test)),
        None => is_true(test),
    }
}

/// The first value among the others: TRUE where one is equal, else unknown where a comparison is,
/// else FALSE.
pub fn among(value: &Value, list: &[Value]) -> Value
    ensures { result ≡ among_by (Truth false) value.now list.now }
{
    let mut so_far = Value::Bool(false);
    for item in list {
        let equal = Comparison::Equals.of(value, item);
        if is_true(&equal) {
            return equal;
        }
        if equal.is_null() {
            so_far = equal;
        }
    }
    so_far
}

/// The other truth value; NULL of what is none.
pub fn opposite(value: &Value) -> Value
    ensures { Ok result ≡ op_value Opposite (value.now ∷ []) }
{
    match value {
        Value::Bool(truth) => Value::Bool(!*truth),
        _ => Value::Null,
    }
}
