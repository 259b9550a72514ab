//! What words make of the values of all their operands.

ghost use Rattle.std.specs.Prelude.{◌≡◌, [], ◌∷◌};
ghost use Rattle.sql_values.specs.Values.{UnlessNoMemory};
ghost use Rattle.rel_algebra.specs.Endings.{ending_of};
ghost use Rattle.catalog_store.specs.View.{standing};
ghost use Rattle.run_expressions.specs.Words.{strict_value};

use bound_trees::BoundOperation;
use run_choices::{among, is_false, is_true, opposite};
use sql_values::{Value, ValueFault, cast, char_length, modulo, neg, substring};
use std::alloc::Global;

// What an operation gives of one value.
fn unary_value(alloc: Global, operation: BoundOperation, value: &Value) -> Result<Value, ValueFault>
    ensures { UnlessNoMemory result (ending_of result ≡ strict_value (standing operation)
        (value.now ∷ [])) }
{
    match operation {
        BoundOperation::Negation => neg(value),
        BoundOperation::Opposite => Ok(opposite(value)),
        BoundOperation::NullTest => Ok(Value::Bool(value.is_null())),
        BoundOperation::TrueTest => Ok(Value::Bool(is_true(value))),
        BoundOperation::FalseTest => Ok(Value::Bool(is_false(value))),
        BoundOperation::CharLength => Ok(char_length(value)),
        BoundOperation::Cast(to) => cast(alloc, value, to),
        BoundOperation::AnyOf => Ok(Value::Bool(false)),
        _ => Ok(Value::Null),
    }
}

/// What an operation gives that takes the values of all its operands.
pub fn operation_value(
    alloc: Global,
    operation: BoundOperation,
    values: &[Value],
) -> Result<Value, ValueFault>
    ensures { UnlessNoMemory result (ending_of result ≡ strict_value (standing operation)
        values.now) }
{
    match (operation, values) {
        (BoundOperation::AnyOf, [value, list @ ..]) => Ok(among(value, list)),
        (_, [value]) => unary_value(alloc, operation, value),
        (BoundOperation::Comparing(comparison), [a, b]) => Ok(comparison.of(a, b)),
        (BoundOperation::Modulo, [a, b]) => modulo(a, b),
        (BoundOperation::Substring, [text, from]) => substring(alloc, text, from, None),
        (BoundOperation::Substring, [text, from, length]) => {
            substring(alloc, text, from, Some(length))
        }
        _ => Ok(Value::Null),
    }
}
