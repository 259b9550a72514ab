//! Arithmetic and comparison of values (ISO/IEC 9075-2, 6.27, 6.28 and 8.2): exact or a fault. A
//! NULL operand gives NULL.

ghost use Rattle.std.specs.Prelude.{◌≡◌, ℤ, SomeIff, FitsSigned};
ghost use Rattle.std.specs.Int.{w64};
ghost use Rattle.sql_values.specs.Values.{sum_of, difference_of, product_of, quotient_of, divided};
ghost use Rattle.sql_values.specs.Values.{negation_of, order_of, remainder_of, left_over};
ghost use Rattle.sql_values.specs.Values.{ranged as ranged_by};

use crate::{Value, ValueFault};
use std::cmp::Ordering;

// The exact result, which a checked operation has where it is in range.
fn ranged(number: Option<i64>) -> Result<Value, ValueFault>
    ensures { (z : ℤ) → SomeIff number (FitsSigned w64 z) z → result ≡ ranged_by z }
{
    match number {
        Some(number) => Ok(Value::Int(number)),
        None => Err(ValueFault::OutOfRange),
    }
}

/// The sum. `OutOfRange` comes exactly where it is no INTEGER.
pub fn add(a: &Value, b: &Value) -> Result<Value, ValueFault>
    ensures { result ≡ sum_of a.now b.now }
{
    match (a, b) {
        (Value::Int(x), Value::Int(y)) => ranged(x.checked_add(*y)),
        _ => Ok(Value::Null),
    }
}

/// The difference. `OutOfRange` comes exactly where it is no INTEGER.
pub fn sub(a: &Value, b: &Value) -> Result<Value, ValueFault>
    ensures { result ≡ difference_of a.now b.now }
{
    match (a, b) {
        (Value::Int(x), Value::Int(y)) => ranged(x.checked_sub(*y)),
        _ => Ok(Value::Null),
    }
}

/// The product. `OutOfRange` comes exactly where it is no INTEGER.
pub fn mul(a: &Value, b: &Value) -> Result<Value, ValueFault>
    ensures { result ≡ product_of a.now b.now }
{
    match (a, b) {
        (Value::Int(x), Value::Int(y)) => ranged(x.checked_mul(*y)),
        _ => Ok(Value::Null),
    }
}

// The quotient of two numbers.
fn quotient(x: i64, y: i64) -> Result<Value, ValueFault>
    ensures { result ≡ divided x y }
{
    if y == 0 {
        Err(ValueFault::DivZero)
    } else {
        ranged(x.checked_div(y))
    }
}

/// The quotient, cut towards zero. `DivZero` comes exactly where the divisor is zero and the
/// dividend isn't NULL; `OutOfRange` exactly for the least INTEGER divided by -1.
pub fn div(a: &Value, b: &Value) -> Result<Value, ValueFault>
    ensures { result ≡ quotient_of a.now b.now }
{
    match (a, b) {
        (Value::Int(x), Value::Int(y)) => quotient(*x, *y),
        _ => Ok(Value::Null),
    }
}

// What the division of two numbers leaves. No remainder is out of range, also not that of the least
// number.
fn remainder(x: i64, y: i64) -> Result<Value, ValueFault>
    ensures { result ≡ left_over x y }
{
    if y == 0 {
        Err(ValueFault::DivZero)
    } else {
        Ok(Value::Int(x.wrapping_rem(y)))
    }
}

/// What the division leaves, with the sign of the dividend. `DivZero` comes exactly where the
/// divisor is zero and the dividend isn't NULL.
pub fn modulo(a: &Value, b: &Value) -> Result<Value, ValueFault>
    ensures { result ≡ remainder_of a.now b.now }
{
    match (a, b) {
        (Value::Int(x), Value::Int(y)) => remainder(*x, *y),
        _ => Ok(Value::Null),
    }
}

/// The number with the other sign. `OutOfRange` comes exactly for the least INTEGER.
pub fn neg(a: &Value) -> Result<Value, ValueFault>
    ensures { result ≡ negation_of a.now }
{
    match a {
        Value::Int(x) => ranged(x.checked_neg()),
        _ => Ok(Value::Null),
    }
}

/// The order of two values of one kind; `None` exactly where one of them is NULL.
pub fn cmp(a: &Value, b: &Value) -> Option<Ordering>
    ensures { result ≡ order_of a.now b.now }
{
    match (a, b) {
        (Value::Int(x), Value::Int(y)) => Some(x.cmp(y)),
        (Value::Str(s), Value::Str(t)) => Some(s.order(t)),
        (Value::Bool(p), Value::Bool(q)) => Some(p.cmp(q)),
        _ => None,
    }
}
