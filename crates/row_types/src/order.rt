//! The order of values, and of rows by their keys.

ghost use Rattle.std.specs.Prelude.{◌≡◌, length, slice_index_or};
ghost use Rattle.sql_values.specs.declared.value.Value.TheVariants.{Null};
ghost use Rattle.row_types.specs.Rows.{rank as rank_by, value_cmp, by_key, to_key};

use crate::row::Row;
use sql_values::Value;
use std::cmp::Ordering;

// Which kinds of values come first: NULL, then truth values, then numbers, then texts.
fn rank(value: &Value) -> u8
    ensures { result ≡ rank_by value.now }
{
    match value {
        Value::Null => 0,
        Value::Bool(_) => 1,
        Value::Int(_) => 2,
        Value::Str(_) => 3,
    }
}

/// The order of two values: NULL, then truth values, then numbers, then texts; those of one kind in
/// the order of the kind (ISO/IEC 9075-2, 8.2).
pub fn order_of(a: &Value, b: &Value) -> Ordering
    ensures { result ≡ value_cmp a.now b.now }
{
    match (a, b) {
        (Value::Int(x), Value::Int(y)) => x.cmp(y),
        (Value::Str(s), Value::Str(t)) => s.order(t),
        (Value::Bool(p), Value::Bool(q)) => p.cmp(q),
        _ => rank(a).cmp(&rank(b)),
    }
}

// How a value stands to NULL.
fn order_to_null(value: &Value) -> Ordering
    ensures { result ≡ value_cmp value.now Null }
{
    match value {
        Value::Null => Ordering::Equal,
        _ => Ordering::Greater,
    }
}

// How NULL stands to a value.
fn order_of_null(value: &Value) -> Ordering
    ensures { result ≡ value_cmp Null value.now }
{
    match value {
        Value::Null => Ordering::Equal,
        _ => Ordering::Less,
    }
}

/// The order of two rows by their values at one place.
pub fn order_at(a: &Row, b: &Row, place: usize) -> Ordering
    ensures { result ≡ value_cmp (slice_index_or a.now place Null) (slice_index_or b.now place Null) }
{
    match (a.get(place), b.get(place)) {
        (Some(x), Some(y)) => order_of(x, y),
        (Some(x), None) => order_to_null(x),
        (None, Some(y)) => order_of_null(y),
        (None, None) => Ordering::Equal,
    }
}

/// The order of two rows by their keys, which are compared whole, column by column.
pub fn order_by_key(a: &Row, b: &Row, key: &[usize]) -> Ordering
    ensures { result ≡ by_key key.now a.now b.now }
{
    for place in key {
        let order = order_at(a, b, *place);
        if order != Ordering::Equal {
            return order;
        }
    }
    Ordering::Equal
}

// The order of a row's value at a place and another value.
fn order_to(row: &Row, place: usize, value: &Value) -> Ordering
    ensures { result ≡ value_cmp (slice_index_or row.now place Null) value.now }
{
    match row.get(place) {
        Some(x) => order_of(x, value),
        None => order_of_null(value),
    }
}

/// The order of a row's key and another key of as many values.
pub fn order_to_key(row: &Row, key: &[usize], sought: &[Value]) -> Ordering
    requires { length key.now ≡ length sought.now }
    ensures { result ≡ to_key key.now sought.now row.now }
{
    for (i, value) in sought.iter().enumerate() {
        let order = order_to(row, key[i], value);
        if order != Ordering::Equal {
            return order;
        }
    }
    Ordering::Equal
}
