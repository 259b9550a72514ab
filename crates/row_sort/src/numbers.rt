//! The values of a column as numbers, by which most comparisons are made. Nothing here sorts.

ghost use Rattle.std.specs.Prelude.{◌≡◌, pos, slice_index_or};
ghost use Rattle.std.specs.List.{list_all};
ghost use Rattle.sql_values.specs.declared.value.Value.TheVariants.{Null, Bool as Truth};
ghost use Rattle.row_sort.specs.Numbers.{whole_number, first_number, number_by};
ghost use Rattle.row_sort.specs.Numbers.{is_told as is_told_by, tells};
ghost use Rattle.row_sort.specs.Places.{value_at};

use row_types::Row;
use sql_values::{Text, Value};
use std::cmp::Ordering;

const LEAST: i64 = i64::MIN;

// The first character of a text as a number; 0 where it has none.
fn first_character(text: &Text) -> i64
    ensures { result ≡ pos (slice_index_or text.now 0 0) }
{
    match text.as_str().chars().next() {
        Some(character) => character as i64,
        None => 0,
    }
}

// A number that says all of an integer or a truth value. That of NULL is the least.
fn whole(value: &Value) -> i64
    ensures { result ≡ whole_number value.now }
{
    match value {
        Value::Null => LEAST,
        Value::Bool(truth) => *truth as i64,
        Value::Int(number) => *number,
        Value::Str(_) => 0,
    }
}

// The number of a truth value, below that of every integer.
fn truth_number(truth: bool) -> i64
    ensures { result ≡ first_number (Truth truth) }
{
    if truth { -2 } else { -3 }
}

// A number that rises with all values. Integers have one, and so have texts of one first character.
fn first(value: &Value) -> i64
    ensures { result ≡ first_number value.now }
{
    match value {
        Value::Null => -4,
        Value::Bool(truth) => truth_number(*truth),
        Value::Int(_) => -1,
        Value::Str(text) => first_character(text),
    }
}

// The number of a value: one that says all, or one that rises with all values.
fn number(value: &Value, alone: bool) -> i64
    ensures { result ≡ number_by alone value.now }
{
    if alone { whole(value) } else { first(value) }
}

// The number of the value at a column of a row; that of NULL where there is none.
fn number_in(row: &Row, column: usize, alone: bool) -> i64
    ensures { result ≡ number_by alone (slice_index_or row.now column Null) }
{
    match row.get(column) {
        Some(value) => number(value, alone),
        None => number(&Value::Null, alone),
    }
}

/// The number of the value at a column of the row at a place; that of NULL where there is none.
pub(crate) fn number_at(rows: &[Row], column: usize, place: usize, alone: bool) -> i64
    ensures { result ≡ number_by alone (value_at rows.now column place) }
{
    match rows.get(place) {
        Some(row) => number_in(row, column, alone),
        None => number(&Value::Null, alone),
    }
}

// Whether the number of a value says all, among truth values or among integers.
fn is_told(value: &Value, truths: bool) -> bool
    ensures { result ≡ is_told_by truths value.now }
{
    match value {
        Value::Null => true,
        Value::Bool(_) => truths,
        Value::Int(number) => !truths && LEAST.cmp(number) == Ordering::Less,
        Value::Str(_) => false,
    }
}

// Whether the number of the value at a column of a row says all.
fn is_told_in(row: &Row, column: usize, truths: bool) -> bool
    ensures { result ≡ is_told_by truths (slice_index_or row.now column Null) }
{
    match row.get(column) {
        Some(value) => is_told(value, truths),
        None => true,
    }
}

// Whether the numbers of a column say all, as truth values or as integers.
fn are_told(rows: &[Row], column: usize, truths: bool) -> bool
    ensures { result ≡ list_all (λ row. is_told_by truths (slice_index_or row column Null)) rows.now }
{
    for row in rows {
        if !is_told_in(row, column, truths) {
            return false;
        }
    }
    true
}

/// Whether the numbers of a column say all: of truth values alone, or of integers alone.
pub(crate) fn do_tell(rows: &[Row], column: usize) -> bool
    ensures { result ≡ tells rows.now column }
{
    are_told(rows, column, false) || are_told(rows, column, true)
}
