//! Rows, their copies, and whether they fit a table.

ghost use Rattle.std.specs.Prelude.{◌≡◌, IfOk, length, not, slice_index_or};
ghost use Rattle.std.specs.List.{list_all};
ghost use Rattle.sql_values.specs.Values.{is_null as is_null_by};
ghost use Rattle.sql_values.specs.declared.value.Value.TheVariants.{Null};
ghost use Rattle.row_types.specs.Rows.{is_of as is_of_by, takes as takes_by};
ghost use Rattle.row_types.specs.Rows.{take_all as take_all_by, fits as fits_by, key_of};

use crate::ColumnType;
use sql_values::{NoMemory, SqlType, Value};
use sqlite_items::Items;
use std::alloc::Global;

/// A row: a value for each column of its table, in the table's order.
pub type Row = Items<Value>;

/// The same value once more; a text shares its characters.
pub fn copied_value(value: &Value) -> Result<Value, NoMemory>
    ensures { IfOk result (λ v. v ≡ value.now) }
{
    value.copied()
}

/// The same row once more.
pub fn copied_row(alloc: Global, row: &Row) -> Result<Row, NoMemory>
    ensures { IfOk result (λ r. r ≡ row.now) }
{
    let mut copy = Items::new(alloc);
    for value in row.as_slice() {
        copy.push(value.copied()?)?;
    }
    Ok(copy)
}

// Whether a value is one of a type, a text where it is not too long; NULL is one of each.
fn is_of(data_type: SqlType, value: &Value) -> bool
    ensures { result ≡ is_of_by data_type value.now }
{
    match (data_type, value) {
        (_, Value::Null) => true,
        (SqlType::Integer, Value::Int(_)) => true,
        (SqlType::Varchar(most), Value::Str(text)) => text.len() <= most,
        (SqlType::Boolean, Value::Bool(_)) => true,
        _ => false,
    }
}

// Whether a value is NULL.
fn is_null(value: &Value) -> bool
    ensures { result ≡ is_null_by value.now }
{
    match value {
        Value::Null => true,
        _ => false,
    }
}

// Whether a column takes a value.
fn takes(column: &ColumnType, value: &Value) -> bool
    ensures { result ≡ takes_by column.now value.now }
{
    is_of(column.data_type, value) && !(column.not_null && is_null(value))
}

// Whether there are as many values as columns, and each column takes its own.
fn take_all(columns: &[ColumnType], values: &[Value]) -> bool
    ensures { result ≡ take_all_by columns.now values.now }
{
    if columns.len() != values.len() {
        return false;
    }
    for (i, column) in columns.iter().enumerate() {
        if !takes(column, &values[i]) {
            return false;
        }
    }
    true
}

// Whether a row's value at a place is NULL; so is that of a place that it doesn't have.
fn is_null_at(row: &Row, place: usize) -> bool
    ensures { result ≡ is_null_by (slice_index_or row.now place Null) }
{
    match row.get(place) {
        Some(value) => is_null(value),
        None => true,
    }
}

// Whether no value of a row's key is NULL.
fn has_whole_key(key: &[usize], row: &Row) -> bool
    ensures { result ≡ list_all (λ v. not (is_null_by v)) (key_of key.now row.now) }
{
    for place in key {
        if is_null_at(row, *place) {
            return false;
        }
    }
    true
}

/// Whether a row fits the columns and the key of a table: each column takes its value, and no value
/// of the key is NULL.
pub fn fits(columns: &[ColumnType], key: &[usize], row: &Row) -> bool
    ensures { result ≡ fits_by columns.now key.now row.now }
{
    take_all(columns, row.as_slice()) && has_whole_key(key, row)
}
