//! Values that stand after a row go into the columns of their targets (ISO/IEC 9075-2, 14.11 and
//! 14.14).

ghost use Rattle.std.specs.Prelude.{◌≡◌, IfOk, OnOk, length, map, replicate, take, drop, slice_get};
ghost use Rattle.std.specs.Prelude.{slice_set, Some};
ghost use Rattle.std.specs.Option.{option_copied};
ghost use Rattle.sql_values.specs.declared.value.Value.TheVariants.{Null};
ghost use Rattle.data_change.specs.Writing.{put_all, spread, changed_row as changed_by};

use row_types::Row;
use run_rows::cut;
use sql_values::{NoMemory, Value};
use sqlite_items::{Items, at};
use std::alloc::Global;
use table_store::Table;

// The i-th value after so many columns.
fn value_following(row: &Row, width: usize, i: usize) -> Option<&Value>
    ensures { option_copied result ≡ slice_get (drop width row.now) i }
{
    if width > row.len() {
        return None;
    }
    at(&row.as_slice()[width..], i)
}

// Puts a value into a column, of which there are so many.
fn put_value(row: &mut Row, target: usize, width: usize, value: Value)
    ensures columns { take width row.new ≡ slice_set (take width row.old) target value }
    ensures after { drop width row.new ≡ drop width row.old }
{
    if target < width && target < row.len() {
        row.set(target, value);
    }
}

// Copies each value after so many columns into the column of its target.
fn put_after(row: &mut Row, targets: &[usize], width: usize) -> Result<(), NoMemory>
    ensures { OnOk result (take width row.new ≡ put_all targets.now (drop width row.old)
        (take width row.old)) }
{
    for (i, target) in targets.iter().enumerate() {
        let Some(value) = value_following(row, width, i) else {
            return Ok(());
        };
        let value = value.copied()?;
        put_value(row, *target, width, value);
    }
    Ok(())
}

// A row of so many columns, with the values after it in the columns of their targets.
fn changed_row(row: Row, targets: &[usize], width: usize) -> Result<Row, NoMemory>
    ensures { IfOk result (λ r. r ≡ put_all targets.now (drop width row) (take width row)) }
{
    let mut row = row;
    put_after(&mut row, targets, width)?;
    cut(&mut row, width);
    Ok(row)
}

// A row of NULLs.
fn nulls(alloc: Global, width: usize) -> Result<Row, NoMemory>
    ensures { IfOk result (λ r. r ≡ replicate width Null) }
{
    let mut row = Items::new(alloc);
    for _ in 0..width {
        row.push(Value::Null)?;
    }
    Ok(row)
}

// Values in the columns that are listed, and NULL in the others.
fn spread_row(alloc: Global, values: Row, listed: &[usize], width: usize) -> Result<Row, NoMemory>
    ensures { IfOk result (λ r. r ≡ put_all listed.now values (replicate width Null)) }
{
    let mut row = nulls(alloc, width)?;
    row.append(values)?;
    changed_row(row, listed, width)
}

/// Rows of a table, each with the values after it put into the columns of their targets.
pub fn changed_rows(
    alloc: Global,
    table: &Table,
    targets: &[usize],
    met: Vec<Row>,
) -> Result<Vec<Row>, NoMemory>
    ensures { IfOk result (λ rows. rows.items ≡ map (changed_by targets.now table.now.table)
        met.items) }
{
    let mut waiting = met;
    waiting.reverse();
    let mut rows = Vec::with_capacity(alloc, waiting.len())?;
    while let Some(row) = waiting.pop() {
        rows.push(changed_row(row, targets, table.columns().len())?)?;
    }
    Ok(rows)
}

/// Rows of a table, of values for the columns that are listed; the other columns are NULL.
pub fn spread_rows(
    alloc: Global,
    table: &Table,
    listed: &[usize],
    new: Vec<Row>,
) -> Result<Vec<Row>, NoMemory>
    ensures { IfOk result (λ rows. rows.items ≡ map (spread (Some listed.now) table.now.table)
        new.items) }
{
    let mut waiting = new;
    waiting.reverse();
    let mut rows = Vec::with_capacity(alloc, waiting.len())?;
    while let Some(values) = waiting.pop() {
        rows.push(spread_row(alloc, values, listed, table.columns().len())?)?;
    }
    Ok(rows)
}
