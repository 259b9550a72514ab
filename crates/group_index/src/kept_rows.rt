//! What is kept of the rows of one group: of each of its aggregates the values so far, and nothing
//! of the rows.

ghost use Rattle.std.specs.Prelude.{◌≡◌, map, IfOk, OnOk};
ghost use Rattle.group_index.specs.Kept.{column_end, column_with, no_column};

use crate::column_fold::ColumnFold;
use row_types::AggregateColumn;
use sql_values::{NoMemory, Value, ValueFault};
use sqlite_items::Items;
use std::alloc::Global;
use std::marker::Model;

/// Some aggregates of the rows so far.
#[derive(Drop)]
pub(crate) struct KeptRows {
    columns: Vec<ColumnFold>,
}

impl Model for KeptRows {
    ghost use Rattle.std.specs.Prelude.{List};
    ghost use Rattle.group_index.specs.Kept.{ColumnTaken};

    ghost Value = { List ColumnTaken };

    ghost view = { λ k. k.columns.items };
}

// The aggregates of no rows.
fn no_columns(alloc: Global, aggregates: &[AggregateColumn]) -> Result<Vec<ColumnFold>, NoMemory>
    ensures { IfOk result (λ v. v.items ≡ map no_column aggregates.now) }
{
    let mut columns = Vec::with_capacity(alloc, aggregates.len())?;
    for aggregate in aggregates {
        columns.push(ColumnFold::new(aggregate))?;
    }
    Ok(columns)
}

// Takes the values of one row more.
fn take_each(columns: &mut [ColumnFold], row: &[Value]) -> Result<(), NoMemory>
    ensures { OnOk result (columns.new ≡ map (column_with row.now) columns.old) }
{
    for column in columns.iter_mut() {
        column.take(row)?;
    }
    Ok(())
}

impl KeptRows {
    ghost use Rattle.group_index.specs.Kept.{none_kept, kept_with};

    /// Of no rows.
    pub fn new(alloc: Global, aggregates: &[AggregateColumn]) -> Result<KeptRows, NoMemory>
        ensures { IfOk result (λ k. k ≡ none_kept aggregates.now) }
    {
        Ok(KeptRows {
            columns: no_columns(alloc, aggregates)?,
        })
    }

    /// With one row more.
    pub fn take(&mut self, row: &[Value]) -> Result<(), NoMemory>
        ensures { OnOk result (self.new ≡ kept_with row.now self.old) }
    {
        take_each(self.columns.as_mut_slice(), row)
    }

    /// The aggregates, from left to right.
    pub fn finish(self, alloc: Global) -> Result<Items<Result<Value, ValueFault>>, NoMemory>
        ensures { IfOk result (λ ends. ends ≡ map column_end self) }
    {
        let mut ends = Items::from_vec(Vec::with_capacity(alloc, self.columns.len())?);
        for column in self.columns {
            ends.push(column.finish())?;
        }
        Ok(ends)
    }
}
