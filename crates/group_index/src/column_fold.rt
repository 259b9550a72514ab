//! An aggregate of a column, folded a row at a time.

ghost use Rattle.std.specs.Prelude.{◌≡◌, IfOk, OnOk};
ghost use Rattle.row_types.specs.Groups.{value_at};

use row_types::AggregateColumn;
use sql_values::{Fold, NoMemory, Value, ValueFault};
use std::marker::Model;

// So many rows and no more can be counted.
const MOST_ROWS: u64 = (1 << 63) - 2;

/// An aggregate of the values that a column had so far.
#[derive(Drop)]
pub(crate) struct ColumnFold {
    place: usize,
    rows: u64,
    fold: Fold,
}

impl Model for ColumnFold {
    ghost use Rattle.std.specs.Prelude.{◌≤◌};
    ghost use Rattle.group_index.specs.Kept.{ColumnTaken};

    ghost Value = { ColumnTaken };

    ghost view = { λ f. record { place = f.place; taken = f.fold } };

    ghost invariant = { λ f. f.fold.count ≤ f.rows };
}

/// The value at a place of a row; past its end NULL.
pub(crate) fn value_of(row: &[Value], place: usize) -> Result<Value, NoMemory>
    ensures { IfOk result (λ v. v ≡ value_at row.now place) }
{
    match row.get(place) {
        Some(value) => value.copied(),
        None => Ok(Value::Null),
    }
}

impl ColumnFold {
    ghost use Rattle.sql_values.specs.Folds.{finished};
    ghost use Rattle.group_index.specs.Kept.{column_with, no_column};

    /// The aggregate of no values.
    pub fn new(aggregate: &AggregateColumn) -> ColumnFold
        ensures { result ≡ no_column aggregate.now }
    {
        ColumnFold {
            place: aggregate.place,
            rows: 0,
            fold: Fold::new(aggregate.kind),
        }
    }

    /// Takes the value of one row more.
    pub fn take(&mut self, row: &[Value]) -> Result<(), NoMemory>
        ensures { OnOk result (self.new ≡ column_with row.now self.old) }
    {
        if self.rows >= MOST_ROWS {
            return Err(NoMemory);
        }
        let value = value_of(row, self.place)?;
        self.rows += 1;
        self.fold.take(value);
        Ok(())
    }

    /// The aggregate.
    pub fn finish(self) -> Result<Value, ValueFault>
        ensures { result ≡ finished self.taken }
    {
        self.fold.finish()
    }
}
