//! The rows that an expression sees.

ghost use Rattle.std.specs.Prelude.{◌≡◌, ◌∷◌, IfOk};
ghost use Rattle.rel_algebra.specs.World.{column_of};
ghost use Rattle.run_choices.specs.Sight.{seen};

use crate::values::value_at;
use sql_values::{NoMemory, Value};

/// The rows in sight (ISO/IEC 9075-2, 6.6), each lent by the query that it stands in.
#[derive(Drop)]
pub enum RowsInSight<'a> {
    /// No row.
    NoRow,
    /// The row of a query, and the rows of the queries around it.
    Row(&'a [Value], &'a RowsInSight<'a>),
}

/// The row of a query under the rows of the queries around it.
pub fn under<'a>(row: &'a [Value], outer: &'a RowsInSight<'a>) -> RowsInSight<'a>
    ensures { seen result ≡ row.now ∷ seen outer.now }
{
    RowsInSight::Row(row, outer)
}

/// What the row of a level has at a place, the innermost row at level 0; NULL where there is none.
pub fn column(rows: &RowsInSight, level: usize, place: usize) -> Result<Value, NoMemory>
    ensures { IfOk result (λ v. v ≡ column_of level place (seen rows.now)) }
{
    match rows {
        RowsInSight::NoRow => Ok(Value::Null),
        RowsInSight::Row(row, outer) => {
            if level == 0 {
                value_at(row, place)
            } else {
                column(outer, level - 1, place)
            }
        }
    }
}
