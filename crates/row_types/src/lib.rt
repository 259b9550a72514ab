//! Rows and their types: the columns of tables, with their keys, and the order of keys.
#![tactic(auto)]

ghost use Rattle.std.specs.Prelude.{◌≡◌, IfOk};
ghost use Rattle.row_types.specs.Rows.{fits as fits_by};

mod aggregate_column;
mod cell;
mod gather;
mod key;
mod order;
mod plan_row;
mod row;
mod row_in_sight;
mod row_list;
mod sort_key;
mod steps;

pub use aggregate_column::AggregateColumn;
pub use cell::{Cell, copied_area, copied_cell};
pub use gather::gathered;
pub use key::Key;
pub use order::{order_by_key, order_of, order_to_key};
pub use plan_row::{PlanRow, RowEnd, first_area_in};
pub use row::{Row, copied_row, copied_value, fits};
pub use row_in_sight::{Outer, RowInSight, ValuesInSight, outer_cell};
pub use row_list::RowList;
pub use sort_key::{SortKey, order_by_keys};
use sql_values::{Name, NoMemory, SqlType};
use sqlite_items::Items;
use std::alloc::Global;
pub use steps::Steps;

/// A column of a table (ISO/IEC 9075-2, 4.13): its name, its type, and whether it takes no NULL.
#[derive(Debug, Drop)]
pub struct ColumnType {
    pub name: Name,
    pub data_type: SqlType,
    pub not_null: bool,
}

impl ColumnType {
    /// The same column once more.
    pub fn copied(&self) -> Result<ColumnType, NoMemory>
        ensures { IfOk result (λ c. c ≡ self.now) }
    {
        Ok(ColumnType {
            name: self.name.copied()?,
            data_type: self.data_type,
            not_null: self.not_null,
        })
    }
}

/// The same columns once more.
pub fn copied_columns(alloc: Global, columns: &[ColumnType]) -> Result<Items<ColumnType>, NoMemory>
    ensures { IfOk result (λ c. c ≡ columns.now) }
{
    let mut copies = Items::new(alloc);
    for column in columns {
        copies.push(column.copied()?)?;
    }
    Ok(copies)
}

/// The type of a table's rows (ISO/IEC 9075-2, 4.14): its columns in order, and the places of its
/// key columns.
#[derive(Drop)]
pub struct RowType {
    pub columns: Items<ColumnType>,
    pub key: Items<usize>,
}

impl RowType {
    /// The same type once more.
    pub fn copied(&self, alloc: Global) -> Result<RowType, NoMemory>
        ensures { IfOk result (λ t. t ≡ self.now) }
    {
        Ok(RowType {
            columns: copied_columns(alloc, self.columns.as_slice())?,
            key: Items::from_slice(alloc, self.key.as_slice())?,
        })
    }

    /// Whether a row fits: each column takes its value, and no value of the key is NULL.
    pub fn fits(&self, row: &Row) -> bool
        ensures { result ≡ fits_by self.now.columns self.now.key row.now }
    {
        fits(self.columns.as_slice(), self.key.as_slice(), row)
    }
}
