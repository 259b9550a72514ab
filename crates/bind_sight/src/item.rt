//! FROM items.

use crate::column_list::ColumnList;
use sql_values::Name;

/// An item of FROM (ISO/IEC 9075-2, 7.6), with the place of its first column in the row of FROM.
/// One that is not known has no column, and is taken to have each that no other item in sight has.
#[derive(Drop)]
pub struct Item {
    pub name: Name,
    pub columns: ColumnList,
    pub first: usize,
    pub known: bool,
}
