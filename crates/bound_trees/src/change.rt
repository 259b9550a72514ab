//! Bound statements that write a table.

use crate::BoundQuery;
use sql_values::Name;
use sqlite_items::Items;

/// An INSERT (ISO/IEC 9075-2, 14.11): the table's name, and a query with a column for each of the
/// table's, in the table's order, or for each of the listed columns.
#[derive(Drop)]
pub struct BoundInsert {
    pub table: Name,
    pub source: BoundQuery,
}

/// An UPDATE (14.14): the table's name, the places of the columns that are assigned, in the order
/// in which they are written, and the query of the rows that are met, each with all columns of the
/// table and then a value for each of these places.
#[derive(Drop)]
pub struct BoundUpdate {
    pub table: Name,
    pub targets: Items<usize>,
    pub rows: BoundQuery,
}

/// A DELETE (14.9): the table's name, and the query of the rows that are met, each with all columns
/// of the table.
#[derive(Drop)]
pub struct BoundDelete {
    pub table: Name,
    pub rows: BoundQuery,
}
