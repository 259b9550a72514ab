//! Rows with their places.

use row_types::Row;

/// A row and its place among those of a table.
#[derive(Drop)]
pub struct PlacedRow {
    pub at: usize,
    pub row: Row,
}
