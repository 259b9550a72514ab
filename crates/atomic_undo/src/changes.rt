//! What a statement changes.

use row_types::Row;

/// What a statement changes in a table. Rows were assigned and pass NOT NULL; places increase and
/// are there.
#[derive(Drop)]
pub enum Changes {
    /// New rows.
    Insert(Vec<Row>),
    /// New rows for the rows at places. Their keys may be others.
    Update(Vec<usize>, Vec<Row>),
    /// The rows at places go.
    Delete(Vec<usize>),
}
