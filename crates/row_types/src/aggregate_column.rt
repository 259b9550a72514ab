//! Aggregates of columns.

use sql_values::FoldKind;

/// An aggregate of a column (ISO/IEC 9075-2, 10.9): which one, and the column's place.
#[derive(Clone, Copy, Debug, PartialEq, Eq)]
pub struct AggregateColumn {
    pub kind: FoldKind,
    pub place: usize,
}
