//! Plans: a leaf, which has rows, and a list of nodes, each of which makes rows of the rows below
//! it.

use crate::column_places::ColumnPlaces;
use crate::scalar::Scalar;
use row_types::{AggregateColumn, SortKey};
use sql_values::Name;
use sqlite_items::{Boxed, Items};

/// Scalars that are the cells of one row.
#[derive(Drop)]
pub struct ScalarRow {
    pub scalars: Items<Scalar>,
}

/// Where a plan's rows come from.
#[derive(Drop)]
pub enum Leaf {
    /// One row without cells.
    Unit,
    /// The rows of the table of a name, which has so many columns, in key order.
    Scan(Name, usize),
    /// A row for each list of scalars, which are read on a row without cells.
    Values(Items<ScalarRow>),
}

/// What an Apply makes of the rows of its inner plan: one cell, or one for each aggregate, or so
/// many. Where one of these rows is poisoned, or a cell of one is a condition, the first such area
/// in the order of the rows stands in each of these cells.
#[derive(Drop)]
pub enum ApplyKind {
    /// The value of the one row that there is; of none NULL, and of several the condition 21000
    /// (ISO/IEC 9075-2, 7.19).
    Single,
    /// Whether there is a row (8.10).
    Exists,
    /// Whether the scalar's value is in the list (8.4). The scalar is read on the row outside, and
    /// where it is a condition, this goes before those of the rows.
    Member(Scalar),
    /// These aggregates of the rows (10.9). Where one of them raises, the first that does stands in
    /// each cell.
    Aggregate(Items<AggregateColumn>),
    /// So many cells of the one row that there is, NULL where it has fewer; of none the condition
    /// 02000, and of several 21000, in each of them (14.7).
    Into(usize),
}

/// A node of a plan. A poisoned row passes each of those that act row by row as it is. The others
/// settle what they take: where a row is poisoned, or a cell of one is a condition, the first such
/// area in the order of the rows is all that they give, in one poisoned row.
#[cycle(plan)]
#[derive(Drop)]
pub enum Node {
    /// Each row with the cells of the scalars after its own. Each scalar is read on the row as it
    /// came.
    Extend(Items<Scalar>),
    /// Each row with the cells that the kind makes of the rows of the plan, which is run anew for
    /// each row, with this row as the innermost outside it. Where the scalar, which is read on the
    /// row, is not true, the cells are NULL, and where it raises, its area.
    Apply(Scalar, ApplyKind, Boxed<Plan>),
    /// The rows of which the scalar is true. A row whose test raises stays, poisoned.
    Filter(Scalar),
    /// Of each row the cells at these places, in this order.
    Keep(ColumnPlaces),
    /// Each row with each row of the plan at its right, both settled, the left one first.
    Cross(Boxed<Plan>),
    /// Each row with those rows of the plan at its right for which the scalar is true, or, where
    /// there is none, with so many NULLs; both settled as before, and the result too. The nodes are
    /// run on each pair before the scalar is read on it; of these only an Extend and an Apply do
    /// anything.
    LeftOuter(Items<Node>, Scalar, usize, Boxed<Plan>),
    /// The rows, settled.
    Settle,
    /// The groups of the rows, settled, by the columns at these places, in which NULL equals NULL:
    /// a row for each group, in the order of their first rows, of these columns and then of its
    /// aggregates. One that raises is a condition cell. Without a column there is one group, even
    /// of no rows.
    Group(Items<usize>, Items<AggregateColumn>),
    /// The rows, settled, in the order of these columns; rows that tie keep their order.
    Sort(Items<SortKey>),
}

/// A plan: its leaf, and the nodes above it, the lowest first.
#[cycle(plan)]
#[derive(Drop)]
pub struct Plan {
    pub leaf: Leaf,
    pub nodes: Items<Node>,
}
