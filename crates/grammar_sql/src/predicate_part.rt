//! What may stand after the left side of a predicate.

use sqlite_items::Items;
use syntax_trees::{Anchor, Expr, Operation, Query};

/// What stands after the left side of a predicate.
#[derive(Drop)]
pub enum PredicatePart {
    /// An operation with its anchor, and the operands after the left side.
    Operation((Operation, Anchor), Items<Expr>),
    /// IN (ISO/IEC 9075-2, 8.4): whether NOT stands before it, its anchor, and what it looks in.
    In((bool, Anchor), InValue),
}

/// What IN looks in.
#[derive(Drop)]
pub enum InValue {
    /// The values of a list, of which there is at least one.
    List(Items<Expr>),
    /// The rows of a query.
    Query(Query),
}
