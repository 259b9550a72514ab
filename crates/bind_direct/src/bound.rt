//! Statements of a script with their names resolved.

use bound_trees::{BoundDelete, BoundInsert, BoundQuery, BoundStmt, BoundUpdate};
use catalog_store::Object;
use sql_values::Name;
use sqlite_items::Items;

/// A statement of a script with its names resolved.
#[derive(Drop)]
pub enum Bound {
    /// A new entry of the catalog.
    Create(Name, Object),
    /// An entry that stands, of the sort that is written, and that nothing uses.
    Drop(Name),
    /// New rows of a table, and the places of the listed columns, where some are listed.
    Insert(BoundInsert, Option<Items<usize>>),
    Update(BoundUpdate),
    Delete(BoundDelete),
    /// A query.
    Query(BoundQuery),
    /// EXPLAIN of a query.
    Explain(BoundQuery),
    /// A CALL, or a compound statement.
    Routine(BoundStmt),
}

/// A statement with its names resolved, and whether all that it asks is answered by plans: no CALL,
/// no compound statement and no EXPLAIN is, nor what calls a function without a plan.
#[derive(Drop)]
pub struct BoundStatement {
    pub bound: Bound,
    pub by_plan: bool,
}
