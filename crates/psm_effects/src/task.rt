//! What a statement does in a world of tables.

use crate::change::Change;
use bound_trees::{BoundCall, BoundQuery, BoundStmt};

/// What is done in a world of tables.
#[derive(Clone, Copy)]
pub(crate) enum Task<'a> {
    /// A change of rows.
    Make(Change<'a>),
    /// A query.
    Answer(&'a BoundQuery),
    /// A CALL.
    Call(&'a BoundCall),
    /// A compound statement.
    Run(&'a BoundStmt),
}
