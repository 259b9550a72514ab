//! Declarations of a compound statement, but for handlers, which hold statements.

use crate::SqlstateValue;
use sqlite_items::Items;
use syntax_trees::{DataType, Expr, Ident, OrderedQuery};

/// `names type [DEFAULT default]` after DECLARE (ISO/IEC 9075-4, 14.4).
#[derive(Drop)]
pub struct VariableDeclaration {
    /// The names, of which there is at least one.
    pub names: Items<Ident>,
    pub data_type: DataType,
    pub default: Option<Expr>,
}

/// `name CONDITION FOR SQLSTATE [VALUE] state` after DECLARE (ISO/IEC 9075-4, 14.3).
#[derive(Debug, Drop)]
pub struct ConditionDeclaration {
    pub name: Ident,
    pub state: SqlstateValue,
}

/// `name CURSOR FOR query` after DECLARE (ISO/IEC 9075-2, 14.1).
#[derive(Drop)]
pub struct CursorDeclaration {
    pub name: Ident,
    pub query: OrderedQuery,
}

/// What follows a handler's action (ISO/IEC 9075-4, 14.2).
#[derive(Clone, Copy, Debug, PartialEq, Eq)]
pub enum HandlerType {
    Continue,
    Exit,
    Undo,
}
