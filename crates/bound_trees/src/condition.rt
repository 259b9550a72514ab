//! Conditions in bound statements: what handlers wait for, what is raised, and what is asked of a
//! diagnostics area. A condition stands by its SQLSTATE.

use crate::{BoundExpr, BoundTarget};
use sql_conditions::SqlState;
use sqlite_items::Items;

/// What follows a handler's action (ISO/IEC 9075-4, 14.2).
#[derive(Clone, Copy, Debug, PartialEq, Eq)]
pub enum BoundHandlerType {
    Continue,
    Exit,
    Undo,
}

/// What a handler waits for (ISO/IEC 9075-4, 14.2).
#[derive(Clone, Copy, Debug)]
pub enum BoundConditionValue {
    /// An SQLSTATE, written or that of a condition.
    State(SqlState),
    SqlException,
    SqlWarning,
    NotFound,
}

/// SIGNAL (ISO/IEC 9075-4, 17.2): the state, and the text, where one is written.
#[derive(Drop)]
pub struct BoundSignal {
    pub state: SqlState,
    pub message: Option<BoundExpr>,
}

/// RESIGNAL (17.3): the state and the text, where they are written.
#[derive(Drop)]
pub struct BoundResignal {
    pub state: Option<SqlState>,
    pub message: Option<BoundExpr>,
}

/// Which diagnostics area is read (ISO/IEC 9075-2, 23.1).
#[derive(Clone, Copy, Debug, PartialEq, Eq)]
pub enum BoundArea {
    Current,
    Stacked,
}

/// An item of a diagnostics area as a whole (23.1).
#[derive(Clone, Copy, Debug, PartialEq, Eq)]
pub enum BoundStatementItem {
    Number,
    RowCount,
}

/// An item of one condition (23.1).
#[derive(Clone, Copy, Debug, PartialEq, Eq)]
pub enum BoundConditionItem {
    ReturnedSqlstate,
    MessageText,
}

/// An item and where it is stored.
#[derive(Clone, Copy, Debug)]
pub struct BoundStatementRead {
    pub item: BoundStatementItem,
    pub target: BoundTarget,
}

/// An item of one condition and where it is stored.
#[derive(Clone, Copy, Debug)]
pub struct BoundConditionRead {
    pub item: BoundConditionItem,
    pub target: BoundTarget,
}

/// What GET DIAGNOSTICS reads (23.1): items of the area, or those of the condition of a number.
#[derive(Drop)]
pub enum BoundInformation {
    Statement(Items<BoundStatementRead>),
    Condition(BoundExpr, Items<BoundConditionRead>),
}

/// GET DIAGNOSTICS (23.1).
#[derive(Drop)]
pub struct BoundDiagnostics {
    pub area: BoundArea,
    pub information: BoundInformation,
}
