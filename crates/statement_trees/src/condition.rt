//! Conditions: what handlers wait for, SIGNAL and RESIGNAL, and GET DIAGNOSTICS.

use sql_values::Text;
use sqlite_items::Items;
use syntax_trees::{Anchor, Expr, Ident};

/// The text of `SQLSTATE [VALUE] text` as it is written, with its place.
#[derive(Debug, Drop)]
pub struct SqlstateValue {
    pub anchor: Anchor,
    pub text: Text,
}

/// What a handler waits for (ISO/IEC 9075-4, 14.2), with its first token.
#[derive(Debug, Drop)]
pub enum ConditionValue {
    Sqlstate(Anchor, SqlstateValue),
    Condition(Ident),
    SqlException(Anchor),
    SqlWarning(Anchor),
    NotFound(Anchor),
}

/// What SIGNAL and RESIGNAL raise (ISO/IEC 9075-4, 17.2).
#[derive(Debug, Drop)]
pub enum SignalValue {
    Sqlstate(SqlstateValue),
    Condition(Ident),
}

/// `SIGNAL value [SET MESSAGE_TEXT = message]` (ISO/IEC 9075-4, 17.2).
#[derive(Drop)]
pub struct Signal {
    /// The word SIGNAL.
    pub anchor: Anchor,
    pub value: SignalValue,
    pub message: Option<Expr>,
}

/// `RESIGNAL [value] [SET MESSAGE_TEXT = message]` (ISO/IEC 9075-4, 17.3).
#[derive(Drop)]
pub struct Resignal {
    /// The word RESIGNAL.
    pub anchor: Anchor,
    pub value: Option<SignalValue>,
    pub message: Option<Expr>,
}

/// Which diagnostics area GET DIAGNOSTICS reads (ISO/IEC 9075-2, 23.1). One that is not written is
/// the current one.
#[derive(Clone, Copy, Debug, PartialEq, Eq)]
pub enum DiagnosticsArea {
    Current,
    Stacked,
}

/// An item of a diagnostics area as a whole (23.1).
#[derive(Clone, Copy, Debug, PartialEq, Eq)]
pub enum StatementItemName {
    Number,
    RowCount,
}

/// `target = item`, of an area as a whole (23.1).
#[derive(Debug, Drop)]
pub struct StatementItem {
    pub target: Ident,
    pub item: StatementItemName,
}

/// An item of one condition (23.1).
#[derive(Clone, Copy, Debug, PartialEq, Eq)]
pub enum ConditionItemName {
    ReturnedSqlstate,
    MessageText,
}

/// `target = item`, of one condition (23.1).
#[derive(Debug, Drop)]
pub struct ConditionItem {
    pub target: Ident,
    pub item: ConditionItemName,
}

/// The number of the condition whose items are read (23.1): a number with its place, or a variable.
#[derive(Debug, Drop)]
pub enum ConditionNumber {
    Number(Anchor, i64),
    Variable(Ident),
}

/// What GET DIAGNOSTICS reads (23.1): items of the area, or those of one condition. There is at
/// least one.
#[derive(Debug, Drop)]
pub enum DiagnosticsInformation {
    Statement(Items<StatementItem>),
    Condition(ConditionNumber, Items<ConditionItem>),
}

/// `GET [CURRENT | STACKED] DIAGNOSTICS information` (ISO/IEC 9075-2, 23.1).
#[derive(Debug, Drop)]
pub struct GetDiagnostics {
    /// The word GET.
    pub anchor: Anchor,
    pub area: DiagnosticsArea,
    pub information: DiagnosticsInformation,
}
