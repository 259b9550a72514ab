//! Statements that store: into tables, variables and parameters.

use sqlite_items::Items;
use syntax_trees::{Anchor, ColumnName, Expr, FromItem, Ident, Query, SelectItem};

/// `INSERT INTO table [(columns)] source` (ISO/IEC 9075-2, 14.11).
#[derive(Drop)]
pub struct Insert {
    /// The word INSERT.
    pub anchor: Anchor,
    pub table: Ident,
    /// The columns into which the values go, of which there are none where none are written: then
    /// they go into all columns, in the table's order.
    pub columns: Items<Ident>,
    /// The query whose rows are put in.
    pub source: Query,
}

/// `UPDATE table SET assignments [WHERE condition]` (ISO/IEC 9075-2, 14.14).
#[derive(Drop)]
pub struct Update {
    /// The word UPDATE.
    pub anchor: Anchor,
    pub table: Ident,
    /// What is assigned, of which there is at least one.
    pub assignments: Items<Assignment>,
    /// The condition of WHERE. Without WHERE there is none.
    pub filter: Option<Expr>,
}

/// `target = value`: of an UPDATE into a column (ISO/IEC 9075-2, 14.15), of SET into a variable
/// (ISO/IEC 9075-4, 14.5).
#[derive(Drop)]
pub struct Assignment {
    pub target: Ident,
    pub value: Expr,
}

/// `DELETE FROM table [WHERE condition]` (ISO/IEC 9075-2, 14.9).
#[derive(Drop)]
pub struct Delete {
    /// The word DELETE.
    pub anchor: Anchor,
    pub table: Ident,
    /// The condition of WHERE. Without WHERE there is none.
    pub filter: Option<Expr>,
}

/// An argument of CALL: a value, or `?` where a value is given back to the script.
#[derive(Drop)]
pub enum Argument {
    Value(Expr),
    Parameter(Anchor),
}

/// `CALL name (arguments)` (ISO/IEC 9075-2, 15.1).
#[derive(Drop)]
pub struct Call {
    /// The word CALL.
    pub anchor: Anchor,
    pub name: Ident,
    pub arguments: Items<Argument>,
}

/// `SELECT items INTO targets FROM from [WHERE filter] [GROUP BY group_by] [HAVING having]`
/// (ISO/IEC 9075-2, 14.7).
#[derive(Drop)]
pub struct SelectInto {
    /// The word SELECT.
    pub anchor: Anchor,
    pub items: Items<SelectItem>,
    /// The targets, of which there is at least one.
    pub targets: Items<Ident>,
    pub from: Items<FromItem>,
    pub filter: Option<Expr>,
    pub group_by: Items<ColumnName>,
    pub having: Option<Expr>,
}

/// `FETCH [[NEXT] FROM] cursor INTO targets` (ISO/IEC 9075-2, 14.5).
#[derive(Drop)]
pub struct Fetch {
    /// The word FETCH.
    pub anchor: Anchor,
    pub cursor: Ident,
    /// The targets, of which there is at least one.
    pub targets: Items<Ident>,
}
