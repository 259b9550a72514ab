//! Queries.

use crate::{Anchor, ColumnName, Expr, Ident};
use sqlite_items::{Boxed, Items};

/// A query expression (ISO/IEC 9075-2, 7.17).
#[cycle(tree)]
#[derive(Drop)]
pub enum Query {
    Select(Select),
    Values(Values),
}

/// `VALUES rows` (ISO/IEC 9075-2, 7.3): one row or more.
#[cycle(tree)]
#[derive(Drop)]
pub struct Values {
    /// The word VALUES.
    pub anchor: Anchor,
    pub rows: Items<ValueRow>,
}

/// A row of VALUES (ISO/IEC 9075-2, 7.1).
#[cycle(tree)]
#[derive(Drop)]
pub enum ValueRow {
    /// Its values, of which there is at least one.
    Row(Items<Expr>),
}

/// `SELECT items FROM tables [WHERE condition] [GROUP BY columns] [HAVING condition]` (ISO/IEC
/// 9075-2, 7.16).
#[cycle(tree)]
#[derive(Drop)]
pub struct Select {
    /// The word SELECT.
    pub anchor: Anchor,
    /// The items, of which there is at least one.
    pub items: Items<SelectItem>,
    /// The items of FROM, of which there is at least one.
    pub from: Items<FromItem>,
    /// The condition of WHERE. Without WHERE there is none.
    pub filter: Option<Expr>,
    /// The columns of GROUP BY (7.13), of which there are none without GROUP BY.
    pub group_by: Items<ColumnName>,
    /// The condition of HAVING (7.14). Without HAVING there is none.
    pub having: Option<Expr>,
}

/// An item of a select list (ISO/IEC 9075-2, 7.16).
#[cycle(tree)]
#[derive(Drop)]
pub enum SelectItem {
    /// `*`, with its place.
    All(Anchor),
    /// An expression, and the name that is written for it.
    Value(Expr, Option<Ident>),
}

/// An item of FROM, and how it is joined to those before it (ISO/IEC 9075-2, 7.5 and 7.10).
#[cycle(tree)]
#[derive(Drop)]
pub enum FromItem {
    /// The first, or one after a comma.
    Comma(TableRef),
    /// CROSS JOIN.
    Cross(TableRef),
    /// JOIN or INNER JOIN, with the condition of ON.
    Inner(TableRef, Expr),
    /// LEFT JOIN or LEFT OUTER JOIN, with the condition of ON.
    Left(TableRef, Expr),
}

/// A table reference (ISO/IEC 9075-2, 7.6).
#[cycle(tree)]
#[derive(Drop)]
pub enum TableRef {
    /// A table, and the name that is written for it.
    Table(Ident, Option<Ident>),
    /// A derived table, its name, and the names of its columns, of which there are none where none
    /// are written.
    Derived(Boxed<Query>, Ident, Items<Ident>),
}

/// A column of ORDER BY (ISO/IEC 9075-2, 10.10): the name of a column of the query, and whether the
/// order is descending.
#[derive(Debug, Drop)]
pub struct SortSpecification {
    pub name: Ident,
    pub descending: bool,
}

/// A query with its ORDER BY (ISO/IEC 9075-2, 14.3).
#[derive(Drop)]
pub struct OrderedQuery {
    pub query: Query,
    /// The columns of ORDER BY, of which there are none without ORDER BY.
    pub order: Items<SortSpecification>,
}
