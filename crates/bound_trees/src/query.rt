//! Bound queries. A column stands by its place, a table by its name.

use crate::BoundExpr;
use row_types::SortKey;
use sql_values::{FoldKind, Name};
use sqlite_items::{Boxed, Items};

/// A row of VALUES (ISO/IEC 9075-2, 7.3).
#[cycle(bound)]
#[derive(Drop)]
pub enum BoundRow {
    /// Its values, of which there is at least one.
    Row(Items<BoundExpr>),
}

/// A query (7.17).
#[cycle(bound)]
#[derive(Drop)]
pub enum BoundQuery {
    Select(BoundSelect),
    /// The rows of VALUES.
    Values(Items<BoundRow>),
    /// The rows of a query in the order of these columns of its own (14.3).
    Ordered(Boxed<BoundQuery>, Items<SortKey>),
}

/// An item of FROM, and how it is joined to those before it (7.5 and 7.10). A comma joins what
/// stands before it with all that stands from there on to the next one.
#[cycle(bound)]
#[derive(Drop)]
pub enum BoundFromItem {
    /// The first, or one after a comma.
    Comma(BoundSource),
    /// CROSS JOIN.
    Cross(BoundSource),
    /// JOIN, with the top conjuncts of ON, whose row is what stands from the last comma on.
    Inner(BoundSource, Items<BoundExpr>),
    /// LEFT JOIN, with the same.
    Left(BoundSource, Items<BoundExpr>),
}

/// Where the rows of an item of FROM come from (7.6).
#[cycle(bound)]
#[derive(Drop)]
pub enum BoundSource {
    /// A table, by its name.
    Table(Name),
    /// A derived table: the rows of a query.
    Derived(Boxed<BoundQuery>),
}

/// How a query is grouped (7.13). Of each row of FROM that is kept the parts are evaluated: the
/// grouping columns, and then the arguments of the aggregates, which are those of the select list
/// from left to right and then those of HAVING. The row of a group has its grouping columns and
/// then its finished aggregates, so that each part and what becomes of it stand at one place.
#[cycle(bound)]
#[derive(Drop)]
pub struct BoundGrouping {
    /// How many of the parts are grouping columns.
    pub keys: usize,
    /// The grouping columns and then the aggregates' arguments, of which that of COUNT(*) is TRUE.
    pub parts: Items<BoundExpr>,
    /// The aggregates (10.9).
    pub aggregates: Items<FoldKind>,
    /// The top conjuncts of HAVING (7.14).
    pub having: Items<BoundExpr>,
}

/// A query over FROM (7.16): the select list, FROM, the top conjuncts of WHERE, and how it is
/// grouped, where it is. In WHERE, and in the list of a query that is not grouped, the row is that
/// of all of FROM; in the list and in HAVING of a grouped one it is the row of a group.
#[cycle(bound)]
#[derive(Drop)]
pub struct BoundSelect {
    pub items: Items<BoundExpr>,
    pub from: Items<BoundFromItem>,
    pub conjuncts: Items<BoundExpr>,
    pub grouping: Option<BoundGrouping>,
}
