//! The queries in expressions and queries, by what is in sight where each is evaluated: one that has
//! a plan is kept, and one without is run row by row, so that what stands in it is evaluated under
//! its rows (ISO/IEC 9075-2, 7.5 to 7.17).

ghost use Rattle.std.specs.Prelude.{◌≡◌, true, OnOk};
ghost use Rattle.rel_algebra.specs.Plain.{planned};
ghost use Rattle.block_plans.specs.View.{query_seen};
ghost use Rattle.kept_queries.specs.Keeping.{AreKept};

use crate::columns::{from_columns, joined_columns};
use crate::outermost::MOST_KEPT;
use bound_trees::{
    BoundExpr, BoundFromItem, BoundGrouping, BoundLink, BoundQuery, BoundRow, BoundSelect,
    BoundSource,
};
use kept_queries::{Around, InSight, KeptQuery, find, keep};
use planned_queries::is_planned;
use sql_values::NoMemory;
use sqlite_items::Items;
use std::alloc::Global;

/// Those of an expression, where so much is in sight.
#[cycle(under_rows)]
pub(crate) fn keep_within(
    alloc: Global,
    expr: &BoundExpr,
    sight: &InSight,
    around: &Around,
    kept: &mut Items<KeptQuery>,
) -> Result<(), NoMemory>
    requires { AreKept around.now kept.old }
    ensures { OnOk result (AreKept around.now kept.new) }
{
    match expr {
        BoundExpr::Literal(_) => Ok(()),
        BoundExpr::Column(_, _) => Ok(()),
        BoundExpr::Variable(_) => Ok(()),
        BoundExpr::Operation(_, operands) => {
            keep_in_exprs(alloc, operands.as_slice(), sight, around, kept)
        }
        BoundExpr::Chain(first, rest) => {
            keep_within(alloc, first.get(), sight, around, kept)?;
            keep_in_links(alloc, rest.as_slice(), sight, around, kept)
        }
        BoundExpr::Call(_, arguments) => {
            keep_in_exprs(alloc, arguments.as_slice(), sight, around, kept)
        }
        BoundExpr::Single(query) => keep_query(alloc, query.get(), sight, around, kept),
        BoundExpr::Exists(query) => keep_query(alloc, query.get(), sight, around, kept),
        BoundExpr::In(left, query) => {
            keep_within(alloc, left.get(), sight, around, kept)?;
            keep_query(alloc, query.get(), sight, around, kept)
        }
    }
}

// Those of several expressions.
#[cycle(under_rows)]
fn keep_in_exprs(
    alloc: Global,
    exprs: &[BoundExpr],
    sight: &InSight,
    around: &Around,
    kept: &mut Items<KeptQuery>,
) -> Result<(), NoMemory>
    requires { AreKept around.now kept.old }
    ensures { OnOk result (AreKept around.now kept.new) }
{
    for expr in exprs {
        keep_within(alloc, expr, sight, around, kept)?;
    }
    Ok(())
}

// Those of the operands of a chain after its first.
#[cycle(under_rows)]
fn keep_in_links(
    alloc: Global,
    links: &[BoundLink],
    sight: &InSight,
    around: &Around,
    kept: &mut Items<KeptQuery>,
) -> Result<(), NoMemory>
    requires { AreKept around.now kept.old }
    ensures { OnOk result (AreKept around.now kept.new) }
{
    for link in links {
        keep_within(alloc, &link.operand, sight, around, kept)?;
    }
    Ok(())
}

// Those of several expressions under one row more, of so many values.
#[cycle(under_rows)]
fn keep_under(
    alloc: Global,
    exprs: &[BoundExpr],
    values: usize,
    sight: &InSight,
    around: &Around,
    kept: &mut Items<KeptQuery>,
) -> Result<(), NoMemory>
    requires { AreKept around.now kept.old }
    ensures { OnOk result (AreKept around.now kept.new) }
{
    if exprs.is_empty() {
        return Ok(());
    }
    let inside = sight.under_row(alloc, values)?;
    keep_in_exprs(alloc, exprs, &inside, around, kept)
}

/// A query itself, where it has a plan, and else those in it.
#[cycle(under_rows)]
pub(crate) fn keep_query(
    alloc: Global,
    query: &BoundQuery,
    sight: &InSight,
    around: &Around,
    kept: &mut Items<KeptQuery>,
) -> Result<(), NoMemory>
    requires { AreKept around.now kept.old }
    ensures { OnOk result (AreKept around.now kept.new) }
{
    if is_planned(query, around.functions) {
        keep_once(alloc, query, sight, around, kept)
    } else {
        keep_in_query(alloc, query, sight, around, kept)
    }
}

// Whether no more is kept, or an equal query is where as much is in sight.
fn is_done(kept: &[KeptQuery], query: &BoundQuery, sight: &InSight) -> bool {
    kept.len() >= MOST_KEPT || find(kept, query, sight).is_some()
}

// A query with a plan, once.
fn keep_once(
    alloc: Global,
    query: &BoundQuery,
    sight: &InSight,
    around: &Around,
    kept: &mut Items<KeptQuery>,
) -> Result<(), NoMemory>
    requires planned { planned (query_seen around.now.functions.now query.now) ≡ true }
    requires kept { AreKept around.now kept.old }
    ensures { OnOk result (AreKept around.now kept.new) }
{
    if is_done(kept.as_slice(), query, sight) {
        return Ok(());
    }
    let one = keep(alloc, query, sight, around)?;
    kept.push(one)?;
    Ok(())
}

// Those in a query without a plan.
#[cycle(under_rows)]
fn keep_in_query(
    alloc: Global,
    query: &BoundQuery,
    sight: &InSight,
    around: &Around,
    kept: &mut Items<KeptQuery>,
) -> Result<(), NoMemory>
    requires { AreKept around.now kept.old }
    ensures { OnOk result (AreKept around.now kept.new) }
{
    match query {
        BoundQuery::Select(select) => keep_in_select(alloc, select, sight, around, kept),
        BoundQuery::Values(rows) => keep_in_rows(alloc, rows.as_slice(), sight, around, kept),
        BoundQuery::Ordered(query, _) => keep_in_query(alloc, query.get(), sight, around, kept),
    }
}

// Those in a SELECT: of FROM, and under its rows of the conjuncts and of the list; where it is grouped
// those of the list stand under the rows of the groups.
#[cycle(under_rows)]
fn keep_in_select(
    alloc: Global,
    select: &BoundSelect,
    sight: &InSight,
    around: &Around,
    kept: &mut Items<KeptQuery>,
) -> Result<(), NoMemory>
    requires { AreKept around.now kept.old }
    ensures { OnOk result (AreKept around.now kept.new) }
{
    let from = select.from.as_slice();
    let columns = from_columns(from, around.functions.catalog());
    let list = select.items.as_slice();
    keep_in_from(alloc, from, sight, around, kept)?;
    keep_under(
        alloc,
        select.conjuncts.as_slice(),
        columns,
        sight,
        around,
        kept,
    )?;
    match &select.grouping {
        Some(grouping) => {
            keep_in_groups(alloc, grouping, columns, sight, around, kept)?;
            keep_under(alloc, list, grouping.parts.len(), sight, around, kept)
        }
        None => keep_under(alloc, list, columns, sight, around, kept),
    }
}

// Those of how a SELECT is grouped: under the rows of FROM of the parts, and under the rows of the
// groups, which have a value for each part, of HAVING.
#[cycle(under_rows)]
fn keep_in_groups(
    alloc: Global,
    grouping: &BoundGrouping,
    columns: usize,
    sight: &InSight,
    around: &Around,
    kept: &mut Items<KeptQuery>,
) -> Result<(), NoMemory>
    requires { AreKept around.now kept.old }
    ensures { OnOk result (AreKept around.now kept.new) }
{
    let parts = grouping.parts.as_slice();
    let having = grouping.having.as_slice();
    keep_under(alloc, parts, columns, sight, around, kept)?;
    keep_under(alloc, having, parts.len(), sight, around, kept)
}

// Those of FROM.
#[cycle(under_rows)]
fn keep_in_from(
    alloc: Global,
    items: &[BoundFromItem],
    sight: &InSight,
    around: &Around,
    kept: &mut Items<KeptQuery>,
) -> Result<(), NoMemory>
    requires { AreKept around.now kept.old }
    ensures { OnOk result (AreKept around.now kept.new) }
{
    let mut columns = 0;
    for item in items {
        columns = joined_columns(columns, item, around.functions.catalog());
        keep_in_item(alloc, item, columns, sight, around, kept)?;
    }
    Ok(())
}

// Those of an item of FROM, with which so many columns stand from the last comma on: they are the
// row of its ON.
#[cycle(under_rows)]
fn keep_in_item(
    alloc: Global,
    item: &BoundFromItem,
    columns: usize,
    sight: &InSight,
    around: &Around,
    kept: &mut Items<KeptQuery>,
) -> Result<(), NoMemory>
    requires { AreKept around.now kept.old }
    ensures { OnOk result (AreKept around.now kept.new) }
{
    match item {
        BoundFromItem::Comma(source) => keep_in_source(alloc, source, sight, around, kept),
        BoundFromItem::Cross(source) => keep_in_source(alloc, source, sight, around, kept),
        BoundFromItem::Inner(source, on) => {
            keep_in_source(alloc, source, sight, around, kept)?;
            keep_under(alloc, on.as_slice(), columns, sight, around, kept)
        }
        BoundFromItem::Left(source, on) => {
            keep_in_source(alloc, source, sight, around, kept)?;
            keep_under(alloc, on.as_slice(), columns, sight, around, kept)
        }
    }
}

// That of a derived table.
#[cycle(under_rows)]
fn keep_in_source(
    alloc: Global,
    source: &BoundSource,
    sight: &InSight,
    around: &Around,
    kept: &mut Items<KeptQuery>,
) -> Result<(), NoMemory>
    requires { AreKept around.now kept.old }
    ensures { OnOk result (AreKept around.now kept.new) }
{
    match source {
        BoundSource::Table(_) => Ok(()),
        BoundSource::Derived(query) => keep_query(alloc, query.get(), sight, around, kept),
    }
}

// Those of rows of VALUES.
#[cycle(under_rows)]
fn keep_in_rows(
    alloc: Global,
    rows: &[BoundRow],
    sight: &InSight,
    around: &Around,
    kept: &mut Items<KeptQuery>,
) -> Result<(), NoMemory>
    requires { AreKept around.now kept.old }
    ensures { OnOk result (AreKept around.now kept.new) }
{
    for row in rows {
        keep_in_row(alloc, row, sight, around, kept)?;
    }
    Ok(())
}

// Those of a row of VALUES.
#[cycle(under_rows)]
fn keep_in_row(
    alloc: Global,
    row: &BoundRow,
    sight: &InSight,
    around: &Around,
    kept: &mut Items<KeptQuery>,
) -> Result<(), NoMemory>
    requires { AreKept around.now kept.old }
    ensures { OnOk result (AreKept around.now kept.new) }
{
    match row {
        BoundRow::Row(values) => keep_in_exprs(alloc, values.as_slice(), sight, around, kept),
    }
}
