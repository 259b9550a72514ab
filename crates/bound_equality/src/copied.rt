//! Bound queries once more.

ghost use Rattle.std.specs.Prelude.{◌≡◌, IfOk};

use bound_trees::{
    BoundExpr, BoundFromItem, BoundGrouping, BoundLink, BoundQuery, BoundRow, BoundSelect,
    BoundSource,
};
use sql_values::NoMemory;
use sqlite_items::{Boxed, Items};
use std::alloc::Global;

// The same expression once more.
#[cycle(copied)]
fn copied_expr(alloc: Global, expr: &BoundExpr) -> Result<BoundExpr, NoMemory>
    ensures { IfOk result (λ e. e ≡ expr.now) }
{
    match expr {
        BoundExpr::Literal(value) => Ok(BoundExpr::Literal(value.copied()?)),
        BoundExpr::Column(level, place) => Ok(BoundExpr::Column(*level, *place)),
        BoundExpr::Variable(place) => Ok(BoundExpr::Variable(*place)),
        BoundExpr::Operation(word, operands) => {
            let operands = copied_exprs(alloc, operands.as_slice())?;
            Ok(BoundExpr::Operation(*word, operands))
        }
        BoundExpr::Chain(first, rest) => {
            let first = Boxed::new(alloc, copied_expr(alloc, first.get())?)?;
            let rest = copied_links(alloc, rest.as_slice())?;
            Ok(BoundExpr::Chain(first, rest))
        }
        BoundExpr::Call(name, arguments) => {
            let name = name.copied()?;
            let arguments = copied_exprs(alloc, arguments.as_slice())?;
            Ok(BoundExpr::Call(name, arguments))
        }
        BoundExpr::Single(query) => {
            let query = copied_query(alloc, query.get())?;
            Ok(BoundExpr::Single(Boxed::new(alloc, query)?))
        }
        BoundExpr::Exists(query) => {
            let query = copied_query(alloc, query.get())?;
            Ok(BoundExpr::Exists(Boxed::new(alloc, query)?))
        }
        BoundExpr::In(left, query) => {
            let left = Boxed::new(alloc, copied_expr(alloc, left.get())?)?;
            let query = Boxed::new(alloc, copied_query(alloc, query.get())?)?;
            Ok(BoundExpr::In(left, query))
        }
    }
}

// The same expressions once more.
#[cycle(copied)]
fn copied_exprs(alloc: Global, exprs: &[BoundExpr]) -> Result<Items<BoundExpr>, NoMemory>
    ensures { IfOk result (λ es. es ≡ exprs.now) }
{
    let mut copies = Items::from_vec(Vec::with_capacity(alloc, exprs.len())?);
    for expr in exprs {
        let copy = copied_expr(alloc, expr)?;
        copies.push(copy)?;
    }
    Ok(copies)
}

// The same operators with their right operands once more.
#[cycle(copied)]
fn copied_links(alloc: Global, links: &[BoundLink]) -> Result<Items<BoundLink>, NoMemory>
    ensures { IfOk result (λ ls. ls ≡ links.now) }
{
    let mut copies = Items::from_vec(Vec::with_capacity(alloc, links.len())?);
    for link in links {
        let operand = copied_expr(alloc, &link.operand)?;
        copies.push(BoundLink {
            operator: link.operator,
            operand,
        })?;
    }
    Ok(copies)
}

/// The same query once more.
#[cycle(copied)]
pub fn copied_query(alloc: Global, query: &BoundQuery) -> Result<BoundQuery, NoMemory>
    ensures { IfOk result (λ q. q ≡ query.now) }
{
    match query {
        BoundQuery::Select(select) => Ok(BoundQuery::Select(copied_select(alloc, select)?)),
        BoundQuery::Values(rows) => Ok(BoundQuery::Values(copied_rows(alloc, rows.as_slice())?)),
        BoundQuery::Ordered(query, keys) => {
            let keys = Items::from_slice(alloc, keys.as_slice())?;
            let query = Boxed::new(alloc, copied_query(alloc, query.get())?)?;
            Ok(BoundQuery::Ordered(query, keys))
        }
    }
}

// The same rows of VALUES once more.
#[cycle(copied)]
fn copied_rows(alloc: Global, rows: &[BoundRow]) -> Result<Items<BoundRow>, NoMemory>
    ensures { IfOk result (λ rs. rs ≡ rows.now) }
{
    let mut copies = Items::from_vec(Vec::with_capacity(alloc, rows.len())?);
    for row in rows {
        let copy = copied_row(alloc, row)?;
        copies.push(copy)?;
    }
    Ok(copies)
}

// The same row of VALUES once more.
#[cycle(copied)]
fn copied_row(alloc: Global, row: &BoundRow) -> Result<BoundRow, NoMemory>
    ensures { IfOk result (λ r. r ≡ row.now) }
{
    match row {
        BoundRow::Row(values) => Ok(BoundRow::Row(copied_exprs(alloc, values.as_slice())?)),
    }
}

// The same query over FROM once more.
#[cycle(copied)]
fn copied_select(alloc: Global, select: &BoundSelect) -> Result<BoundSelect, NoMemory>
    ensures { IfOk result (λ s. s ≡ select.now) }
{
    let from = copied_items(alloc, select.from.as_slice())?;
    let grouping = copied_groups(alloc, &select.grouping)?;
    let conjuncts = copied_exprs(alloc, select.conjuncts.as_slice())?;
    let items = copied_exprs(alloc, select.items.as_slice())?;
    Ok(BoundSelect {
        items,
        from,
        conjuncts,
        grouping,
    })
}

// How a query is grouped, if it is, once more.
#[cycle(copied)]
fn copied_groups(
    alloc: Global,
    grouping: &Option<BoundGrouping>,
) -> Result<Option<BoundGrouping>, NoMemory>
    ensures { IfOk result (λ g. g ≡ grouping.now) }
{
    match grouping {
        Some(grouping) => Ok(Some(copied_grouping(alloc, grouping)?)),
        None => Ok(None),
    }
}

// How a query is grouped once more.
#[cycle(copied)]
fn copied_grouping(alloc: Global, grouping: &BoundGrouping) -> Result<BoundGrouping, NoMemory>
    ensures { IfOk result (λ g. g ≡ grouping.now) }
{
    let aggregates = Items::from_slice(alloc, grouping.aggregates.as_slice())?;
    let parts = copied_exprs(alloc, grouping.parts.as_slice())?;
    let having = copied_exprs(alloc, grouping.having.as_slice())?;
    Ok(BoundGrouping {
        keys: grouping.keys,
        parts,
        aggregates,
        having,
    })
}

// The same items of FROM once more.
#[cycle(copied)]
fn copied_items(alloc: Global, items: &[BoundFromItem]) -> Result<Items<BoundFromItem>, NoMemory>
    ensures { IfOk result (λ is. is ≡ items.now) }
{
    let mut copies = Items::from_vec(Vec::with_capacity(alloc, items.len())?);
    for item in items {
        let copy = copied_item(alloc, item)?;
        copies.push(copy)?;
    }
    Ok(copies)
}

// The same item of FROM once more.
#[cycle(copied)]
fn copied_item(alloc: Global, item: &BoundFromItem) -> Result<BoundFromItem, NoMemory>
    ensures { IfOk result (λ i. i ≡ item.now) }
{
    match item {
        BoundFromItem::Comma(source) => Ok(BoundFromItem::Comma(copied_source(alloc, source)?)),
        BoundFromItem::Cross(source) => Ok(BoundFromItem::Cross(copied_source(alloc, source)?)),
        BoundFromItem::Inner(source, on) => {
            let source = copied_source(alloc, source)?;
            let on = copied_exprs(alloc, on.as_slice())?;
            Ok(BoundFromItem::Inner(source, on))
        }
        BoundFromItem::Left(source, on) => {
            let source = copied_source(alloc, source)?;
            let on = copied_exprs(alloc, on.as_slice())?;
            Ok(BoundFromItem::Left(source, on))
        }
    }
}

// The same table or derived table once more.
#[cycle(copied)]
fn copied_source(alloc: Global, source: &BoundSource) -> Result<BoundSource, NoMemory>
    ensures { IfOk result (λ s. s ≡ source.now) }
{
    match source {
        BoundSource::Table(name) => Ok(BoundSource::Table(name.copied()?)),
        BoundSource::Derived(query) => {
            let query = copied_query(alloc, query.get())?;
            Ok(BoundSource::Derived(Boxed::new(alloc, query)?))
        }
    }
}
