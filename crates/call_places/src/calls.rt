//! The places where a query calls functions, wherever in it an expression stands.

ghost use Rattle.std.specs.Prelude.{◌≡◌, map};
ghost use Rattle.rel_algebra.specs.Applies.{counted};
ghost use Rattle.catalog_store.specs.Uses as uses;
ghost use Rattle.call_places.specs.Found.{with_uses};
ghost use Rattle.call_places.specs.Places.{inlined_places, interpreted_places};

use crate::places::{CallPlaces, with_call};
use block_plans::Functions;
use bound_trees::{
    BoundExpr, BoundFromItem, BoundGrouping, BoundLink, BoundQuery, BoundRow, BoundSelect,
    BoundSource,
};

// The places that were found before, with those in an expression.
#[cycle(calls)]
fn with_expr(expr: &BoundExpr, functions: &Functions, found: CallPlaces) -> CallPlaces
    ensures { result ≡ with_uses functions.now found (uses.uses_in expr.now) }
{
    match expr {
        BoundExpr::Literal(_) => found,
        BoundExpr::Column(_, _) => found,
        BoundExpr::Variable(_) => found,
        BoundExpr::Operation(_, operands) => with_exprs(operands.as_slice(), functions, found),
        BoundExpr::Chain(first, rest) => {
            let inside = with_expr(first.get(), functions, found);
            with_links(rest.as_slice(), functions, inside)
        }
        BoundExpr::Call(name, arguments) => {
            let inside = with_call(found, functions, name, arguments.len());
            with_exprs(arguments.as_slice(), functions, inside)
        }
        BoundExpr::Single(query) => with_query(query.get(), functions, found),
        BoundExpr::Exists(query) => with_query(query.get(), functions, found),
        BoundExpr::In(left, query) => {
            let inside = with_expr(left.get(), functions, found);
            with_query(query.get(), functions, inside)
        }
    }
}

#[cycle(calls)]
fn with_exprs(exprs: &[BoundExpr], functions: &Functions, found: CallPlaces) -> CallPlaces
    ensures { result ≡ with_uses functions.now found (uses.joined (map uses.uses_in exprs.now)) }
{
    let mut total = found;
    for expr in exprs {
        total = with_expr(expr, functions, total);
    }
    total
}

#[cycle(calls)]
fn with_links(links: &[BoundLink], functions: &Functions, found: CallPlaces) -> CallPlaces
    ensures { result ≡ with_uses functions.now found
        (uses.joined (map uses.uses_in_link links.now)) }
{
    let mut total = found;
    for link in links {
        total = with_expr(&link.operand, functions, total);
    }
    total
}

#[cycle(calls)]
fn with_query(query: &BoundQuery, functions: &Functions, found: CallPlaces) -> CallPlaces
    ensures { result ≡ with_uses functions.now found (uses.uses_in_query query.now) }
{
    match query {
        BoundQuery::Select(select) => with_select(select, functions, found),
        BoundQuery::Values(rows) => with_rows(rows.as_slice(), functions, found),
        BoundQuery::Ordered(query, _) => with_query(query.get(), functions, found),
    }
}

#[cycle(calls)]
fn with_rows(rows: &[BoundRow], functions: &Functions, found: CallPlaces) -> CallPlaces
    ensures { result ≡ with_uses functions.now found (uses.joined (map uses.uses_in_row rows.now)) }
{
    let mut total = found;
    for row in rows {
        total = with_row(row, functions, total);
    }
    total
}

#[cycle(calls)]
fn with_row(row: &BoundRow, functions: &Functions, found: CallPlaces) -> CallPlaces
    ensures { result ≡ with_uses functions.now found (uses.uses_in_row row.now) }
{
    match row {
        BoundRow::Row(values) => with_exprs(values.as_slice(), functions, found),
    }
}

#[cycle(calls)]
fn with_select(select: &BoundSelect, functions: &Functions, found: CallPlaces) -> CallPlaces
    ensures { result ≡ with_uses functions.now found (uses.uses_in_select select.now) }
{
    let from = with_items(select.from.as_slice(), functions, found);
    let conjuncts = with_exprs(select.conjuncts.as_slice(), functions, from);
    let groups = match &select.grouping {
        Some(grouping) => with_grouping(grouping, functions, conjuncts),
        None => conjuncts,
    };
    with_exprs(select.items.as_slice(), functions, groups)
}

#[cycle(calls)]
fn with_grouping(grouping: &BoundGrouping, functions: &Functions, found: CallPlaces) -> CallPlaces
    ensures { result ≡ with_uses functions.now found (uses.uses_in_grouping grouping.now) }
{
    let parts = with_exprs(grouping.parts.as_slice(), functions, found);
    with_exprs(grouping.having.as_slice(), functions, parts)
}

#[cycle(calls)]
fn with_items(items: &[BoundFromItem], functions: &Functions, found: CallPlaces) -> CallPlaces
    ensures { result ≡ with_uses functions.now found
        (uses.joined (map uses.uses_in_item items.now)) }
{
    let mut total = found;
    for item in items {
        total = with_item(item, functions, total);
    }
    total
}

#[cycle(calls)]
fn with_item(item: &BoundFromItem, functions: &Functions, found: CallPlaces) -> CallPlaces
    ensures { result ≡ with_uses functions.now found (uses.uses_in_item item.now) }
{
    match item {
        BoundFromItem::Comma(source) => with_source(source, functions, found),
        BoundFromItem::Cross(source) => with_source(source, functions, found),
        BoundFromItem::Inner(source, on) => {
            let inside = with_source(source, functions, found);
            with_exprs(on.as_slice(), functions, inside)
        }
        BoundFromItem::Left(source, on) => {
            let inside = with_source(source, functions, found);
            with_exprs(on.as_slice(), functions, inside)
        }
    }
}

#[cycle(calls)]
fn with_source(source: &BoundSource, functions: &Functions, found: CallPlaces) -> CallPlaces
    ensures { result ≡ with_uses functions.now found (uses.uses_in_source source.now) }
{
    match source {
        BoundSource::Table(_) => found,
        BoundSource::Derived(query) => with_query(query.get(), functions, found),
    }
}

/// In how many places of its text a query calls what has a plan, a function of the catalog or a
/// block, and in how many what has none: subqueries and arguments are counted, the bodies of what
/// is called are not. Takes no memory.
pub fn call_places(query: &BoundQuery, functions: &Functions) -> CallPlaces
    ensures inlined { result.inlined ≡ counted (inlined_places functions.now query.now) }
    ensures interpreted { result.interpreted ≡ counted
        (interpreted_places functions.now query.now) }
{
    let none = CallPlaces {
        inlined: 0,
        interpreted: 0,
    };
    with_query(query, functions, none)
}
