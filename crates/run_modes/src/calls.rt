//! Whether a query calls a function, wherever in it an expression stands.

ghost use Rattle.std.specs.Prelude.{◌≡◌, map};
ghost use Rattle.catalog_store.specs.Uses as uses;
ghost use Rattle.run_modes.specs.Modes as spec;

use bound_trees::{
    BoundExpr, BoundFromItem, BoundGrouping, BoundLink, BoundQuery, BoundRow, BoundSelect,
    BoundSource,
};

#[cycle(calls)]
fn expr_calls(expr: &BoundExpr) -> bool
    ensures { result ≡ spec.has_call (uses.uses_in expr.now) }
{
    match expr {
        BoundExpr::Literal(_) => false,
        BoundExpr::Column(_, _) => false,
        BoundExpr::Variable(_) => false,
        BoundExpr::Operation(_, operands) => any_calls(operands.as_slice()),
        BoundExpr::Chain(first, rest) => {
            expr_calls(first.get()) || any_link_calls(rest.as_slice())
        }
        BoundExpr::Call(_, _) => true,
        BoundExpr::Single(query) => query_calls(query.get()),
        BoundExpr::Exists(query) => query_calls(query.get()),
        BoundExpr::In(left, query) => expr_calls(left.get()) || query_calls(query.get()),
    }
}

#[cycle(calls)]
fn any_calls(exprs: &[BoundExpr]) -> bool
    ensures { result ≡ spec.has_call (uses.joined (map uses.uses_in exprs.now)) }
{
    for expr in exprs {
        if expr_calls(expr) {
            return true;
        }
    }
    false
}

#[cycle(calls)]
fn any_link_calls(links: &[BoundLink]) -> bool
    ensures { result ≡ spec.has_call (uses.joined (map uses.uses_in_link links.now)) }
{
    for link in links {
        if expr_calls(&link.operand) {
            return true;
        }
    }
    false
}

#[cycle(calls)]
fn query_calls(query: &BoundQuery) -> bool
    ensures { result ≡ spec.has_call (uses.uses_in_query query.now) }
{
    match query {
        BoundQuery::Select(select) => select_calls(select),
        BoundQuery::Values(rows) => any_row_calls(rows.as_slice()),
        BoundQuery::Ordered(query, _) => query_calls(query.get()),
    }
}

#[cycle(calls)]
fn any_row_calls(rows: &[BoundRow]) -> bool
    ensures { result ≡ spec.has_call (uses.joined (map uses.uses_in_row rows.now)) }
{
    for row in rows {
        if row_calls(row) {
            return true;
        }
    }
    false
}

#[cycle(calls)]
fn row_calls(row: &BoundRow) -> bool
    ensures { result ≡ spec.has_call (uses.uses_in_row row.now) }
{
    match row {
        BoundRow::Row(values) => any_calls(values.as_slice()),
    }
}

#[cycle(calls)]
fn select_calls(select: &BoundSelect) -> bool
    ensures { result ≡ spec.has_call (uses.uses_in_select select.now) }
{
    let groups = match &select.grouping {
        Some(grouping) => grouping_calls(grouping),
        None => false,
    };
    let from = any_item_calls(select.from.as_slice());
    let conjuncts = any_calls(select.conjuncts.as_slice());
    let items = any_calls(select.items.as_slice());
    from || conjuncts || groups || items
}

#[cycle(calls)]
fn grouping_calls(grouping: &BoundGrouping) -> bool
    ensures { result ≡ spec.has_call (uses.uses_in_grouping grouping.now) }
{
    any_calls(grouping.parts.as_slice()) || any_calls(grouping.having.as_slice())
}

#[cycle(calls)]
fn any_item_calls(items: &[BoundFromItem]) -> bool
    ensures { result ≡ spec.has_call (uses.joined (map uses.uses_in_item items.now)) }
{
    for item in items {
        if item_calls(item) {
            return true;
        }
    }
    false
}

#[cycle(calls)]
fn item_calls(item: &BoundFromItem) -> bool
    ensures { result ≡ spec.has_call (uses.uses_in_item item.now) }
{
    match item {
        BoundFromItem::Comma(source) => source_calls(source),
        BoundFromItem::Cross(source) => source_calls(source),
        BoundFromItem::Inner(source, on) => source_calls(source) || any_calls(on.as_slice()),
        BoundFromItem::Left(source, on) => source_calls(source) || any_calls(on.as_slice()),
    }
}

#[cycle(calls)]
fn source_calls(source: &BoundSource) -> bool
    ensures { result ≡ spec.has_call (uses.uses_in_source source.now) }
{
    match source {
        BoundSource::Table(_) => false,
        BoundSource::Derived(query) => query_calls(query.get()),
    }
}

/// Whether a query calls a function anywhere: in a select list, a condition, a group, a row of
/// VALUES, an argument or a query inside it. Takes no memory.
pub fn calls_function(query: &BoundQuery) -> bool
    ensures { result ≡ spec.calls_function query.now }
{
    query_calls(query)
}
