//! What the functions weigh together that a bound tree calls.

ghost use Rattle.std.specs.Prelude.{◌≡◌, map};
ghost use Rattle.std.specs.Option.{option_map};
ghost use Rattle.routine_form.specs.Calls as spec;
ghost use Rattle.routine_form.specs.Sums.{total};

use crate::sum::{HEAVIEST, add};
use bound_trees::{
    BoundExpr, BoundFromItem, BoundGrouping, BoundLink, BoundQuery, BoundRow, BoundSelect,
    BoundSource,
};
use catalog_store::{Catalog, Object};
use sql_values::Name;

fn weight_named(catalog: &Catalog, name: &Name) -> u32
    ensures { result ≡ spec.weight_named catalog.now name.now }
{
    match catalog.get(name) {
        Some(Object::Function(function)) => function.head.weight,
        Some(Object::Interpreted(function)) => function.head.weight,
        Some(Object::Procedure(_)) => HEAVIEST,
        Some(Object::Table(_)) => HEAVIEST,
        None => HEAVIEST,
    }
}

/// What the functions weigh that an expression calls, each as often as it is called.
#[cycle(calls)]
pub(crate) fn calls_in(expr: &BoundExpr, catalog: &Catalog) -> u32
    ensures { result ≡ spec.calls_in catalog.now expr.now }
{
    match expr {
        BoundExpr::Literal(_) => 0,
        BoundExpr::Column(_, _) => 0,
        BoundExpr::Variable(_) => 0,
        BoundExpr::Operation(_, operands) => calls_in_all(operands.as_slice(), catalog),
        BoundExpr::Chain(first, rest) => {
            let links = calls_in_links(rest.as_slice(), catalog);
            add(calls_in(first.get(), catalog), links)
        }
        BoundExpr::Call(name, arguments) => {
            let inside = calls_in_all(arguments.as_slice(), catalog);
            add(weight_named(catalog, name), inside)
        }
        BoundExpr::Single(query) => calls_in_query(query.get(), catalog),
        BoundExpr::Exists(query) => calls_in_query(query.get(), catalog),
        BoundExpr::In(left, query) => {
            let rows = calls_in_query(query.get(), catalog);
            add(calls_in(left.get(), catalog), rows)
        }
    }
}

#[cycle(calls)]
fn calls_in_all(exprs: &[BoundExpr], catalog: &Catalog) -> u32
    ensures { result ≡ total (map (spec.calls_in catalog.now) exprs.now) }
{
    let mut calls = 0;
    for expr in exprs {
        calls = add(calls, calls_in(expr, catalog));
    }
    calls
}

#[cycle(calls)]
fn calls_in_links(links: &[BoundLink], catalog: &Catalog) -> u32
    ensures { result ≡ total (map (spec.calls_in_link catalog.now) links.now) }
{
    let mut calls = 0;
    for link in links {
        calls = add(calls, calls_in(&link.operand, catalog));
    }
    calls
}

/// The same of a query.
#[cycle(calls)]
pub(crate) fn calls_in_query(query: &BoundQuery, catalog: &Catalog) -> u32
    ensures { result ≡ spec.calls_in_query catalog.now query.now }
{
    match query {
        BoundQuery::Select(select) => calls_in_select(select, catalog),
        BoundQuery::Values(rows) => calls_in_rows(rows.as_slice(), catalog),
        BoundQuery::Ordered(query, _) => calls_in_query(query.get(), catalog),
    }
}

#[cycle(calls)]
fn calls_in_rows(rows: &[BoundRow], catalog: &Catalog) -> u32
    ensures { result ≡ total (map (spec.calls_in_row catalog.now) rows.now) }
{
    let mut calls = 0;
    for row in rows {
        calls = add(calls, calls_in_row(row, catalog));
    }
    calls
}

#[cycle(calls)]
fn calls_in_row(row: &BoundRow, catalog: &Catalog) -> u32
    ensures { result ≡ spec.calls_in_row catalog.now row.now }
{
    match row {
        BoundRow::Row(values) => calls_in_all(values.as_slice(), catalog),
    }
}

#[cycle(calls)]
fn calls_in_select(select: &BoundSelect, catalog: &Catalog) -> u32
    ensures { result ≡ spec.calls_in_select catalog.now select.now }
{
    let groups = match &select.grouping {
        Some(grouping) => calls_in_grouping(grouping, catalog),
        None => 0,
    };
    let conjuncts = calls_in_all(select.conjuncts.as_slice(), catalog);
    let from = calls_in_from(select.from.as_slice(), catalog);
    let items = calls_in_all(select.items.as_slice(), catalog);
    add(items, add(from, add(conjuncts, groups)))
}

#[cycle(calls)]
fn calls_in_grouping(grouping: &BoundGrouping, catalog: &Catalog) -> u32
    ensures { result ≡ spec.calls_in_grouping catalog.now grouping.now }
{
    let having = calls_in_all(grouping.having.as_slice(), catalog);
    add(calls_in_all(grouping.parts.as_slice(), catalog), having)
}

#[cycle(calls)]
fn calls_in_from(items: &[BoundFromItem], catalog: &Catalog) -> u32
    ensures { result ≡ total (map (spec.calls_in_item catalog.now) items.now) }
{
    let mut calls = 0;
    for item in items {
        calls = add(calls, calls_in_item(item, catalog));
    }
    calls
}

#[cycle(calls)]
fn calls_in_item(item: &BoundFromItem, catalog: &Catalog) -> u32
    ensures { result ≡ spec.calls_in_item catalog.now item.now }
{
    match item {
        BoundFromItem::Comma(source) => calls_in_source(source, catalog),
        BoundFromItem::Cross(source) => calls_in_source(source, catalog),
        BoundFromItem::Inner(source, on) => {
            let tests = calls_in_all(on.as_slice(), catalog);
            add(calls_in_source(source, catalog), tests)
        }
        BoundFromItem::Left(source, on) => {
            let tests = calls_in_all(on.as_slice(), catalog);
            add(calls_in_source(source, catalog), tests)
        }
    }
}

#[cycle(calls)]
fn calls_in_source(source: &BoundSource, catalog: &Catalog) -> u32
    ensures { result ≡ spec.calls_in_source catalog.now source.now }
{
    match source {
        BoundSource::Table(_) => 0,
        BoundSource::Derived(query) => calls_in_query(query.get(), catalog),
    }
}

/// The same of an expression that may be left out.
pub(crate) fn calls_if_there(expr: &Option<BoundExpr>, catalog: &Catalog) -> u32
    ensures { result ≡ spec.calls_if_there catalog.now expr.now }
{
    match expr {
        Some(expr) => calls_in(expr, catalog),
        None => 0,
    }
}
