//! The tokens at which faults of expressions, queries and their columns are shown.

ghost use Rattle.std.specs.Prelude.{◌≡◌, map, slice_get};
ghost use Rattle.bind_simple.specs.Anchors as spec;

use sqlite_items::at;
use syntax_trees::{Anchor, Expr, Query, Select, SelectItem, ValueRow, Values};

/// Where a query stands.
pub fn anchor_of_query(query: &Query) -> Anchor
    ensures { result ≡ (spec.standing_of query.now).at }
{
    match query {
        Query::Select(select) => select.anchor,
        Query::Values(values) => values.anchor,
    }
}

/// Where an expression stands.
pub(crate) fn anchor_of(expr: &Expr) -> Anchor
    ensures { result ≡ spec.anchor_of expr.now }
{
    match expr {
        Expr::Literal(at, _) => *at,
        Expr::Name(column) => column.anchor(),
        Expr::Call(ident, _) => ident.anchor,
        Expr::Operation(at, _, _) => *at,
        Expr::Aggregate(at, _, _) => *at,
        Expr::Chain(first, links) => match links.as_slice() {
            [link, ..] => link.anchor,
            [] => anchor_of(first.get()),
        },
        Expr::Subquery(query) => anchor_of_query(query.get()),
        Expr::Exists(at, _) => *at,
        Expr::InQuery(at, _, _, _) => *at,
    }
}

fn anchor_of_item(item: &SelectItem) -> Anchor
    ensures { result ≡ spec.anchor_of_item item.now }
{
    match item {
        SelectItem::All(at) => *at,
        SelectItem::Value(expr, _) => anchor_of(expr),
    }
}

// The item at a place, or another place.
fn anchor_in_items(items: &[SelectItem], place: usize, other: Anchor) -> Anchor
    ensures { result ≡ spec.given_or other (slice_get (map spec.anchor_of_item items.now) place) }
{
    match at(items, place) {
        Some(item) => anchor_of_item(item),
        None => other,
    }
}

// The first item, or another place.
fn first_anchor(items: &[SelectItem], other: Anchor) -> Anchor
    ensures { result ≡ spec.first_or other (map spec.anchor_of_item items.now) }
{
    match items {
        [item, ..] => anchor_of_item(item),
        [] => other,
    }
}

// The column at a place of a select list, or that of `*`.
fn anchor_in_list(select: &Select, place: usize) -> Anchor
    ensures { result ≡ (spec.standing_of_select select.now).column place }
{
    let items = select.items.as_slice();
    let first = first_anchor(items, select.anchor);
    anchor_in_items(items, place, first)
}

// The expression at a place, or another place.
fn anchor_in_exprs(exprs: &[Expr], place: usize, other: Anchor) -> Anchor
    ensures { result ≡ spec.given_or other (slice_get (map spec.anchor_of exprs.now) place) }
{
    match at(exprs, place) {
        Some(expr) => anchor_of(expr),
        None => other,
    }
}

fn anchor_in_row(row: &ValueRow, place: usize, other: Anchor) -> Anchor
    ensures { result ≡ spec.given_or other (slice_get (spec.anchors_of_row row.now) place) }
{
    match row {
        ValueRow::Row(exprs) => anchor_in_exprs(exprs.as_slice(), place, other),
    }
}

// The value at a place of the first row.
fn anchor_in_rows(values: &Values, place: usize) -> Anchor
    ensures { result ≡ (spec.standing_of_values values.now).column place }
{
    match values.rows.as_slice() {
        [row, ..] => anchor_in_row(row, place, values.anchor),
        [] => values.anchor,
    }
}

/// Where the column at a place of a query stands.
pub fn anchor_of_column(query: &Query, place: usize) -> Anchor
    ensures { result ≡ spec.column_at query.now place }
{
    match query {
        Query::Select(select) => anchor_in_list(select, place),
        Query::Values(values) => anchor_in_rows(values, place),
    }
}
