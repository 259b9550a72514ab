//! Whether two bound queries are equal.

ghost use Rattle.std.specs.Prelude.{◌≡◌, ◌↔◌, IsTrue};

use crate::leaves::{
    is_column, is_literal, is_table, is_variable, same_folds, same_keys, same_name, same_operator,
    same_word,
};
use bound_trees::{
    BoundExpr, BoundFromItem, BoundGrouping, BoundLink, BoundQuery, BoundRow, BoundSelect,
    BoundSource,
};

// Two expressions.
#[cycle(same)]
fn same_expr(one: &BoundExpr, other: &BoundExpr) -> bool
    ensures { IsTrue result ↔ (one.now ≡ other.now) }
{
    match one {
        BoundExpr::Literal(value) => is_literal(value, other),
        BoundExpr::Column(level, place) => is_column(*level, *place, other),
        BoundExpr::Variable(place) => is_variable(*place, other),
        BoundExpr::Operation(word, operands) => match other {
            BoundExpr::Operation(another, others) => {
                same_word(*word, *another) && same_exprs(operands.as_slice(), others.as_slice())
            }
            _ => false,
        },
        BoundExpr::Chain(first, rest) => match other {
            BoundExpr::Chain(another, others) => {
                same_expr(first.get(), another.get())
                    && same_links(rest.as_slice(), others.as_slice())
            }
            _ => false,
        },
        BoundExpr::Call(name, arguments) => match other {
            BoundExpr::Call(another, others) => {
                same_name(name, another) && same_exprs(arguments.as_slice(), others.as_slice())
            }
            _ => false,
        },
        BoundExpr::Single(query) => match other {
            BoundExpr::Single(another) => same_query(query.get(), another.get()),
            _ => false,
        },
        BoundExpr::Exists(query) => match other {
            BoundExpr::Exists(another) => same_query(query.get(), another.get()),
            _ => false,
        },
        BoundExpr::In(left, query) => match other {
            BoundExpr::In(another, rows) => {
                same_expr(left.get(), another.get()) && same_query(query.get(), rows.get())
            }
            _ => false,
        },
    }
}

// Two lists of expressions.
#[cycle(same)]
fn same_exprs(one: &[BoundExpr], other: &[BoundExpr]) -> bool
    ensures { IsTrue result ↔ (one.now ≡ other.now) }
{
    if one.len() != other.len() {
        return false;
    }
    for (i, expr) in one.iter().enumerate() {
        if !same_expr(expr, &other[i]) {
            return false;
        }
    }
    true
}

// Two chains after their first operands.
#[cycle(same)]
fn same_links(one: &[BoundLink], other: &[BoundLink]) -> bool
    ensures { IsTrue result ↔ (one.now ≡ other.now) }
{
    if one.len() != other.len() {
        return false;
    }
    for (i, link) in one.iter().enumerate() {
        if !same_link(link, &other[i]) {
            return false;
        }
    }
    true
}

// Two operators with what stands right of them.
#[cycle(same)]
fn same_link(one: &BoundLink, other: &BoundLink) -> bool
    ensures { IsTrue result ↔ (one.now ≡ other.now) }
{
    same_operator(one.operator, other.operator) && same_expr(&one.operand, &other.operand)
}

/// Whether two queries are equal: names, places, values and the order of all parts.
#[cycle(same)]
pub fn same_query(one: &BoundQuery, other: &BoundQuery) -> bool
    ensures { IsTrue result ↔ (one.now ≡ other.now) }
{
    match one {
        BoundQuery::Select(select) => match other {
            BoundQuery::Select(another) => same_select(select, another),
            _ => false,
        },
        BoundQuery::Values(rows) => match other {
            BoundQuery::Values(others) => same_rows(rows.as_slice(), others.as_slice()),
            _ => false,
        },
        BoundQuery::Ordered(query, keys) => match other {
            BoundQuery::Ordered(another, others) => {
                same_keys(keys.as_slice(), others.as_slice())
                    && same_query(query.get(), another.get())
            }
            _ => false,
        },
    }
}

// Two lists of rows of VALUES.
#[cycle(same)]
fn same_rows(one: &[BoundRow], other: &[BoundRow]) -> bool
    ensures { IsTrue result ↔ (one.now ≡ other.now) }
{
    if one.len() != other.len() {
        return false;
    }
    for (i, row) in one.iter().enumerate() {
        if !same_row(row, &other[i]) {
            return false;
        }
    }
    true
}

// Two rows of VALUES.
#[cycle(same)]
fn same_row(one: &BoundRow, other: &BoundRow) -> bool
    ensures { IsTrue result ↔ (one.now ≡ other.now) }
{
    match one {
        BoundRow::Row(values) => match other {
            BoundRow::Row(others) => same_exprs(values.as_slice(), others.as_slice()),
        },
    }
}

// Two queries over FROM.
#[cycle(same)]
fn same_select(one: &BoundSelect, other: &BoundSelect) -> bool
    ensures { IsTrue result ↔ (one.now ≡ other.now) }
{
    same_exprs(one.items.as_slice(), other.items.as_slice())
        && same_items(one.from.as_slice(), other.from.as_slice())
        && same_exprs(one.conjuncts.as_slice(), other.conjuncts.as_slice())
        && same_groups(&one.grouping, &other.grouping)
}

// How two queries are grouped, if they are.
#[cycle(same)]
fn same_groups(one: &Option<BoundGrouping>, other: &Option<BoundGrouping>) -> bool
    ensures { IsTrue result ↔ (one.now ≡ other.now) }
{
    match one {
        None => other.is_none(),
        Some(grouping) => match other {
            Some(another) => same_grouping(grouping, another),
            None => false,
        },
    }
}

// How two queries are grouped.
#[cycle(same)]
fn same_grouping(one: &BoundGrouping, other: &BoundGrouping) -> bool
    ensures { IsTrue result ↔ (one.now ≡ other.now) }
{
    one.keys == other.keys
        && same_exprs(one.parts.as_slice(), other.parts.as_slice())
        && same_folds(one.aggregates.as_slice(), other.aggregates.as_slice())
        && same_exprs(one.having.as_slice(), other.having.as_slice())
}

// Two FROMs.
#[cycle(same)]
fn same_items(one: &[BoundFromItem], other: &[BoundFromItem]) -> bool
    ensures { IsTrue result ↔ (one.now ≡ other.now) }
{
    if one.len() != other.len() {
        return false;
    }
    for (i, item) in one.iter().enumerate() {
        if !same_item(item, &other[i]) {
            return false;
        }
    }
    true
}

// Two items of FROM.
#[cycle(same)]
fn same_item(one: &BoundFromItem, other: &BoundFromItem) -> bool
    ensures { IsTrue result ↔ (one.now ≡ other.now) }
{
    match one {
        BoundFromItem::Comma(source) => match other {
            BoundFromItem::Comma(another) => same_source(source, another),
            _ => false,
        },
        BoundFromItem::Cross(source) => match other {
            BoundFromItem::Cross(another) => same_source(source, another),
            _ => false,
        },
        BoundFromItem::Inner(source, on) => match other {
            BoundFromItem::Inner(another, tests) => {
                same_source(source, another) && same_exprs(on.as_slice(), tests.as_slice())
            }
            _ => false,
        },
        BoundFromItem::Left(source, on) => match other {
            BoundFromItem::Left(another, tests) => {
                same_source(source, another) && same_exprs(on.as_slice(), tests.as_slice())
            }
            _ => false,
        },
    }
}

// Two tables or derived tables.
#[cycle(same)]
fn same_source(one: &BoundSource, other: &BoundSource) -> bool
    ensures { IsTrue result ↔ (one.now ≡ other.now) }
{
    match one {
        BoundSource::Table(name) => is_table(name, other),
        BoundSource::Derived(query) => match other {
            BoundSource::Derived(another) => same_query(query.get(), another.get()),
            _ => false,
        },
    }
}
