//! Whether a query is grouped (ISO/IEC 9075-2, 7.13 and 7.16).

ghost use Rattle.std.specs.Prelude.{◌≡◌, map};
ghost use Rattle.std.specs.List.{list_any};
ghost use Rattle.bind_queries.specs.Judges as spec;
ghost use Rattle.bind_queries.specs.Queries.{expression, judged_link, select_item, maybe, items_of};
ghost use Rattle.bind_queries.specs.Queries.{grouping_columns, having_of};
ghost use Rattle.bind_queries.specs.Selects.{grouped};

use bind_parts::is_grouped;
use syntax_trees::{ColumnName, Expr, Link, Select, SelectItem};

// Whether an aggregate stands directly in an expression.
#[cycle(aggregate)]
fn has_aggregate(expr: &Expr) -> bool
    ensures { result ≡ (expression expr.now).aggregates }
{
    match expr {
        Expr::Literal(_, _) => false,
        Expr::Name(_) => false,
        Expr::Call(_, args) => any_has(args.as_slice()),
        Expr::Operation(_, _, operands) => any_has(operands.as_slice()),
        Expr::Aggregate(_, _, _) => true,
        Expr::Chain(first, links) => has_aggregate(first.get()) || any_link_has(links.as_slice()),
        Expr::Subquery(_) => false,
        Expr::Exists(_, _) => false,
        Expr::InQuery(_, _, left, _) => has_aggregate(left.get()),
    }
}

#[cycle(aggregate)]
fn any_has(exprs: &[Expr]) -> bool
    ensures { result ≡ spec.any_aggregate (map expression exprs.now) }
{
    for expr in exprs {
        if has_aggregate(expr) {
            return true;
        }
    }
    false
}

#[cycle(aggregate)]
fn any_link_has(links: &[Link]) -> bool
    ensures { result ≡ spec.any_in_links (map judged_link links.now) }
{
    for link in links {
        if has_aggregate(&link.operand) {
            return true;
        }
    }
    false
}

fn item_has_aggregate(item: &SelectItem) -> bool
    ensures { result ≡ (select_item item.now).aggregates }
{
    match item {
        SelectItem::All(_) => false,
        SelectItem::Value(expr, _) => has_aggregate(expr),
    }
}

fn any_item_has(items: &[SelectItem]) -> bool
    ensures { result ≡ list_any (λ i. i.aggregates) (map select_item items.now) }
{
    for item in items {
        if item_has_aggregate(item) {
            return true;
        }
    }
    false
}

/// Whether a query of these parts is grouped: by GROUP BY, by HAVING, or by an aggregate in its
/// list.
pub fn is_grouped_by(items: &[SelectItem], group_by: &[ColumnName], having: &Option<Expr>) -> bool
    ensures { result ≡ grouped (map select_item items.now) group_by.now (maybe having.now) }
{
    is_grouped(any_item_has(items), group_by, having.is_some())
}

/// Whether a query is grouped.
pub(crate) fn is_grouped_select(select: &Select) -> bool
    ensures { result ≡ grouped (items_of select.now) (grouping_columns select.now)
        (having_of select.now) }
{
    is_grouped_by(
        select.items.as_slice(),
        select.group_by.as_slice(),
        &select.having,
    )
}
