//! Whether a bound query has a plan.

ghost use Rattle.std.specs.Prelude.{◌≡◌, ◌&&◌, ℕ, map, true};
ghost use Rattle.std.specs.Option.{option_map};
ghost use Rattle.bound_trees.specs.declared.query.BoundSelect.{out-BoundSelect};
ghost use Rattle.rel_algebra.specs.Joins.{rows_width};
ghost use Rattle.rel_algebra.specs.Plain as plain;
ghost use Rattle.rel_algebra.specs.Tree.{count as columns};
ghost use Rattle.catalog_store.specs.Catalog.{routine_named};
ghost use Rattle.block_plans.specs.Callees.{Callees, callee};
ghost use Rattle.block_plans.specs.View as view;
ghost use Rattle.planned_queries.specs.Planned as spec;

use block_plans::Functions;
use bound_trees::{
    BoundExpr, BoundFromItem, BoundGrouping, BoundLink, BoundQuery, BoundRow, BoundSelect,
    BoundSource,
};
use catalog_store::{Catalog, Object};
use sql_values::Name;

// Whether a name is that of a function with a plan in the catalog. The body of each is one RETURN,
// so that it is called with any number of values.
fn named_planned(name: &Name, catalog: &Catalog) -> bool
    ensures planned { result ≡ plain.planned_routine (routine_named name.now catalog.now) }
    ensures called { (n : ℕ) →
        (result && plain.as_many (routine_named name.now catalog.now) n) ≡ result }
{
    match catalog.get(name) {
        Some(Object::Function(_)) => true,
        Some(Object::Table(_)) => false,
        Some(Object::Interpreted(_)) => false,
        Some(Object::Procedure(_)) => false,
        None => false,
    }
}

/// Whether what a call of a name with so many arguments runs has a plan, and then takes as many.
pub fn callee_planned(name: &Name, count: usize, functions: &Functions) -> bool
    ensures planned { result ≡ plain.planned_routine (callee functions.now name.now count) }
    ensures called { result ≡ true →
        plain.as_many (callee functions.now name.now count) count ≡ true }
{
    match functions.block(name, count) {
        Some(_) => true,
        None => named_planned(name, functions.catalog()),
    }
}

/// Whether an expression has a plan: what each of its calls runs has one.
#[cycle(planned)]
pub fn is_planned_expr(expr: &BoundExpr, functions: &Functions) -> bool
    ensures { result ≡ plain.planned_expr (view.expr_seen functions.now expr.now) }
{
    match expr {
        BoundExpr::Literal(_) => true,
        BoundExpr::Column(_, _) => true,
        BoundExpr::Variable(_) => true,
        // over another number of operands than it takes a word is NULL
        BoundExpr::Operation(word, operands) => {
            !word.takes(operands.len()) || all_planned(operands.as_slice(), functions)
        }
        BoundExpr::Chain(first, rest) => {
            is_planned_expr(first.get(), functions) && links_planned(rest.as_slice(), functions)
        }
        BoundExpr::Call(name, arguments) => {
            callee_planned(name, arguments.len(), functions)
                && all_planned(arguments.as_slice(), functions)
        }
        BoundExpr::Single(query) => is_planned(query.get(), functions),
        BoundExpr::Exists(query) => is_planned(query.get(), functions),
        BoundExpr::In(left, query) => {
            is_planned_expr(left.get(), functions) && is_planned(query.get(), functions)
        }
    }
}

#[cycle(planned)]
fn all_planned(exprs: &[BoundExpr], functions: &Functions) -> bool
    ensures { result ≡ plain.planned_all (view.exprs_seen functions.now exprs.now) }
{
    for expr in exprs {
        if !is_planned_expr(expr, functions) {
            return false;
        }
    }
    true
}

#[cycle(planned)]
fn links_planned(links: &[BoundLink], functions: &Functions) -> bool
    ensures { result ≡ plain.planned_links (view.links_seen functions.now links.now) }
{
    for link in links {
        if !is_planned_expr(&link.operand, functions) {
            return false;
        }
    }
    true
}

/// Whether a query has a plan: what each of its calls runs has one, and the rows of each VALUES are
/// of one length.
#[cycle(planned)]
pub fn is_planned(query: &BoundQuery, functions: &Functions) -> bool
    ensures { result ≡ plain.planned (view.query_seen functions.now query.now) }
{
    match query {
        BoundQuery::Select(select) => select_planned(select, functions),
        BoundQuery::Values(rows) => {
            let width = first_width(rows.as_slice());
            rows_planned(rows.as_slice(), width, functions)
        }
        BoundQuery::Ordered(query, _) => is_planned(query.get(), functions),
    }
}

// The values of a row of VALUES.
fn values_in(row: &BoundRow) -> &[BoundExpr]
    ensures { (known : Callees) → view.exprs_seen known result.now ≡ view.row_seen known row.now }
{
    match row {
        BoundRow::Row(values) => values.as_slice(),
    }
}

// How many columns a row of VALUES has.
fn row_width(row: &BoundRow) -> usize
    ensures { (known : Callees) → result ≡ columns (view.row_seen known row.now) }
{
    values_in(row).len()
}

// The number of columns of the first row; 0 where there is none.
fn first_width(rows: &[BoundRow]) -> usize
    ensures { (known : Callees) → result ≡ rows_width (view.rows_seen known rows.now) }
{
    match rows.first() {
        Some(row) => row_width(row),
        None => 0,
    }
}

// Whether rows have so many columns each, and plans.
#[cycle(planned)]
fn rows_planned(rows: &[BoundRow], width: usize, functions: &Functions) -> bool
    ensures { result ≡ spec.rows_planned width (view.rows_seen functions.now rows.now) }
{
    for row in rows {
        if !row_planned(row, width, functions) {
            return false;
        }
    }
    true
}

#[cycle(planned)]
fn row_planned(row: &BoundRow, width: usize, functions: &Functions) -> bool
    ensures { result ≡ spec.row_planned width (view.row_seen functions.now row.now) }
{
    match row {
        BoundRow::Row(values) => values_planned(values.as_slice(), width, functions),
    }
}

// Whether there are so many values, each with a plan.
#[cycle(planned)]
fn values_planned(values: &[BoundExpr], width: usize, functions: &Functions) -> bool
    ensures { result ≡ spec.row_planned width (view.exprs_seen functions.now values.now) }
{
    values.len() == width && all_planned(values, functions)
}

#[cycle(planned)]
fn select_planned(select: &BoundSelect, functions: &Functions) -> bool
    ensures { result ≡ plain.planned (view.select_seen functions.now select.now) }
{
    tables_planned(select, functions) && lists_planned(select, functions)
}

// FROM and WHERE.
#[cycle(planned)]
fn tables_planned(select: &BoundSelect, functions: &Functions) -> bool
    ensures { result ≡ spec.tables_planned functions.now (out-BoundSelect select.now) }
{
    from_planned(select.from.as_slice(), functions)
        && all_planned(select.conjuncts.as_slice(), functions)
}

// The groups and the list.
#[cycle(planned)]
fn lists_planned(select: &BoundSelect, functions: &Functions) -> bool
    ensures { result ≡ spec.lists_planned functions.now (out-BoundSelect select.now) }
{
    groups_planned(&select.grouping, functions) && all_planned(select.items.as_slice(), functions)
}

#[cycle(planned)]
fn groups_planned(grouping: &Option<BoundGrouping>, functions: &Functions) -> bool
    ensures { result ≡ spec.groups_planned
        (option_map (view.grouping_seen functions.now) grouping.now) }
{
    match grouping {
        Some(grouping) => {
            all_planned(grouping.parts.as_slice(), functions)
                && all_planned(grouping.having.as_slice(), functions)
        }
        None => true,
    }
}

#[cycle(planned)]
fn from_planned(items: &[BoundFromItem], functions: &Functions) -> bool
    ensures { result ≡ spec.items_planned true (map (view.item_seen functions.now) items.now) }
{
    let mut first = true;
    for item in items {
        if !item_planned(item, first, functions) {
            return false;
        }
        first = false;
    }
    true
}

// An item of FROM; ON of the first joins it to nothing.
#[cycle(planned)]
fn item_planned(item: &BoundFromItem, first: bool, functions: &Functions) -> bool
    ensures { result ≡ spec.item_planned first (view.item_seen functions.now item.now) }
{
    match item {
        BoundFromItem::Comma(source) => source_planned(source, functions),
        BoundFromItem::Cross(source) => source_planned(source, functions),
        BoundFromItem::Inner(source, on) => {
            source_planned(source, functions) && (first || all_planned(on.as_slice(), functions))
        }
        BoundFromItem::Left(source, on) => {
            source_planned(source, functions) && (first || all_planned(on.as_slice(), functions))
        }
    }
}

#[cycle(planned)]
fn source_planned(source: &BoundSource, functions: &Functions) -> bool
    ensures { result ≡ plain.planned_from (view.source_seen functions.now source.now) }
{
    match source {
        BoundSource::Table(_) => true,
        BoundSource::Derived(query) => is_planned(query.get(), functions),
    }
}
