//! The binder of expressions and queries, which stand in one another (ISO/IEC 9075-2, 6.26 and
//! 7.17). It goes on after a fault, since the least one counts.

ghost use Rattle.std.specs.Prelude.{◌≡◌, [], map, IfOk, OnOk};
ghost use Rattle.bind_faults.specs.Faults.{taken};
ghost use Rattle.bind_sight.specs.Sight.{seen_by, level_by, inside};
ghost use Rattle.bind_parts.specs.From.{row_level};
ghost use Rattle.bind_queries.specs.Judges as judges;
ghost use Rattle.bind_queries.specs.From as spec;
ghost use Rattle.bind_queries.specs.Lists as lists;
ghost use Rattle.bind_queries.specs.Names.{inner, judge, judge_after, all_after, links_after};
ghost use Rattle.bind_queries.specs.Names.{chain_after, member_after};
ghost use Rattle.bind_queries.specs.Queries.{expression, select_item, value_row, from_judge};
ghost use Rattle.bind_queries.specs.Queries.{ref_judge, select_judge, values_judge, judge_query};
ghost use Rattle.bind_queries.specs.Queries.{opened_of, maybe, anchor_of, items_of, filter_of};
ghost use Rattle.bind_queries.specs.Queries.{grouping_columns, having_of, anchor_of_values};
ghost use Rattle.bind_queries.specs.Queries.{rows_of};
ghost use Rattle.bind_queries.specs.Selects as selects;
ghost use Rattle.bind_queries.specs.ValueRows as rows;

use crate::grouped::is_grouped_select;
use crate::parts::{add_titled, bind_name, bind_row_clauses, put_row, width_of};
use bind_faults::{FaultKind, Notes, note_if};
use bind_kinds::{Kind, in_turn, test};
use bind_names::{
    Join, at_levels, function_in_sight, may_stand, note_call, ungrouped, without_aggregates,
};
use bind_parts::{
    Grouping, ListClauses, Opened, Operands, Outputs, Parts, RowClauses, Typed, TypedQuery,
    TypedRows, TypedSource, add_item, add_joined, add_operand, aggregated, bind_table, called,
    chained, derived_source, exists, list_level, literal, member, no_operands, no_outputs,
    no_parts, no_rows, note_repeated, nothing_open, on_level, operated, parts_of_keys, put_comma,
    put_cross, row_level, select_typed, settle, single, star, values_typed,
};
use bind_sight::{Level, Sight, entered};
use bind_words::conjuncts;
use bound_trees::BoundExpr;
use sql_values::{FoldKind, NoMemory};
use sqlite_items::Items;
use std::alloc::Global;
use syntax_trees::{
    Anchor, Expr, FromItem, Ident, Link, Query, Select, SelectItem, TableRef, ValueRow, Values,
};

/// An expression with its names resolved, and what is noted on the way. Where a fault is inside,
/// its kind is Null. No aggregate stands in it.
pub fn bind_expr(
    alloc: Global,
    expr: &Expr,
    sight: &Sight<'_>,
    notes: &mut Notes,
) -> Result<Typed, NoMemory>
    ensures value { IfOk result (λ t. t ≡ (judge expr.now (seen_by sight.now)).value) }
    ensures notes { OnOk result (notes.new ≡ taken notes.old (judge expr.now (seen_by sight.now))) }
{
    let mut parts = no_parts(alloc);
    bind_after(alloc, expr, sight, &mut parts, notes)
}

// An expression of a list or of HAVING, after the parts of the group so far.
#[cycle(bind)]
#[tactic(auto, using(bind_faults::proofs::Laws::merged_least, bind_faults::proofs::Laws::none_noted))]
fn bind_after(
    alloc: Global,
    expr: &Expr,
    sight: &Sight<'_>,
    parts: &mut Parts,
    notes: &mut Notes,
) -> Result<Typed, NoMemory>
    ensures value { IfOk result (λ t. t ≡ (judge_after expr.now (seen_by sight.now) parts.old).value.value) }
    ensures parts { OnOk result (parts.new ≡ (judge_after expr.now (seen_by sight.now) parts.old).value.parts) }
    ensures notes { OnOk result (notes.new ≡ taken notes.old
        (judge_after expr.now (seen_by sight.now) parts.old)) }
{
    let before = notes.least.take();
    let inside = bind_inside(alloc, expr, sight, parts, notes)?;
    Ok(settle(inside, before, &mut notes.least))
}

#[cycle(bind)]
fn bind_inside(
    alloc: Global,
    expr: &Expr,
    sight: &Sight<'_>,
    parts: &mut Parts,
    notes: &mut Notes,
) -> Result<Typed, NoMemory>
    ensures value { IfOk result (λ t. t ≡ (inner expr.now (seen_by sight.now) parts.old).value.value) }
    ensures parts { OnOk result (parts.new ≡ (inner expr.now (seen_by sight.now) parts.old).value.parts) }
    ensures notes { OnOk result (notes.new ≡ taken notes.old
        (inner expr.now (seen_by sight.now) parts.old)) }
{
    match expr {
        Expr::Literal(at, value) => literal(*at, value),
        Expr::Name(column) => bind_name(column, sight, notes),
        Expr::Call(ident, args) => bind_call(alloc, ident, args.as_slice(), sight, parts, notes),
        Expr::Operation(at, operation, operands) => {
            let operands = bind_all(alloc, operands.as_slice(), sight, parts, notes)?;
            operated(alloc, *at, operation, operands, &mut notes.least)
        }
        Expr::Aggregate(at, kind, args) => {
            bind_aggregate(alloc, *at, *kind, args.as_slice(), sight, parts, notes)
        }
        Expr::Chain(first, links) => {
            let first = bind_after(alloc, first.get(), sight, parts, notes)?;
            bind_chain(alloc, first, links.as_slice(), sight, parts, notes)
        }
        Expr::Subquery(query) => {
            let query = bind_typed(alloc, query.get(), &[], sight, notes)?;
            single(alloc, query, &mut notes.least)
        }
        Expr::Exists(at, query) => {
            let query = bind_typed(alloc, query.get(), &[], sight, notes)?;
            exists(alloc, *at, query)
        }
        Expr::InQuery(at, negated, left, query) => {
            let left = bind_after(alloc, left.get(), sight, parts, notes)?;
            bind_member(alloc, *at, *negated, left, query.get(), sight, notes)
        }
    }
}

#[cycle(bind)]
fn bind_all(
    alloc: Global,
    exprs: &[Expr],
    sight: &Sight<'_>,
    parts: &mut Parts,
    notes: &mut Notes,
) -> Result<Operands, NoMemory>
    ensures value { IfOk result (λ t. t ≡ (all_after exprs.now (seen_by sight.now) parts.old).value.value) }
    ensures parts { OnOk result (parts.new ≡ (all_after exprs.now (seen_by sight.now) parts.old).value.parts) }
    ensures notes { OnOk result (notes.new ≡ taken notes.old
        (all_after exprs.now (seen_by sight.now) parts.old)) }
{
    let mut so = no_operands(alloc, exprs.len())?;
    for expr in exprs {
        let typed = bind_after(alloc, expr, sight, parts, notes)?;
        add_operand(&mut so, typed)?;
    }
    Ok(so)
}

// The operands of a chain after its first.
#[cycle(bind)]
fn bind_links(
    alloc: Global,
    links: &[Link],
    sight: &Sight<'_>,
    parts: &mut Parts,
    notes: &mut Notes,
) -> Result<Operands, NoMemory>
    ensures value { IfOk result (λ t. t ≡ (links_after links.now (seen_by sight.now) parts.old).value.value) }
    ensures parts { OnOk result
        (parts.new ≡ (links_after links.now (seen_by sight.now) parts.old).value.parts) }
    ensures notes { OnOk result (notes.new ≡ taken notes.old
        (links_after links.now (seen_by sight.now) parts.old)) }
{
    let mut so = no_operands(alloc, links.len())?;
    for link in links {
        let typed = bind_after(alloc, &link.operand, sight, parts, notes)?;
        add_operand(&mut so, typed)?;
    }
    Ok(so)
}

// A chain, after its first operand.
#[cycle(bind)]
fn bind_chain(
    alloc: Global,
    first: Typed,
    links: &[Link],
    sight: &Sight<'_>,
    parts: &mut Parts,
    notes: &mut Notes,
) -> Result<Typed, NoMemory>
    ensures value { IfOk result
        (λ t. t ≡ (chain_after links.now first (seen_by sight.now) parts.old).value.value) }
    ensures parts { OnOk result
        (parts.new ≡ (chain_after links.now first (seen_by sight.now) parts.old).value.parts) }
    ensures notes { OnOk result (notes.new ≡ taken notes.old
        (chain_after links.now first (seen_by sight.now) parts.old)) }
{
    let others = bind_links(alloc, links, sight, parts, notes)?;
    chained(alloc, first, links, others, &mut notes.least)
}

// IN of a query or NOT IN, after its left side.
#[cycle(bind)]
fn bind_member(
    alloc: Global,
    at: Anchor,
    negated: bool,
    left: Typed,
    query: &Query,
    sight: &Sight<'_>,
    notes: &mut Notes,
) -> Result<Typed, NoMemory>
    ensures value { IfOk result
        (λ t. t ≡ (member_after at negated left query.now (seen_by sight.now)).value) }
    ensures notes { OnOk result (notes.new ≡ taken notes.old
        (member_after at negated left query.now (seen_by sight.now))) }
{
    let query = bind_typed(alloc, query, &[], sight, notes)?;
    member(alloc, at, negated, left, query, &mut notes.least)
}

// A call, its arguments in any case.
#[cycle(bind)]
fn bind_call(
    alloc: Global,
    ident: &Ident,
    args: &[Expr],
    sight: &Sight<'_>,
    parts: &mut Parts,
    notes: &mut Notes,
) -> Result<Typed, NoMemory>
    ensures value { IfOk result (λ t. t ≡ (judges.judge_call ident.now (map expression args.now)
        (seen_by sight.now) parts.old).value.value) }
    ensures parts { OnOk result (parts.new ≡ (judges.judge_call ident.now (map expression args.now)
        (seen_by sight.now) parts.old).value.parts) }
    ensures notes { OnOk result (notes.new ≡ taken notes.old
        (judges.judge_call ident.now (map expression args.now) (seen_by sight.now) parts.old)) }
{
    let function = function_in_sight(&ident.name, sight);
    note_call(sight.writing, ident, args.len(), function, notes)?;
    let args = bind_all(alloc, args, sight, parts, notes)?;
    called(ident, function, args, &mut notes.least)
}

// An aggregate, its argument in any case: each column is in sight there, and no aggregate may
// stand.
#[cycle(bind)]
fn bind_aggregate(
    alloc: Global,
    at: Anchor,
    kind: FoldKind,
    args: &[Expr],
    sight: &Sight<'_>,
    parts: &mut Parts,
    notes: &mut Notes,
) -> Result<Typed, NoMemory>
    ensures value { IfOk result (λ t. t ≡ (judges.judge_aggregate at kind (map expression args.now)
        (seen_by sight.now) parts.old).value.value) }
    ensures parts { OnOk result (parts.new ≡ (judges.judge_aggregate at kind (map expression args.now)
        (seen_by sight.now) parts.old).value.parts) }
    ensures notes { OnOk result (notes.new ≡ taken notes.old
        (judges.judge_aggregate at kind (map expression args.now) (seen_by sight.now) parts.old)) }
{
    let barred = !may_stand(sight.levels);
    note_if(barred, FaultKind::NotPermitted, at, &mut notes.least);
    let levels = ungrouped(alloc, sight.levels)?;
    let inner = at_levels(levels.as_slice(), &*sight);
    let args = bind_all(alloc, args, &inner, &mut no_parts(alloc), notes)?;
    aggregated(at, kind, args, parts, &mut notes.least)
}

#[cycle(bind)]
fn bind_item(
    alloc: Global,
    item: &SelectItem,
    sight: &Sight<'_>,
    so: &mut Outputs,
    notes: &mut Notes,
) -> Result<(), NoMemory>
    ensures value { OnOk result (so.new ≡ ((select_item item.now).judge (seen_by sight.now) so.old).value) }
    ensures notes { OnOk result (notes.new ≡ taken notes.old
        ((select_item item.now).judge (seen_by sight.now) so.old)) }
{
    match item {
        SelectItem::All(at) => star(*at, sight.levels, so, notes),
        SelectItem::Value(expr, alias) => {
            let typed = bind_after(alloc, expr, sight, &mut so.parts, notes)?;
            add_titled(so, alias, expr, typed)
        }
    }
}

#[cycle(bind)]
fn bind_items(
    alloc: Global,
    items: &[SelectItem],
    parts: Parts,
    sight: &Sight<'_>,
    notes: &mut Notes,
) -> Result<Outputs, NoMemory>
    ensures value { IfOk result (λ so. so ≡ (lists.judged_items (map select_item items.now) parts
        (seen_by sight.now)).value) }
    ensures notes { OnOk result (notes.new ≡ taken notes.old
        (lists.judged_items (map select_item items.now) parts (seen_by sight.now))) }
{
    let mut so = no_outputs(alloc, parts);
    for item in items {
        bind_item(alloc, item, sight, &mut so, notes)?;
    }
    Ok(so)
}

/// The list, each of the kind of what it is stored into.
#[cycle(bind)]
pub fn bind_list(
    alloc: Global,
    items: &[SelectItem],
    targets: &[Kind],
    parts: Parts,
    sight: &Sight<'_>,
    notes: &mut Notes,
) -> Result<Outputs, NoMemory>
    ensures value { IfOk result (λ so. so ≡ (lists.listed targets.now (map select_item items.now) parts
        (seen_by sight.now)).value) }
    ensures notes { OnOk result (notes.new ≡ taken notes.old
        (lists.listed targets.now (map select_item items.now) parts (seen_by sight.now))) }
{
    let outputs = bind_items(alloc, items, parts, sight, notes)?;
    in_turn(targets, outputs.heads.as_slice(), &mut notes.least);
    Ok(outputs)
}

// The conjuncts of a test after the parts of the group so far.
#[cycle(bind)]
fn bind_test(
    alloc: Global,
    condition: &Expr,
    sight: &Sight<'_>,
    parts: &mut Parts,
    notes: &mut Notes,
) -> Result<Items<BoundExpr>, NoMemory>
    ensures value { IfOk result
        (λ es. es ≡
        (lists.tested (judge_after condition.now (seen_by sight.now) parts.old)).value.value) }
    ensures parts { OnOk result
        (parts.new ≡
        (lists.tested (judge_after condition.now (seen_by sight.now) parts.old)).value.parts) }
    ensures notes { OnOk result (notes.new ≡ taken notes.old
        (lists.tested (judge_after condition.now (seen_by sight.now) parts.old))) }
{
    let typed = bind_after(alloc, condition, sight, parts, notes)?;
    test(typed.head, &mut notes.least);
    conjuncts(alloc, typed.tree)
}

// The conjuncts of a test in WHERE or ON, over the row of a level.
#[cycle(bind)]
fn bind_condition(
    alloc: Global,
    condition: &Expr,
    level: Level<'_>,
    outside: &Sight<'_>,
    notes: &mut Notes,
) -> Result<Items<BoundExpr>, NoMemory>
    ensures value { IfOk result (λ es. es ≡ (lists.judged_test (inner condition.now)
        (inside (level_by level.entry) (seen_by outside.now))).value) }
    ensures notes { OnOk result (notes.new ≡ taken notes.old
        (lists.judged_test (inner condition.now)
        (inside (level_by level.entry) (seen_by outside.now)))) }
{
    let levels = entered(alloc, level, outside.levels)?;
    let sight = at_levels(levels.as_slice(), &*outside);
    bind_test(alloc, condition, &sight, &mut no_parts(alloc), notes)
}

/// The conjuncts of WHERE.
#[cycle(bind)]
pub fn bind_filter(
    alloc: Global,
    filter: &Option<Expr>,
    level: Level<'_>,
    outside: &Sight<'_>,
    notes: &mut Notes,
) -> Result<Items<BoundExpr>, NoMemory>
    ensures value { IfOk result (λ es. es ≡ (lists.judged_filter (maybe filter.now)
        (inside (level_by level.entry) (seen_by outside.now))).value) }
    ensures notes { OnOk result (notes.new ≡ taken notes.old
        (lists.judged_filter (maybe filter.now)
        (inside (level_by level.entry) (seen_by outside.now)))) }
{
    match filter {
        Some(condition) => bind_condition(alloc, condition, level, outside, notes),
        None => Ok(Items::new(alloc)),
    }
}

/// The conjuncts of HAVING, after the parts of the list.
#[cycle(bind)]
pub fn bind_having(
    alloc: Global,
    having: &Option<Expr>,
    sight: &Sight<'_>,
    parts: &mut Parts,
    notes: &mut Notes,
) -> Result<Items<BoundExpr>, NoMemory>
    ensures value { IfOk result (λ es. es ≡ (lists.judged_having (maybe having.now) (seen_by sight.now)
        parts.old).value.value) }
    ensures parts { OnOk result (parts.new ≡ (lists.judged_having (maybe having.now) (seen_by sight.now)
        parts.old).value.parts) }
    ensures notes { OnOk result (notes.new ≡ taken notes.old
        (lists.judged_having (maybe having.now) (seen_by sight.now) parts.old)) }
{
    match having {
        Some(condition) => bind_test(alloc, condition, sight, parts, notes),
        None => Ok(Items::new(alloc)),
    }
}

// The condition of WHERE and the grouping columns, with the columns of FROM in sight.
#[cycle(bind)]
fn bind_row(
    alloc: Global,
    select: &Select,
    opened: &Opened,
    outside: &Sight<'_>,
    notes: &mut Notes,
) -> Result<RowClauses, NoMemory>
    ensures value { IfOk result (λ r. r ≡ (selects.rowed (filter_of select.now) (grouping_columns select.now)
        (inside (row_level opened.now) (seen_by outside.now))).value) }
    ensures notes { OnOk result (notes.new ≡ taken notes.old
        (selects.rowed (filter_of select.now) (grouping_columns select.now)
        (inside (row_level opened.now) (seen_by outside.now)))) }
{
    let conjuncts = bind_filter(alloc, &select.filter, row_level(opened), outside, notes)?;
    let columns = select.group_by.as_slice();
    bind_row_clauses(alloc, conjuncts, columns, opened, outside, notes)
}

// The list, and then HAVING.
#[cycle(bind)]
fn bind_listed(
    alloc: Global,
    select: &Select,
    targets: &[Kind],
    parts: Parts,
    sight: &Sight<'_>,
    notes: &mut Notes,
) -> Result<ListClauses, NoMemory>
    ensures value { IfOk result (λ l. l ≡ (selects.list_and_having targets.now (items_of select.now)
        (having_of select.now) parts (seen_by sight.now)).value) }
    ensures notes { OnOk result (notes.new ≡ taken notes.old
        (selects.list_and_having targets.now (items_of select.now) (having_of select.now) parts
        (seen_by sight.now))) }
{
    let mut outputs = bind_list(alloc, select.items.as_slice(), targets, parts, sight, notes)?;
    let having = bind_having(alloc, &select.having, sight, &mut outputs.parts, notes)?;
    Ok(ListClauses { outputs, having })
}

// The list and HAVING, with what they see of FROM.
#[cycle(bind)]
fn bind_level(
    alloc: Global,
    select: &Select,
    level: Level<'_>,
    targets: &[Kind],
    parts: Parts,
    outside: &Sight<'_>,
    notes: &mut Notes,
) -> Result<ListClauses, NoMemory>
    ensures value { IfOk result (λ l. l ≡ (selects.list_and_having targets.now (items_of select.now)
        (having_of select.now) parts (inside (level_by level.entry) (seen_by outside.now))).value) }
    ensures notes { OnOk result (notes.new ≡ taken notes.old
        (selects.list_and_having targets.now (items_of select.now) (having_of select.now) parts
        (inside (level_by level.entry) (seen_by outside.now)))) }
{
    let levels = entered(alloc, level, outside.levels)?;
    let sight = at_levels(levels.as_slice(), &*outside);
    bind_listed(alloc, select, targets, parts, &sight, notes)
}

// The list and HAVING over FROM's row or its groups.
#[cycle(bind)]
fn bind_grouped(
    alloc: Global,
    select: &Select,
    opened: Opened,
    row: RowClauses,
    targets: &[Kind],
    outside: &Sight<'_>,
    notes: &mut Notes,
) -> Result<TypedQuery, NoMemory>
    ensures value { IfOk result (λ q. q ≡ (selects.list_typed (anchor_of select.now) (items_of select.now)
        (having_of select.now) (selects.grouped (items_of select.now) (grouping_columns select.now)
        (having_of select.now)) targets.now (seen_by outside.now) opened row).value) }
    ensures notes { OnOk result (notes.new ≡ taken notes.old
        (selects.list_typed (anchor_of select.now) (items_of select.now) (having_of select.now)
        (selects.grouped (items_of select.now) (grouping_columns select.now) (having_of select.now))
        targets.now (seen_by outside.now) opened row)) }
{
    let grouped = is_grouped_select(select);
    let RowClauses {
        conjuncts,
        grouping,
    } = row;
    let Grouping { keys, trees } = grouping;
    let level = list_level(&opened, keys.as_slice(), grouped);
    let parts = parts_of_keys(alloc, trees);
    let list = bind_level(alloc, select, level, targets, parts, outside, notes)?;
    let count = keys.len();
    Ok(select_typed(select.anchor, opened.from, conjuncts, grouped, count, list))
}

// A SELECT over what FROM brings in sight.
#[cycle(bind)]
fn bind_opened(
    alloc: Global,
    select: &Select,
    opened: Opened,
    targets: &[Kind],
    outside: &Sight<'_>,
    notes: &mut Notes,
) -> Result<TypedQuery, NoMemory>
    ensures value { IfOk result (λ q. q ≡ (selects.selected (anchor_of select.now) (items_of select.now)
        (filter_of select.now) (grouping_columns select.now) (having_of select.now) targets.now
        (seen_by outside.now) opened).value) }
    ensures notes { OnOk result (notes.new ≡ taken notes.old
        (selects.selected (anchor_of select.now) (items_of select.now) (filter_of select.now)
        (grouping_columns select.now) (having_of select.now) targets.now (seen_by outside.now)
        opened)) }
{
    let row = bind_row(alloc, select, &opened, outside, notes)?;
    bind_grouped(alloc, select, opened, row, targets, outside, notes)
}

#[cycle(bind)]
fn bind_select(
    alloc: Global,
    select: &Select,
    targets: &[Kind],
    outside: &Sight<'_>,
    notes: &mut Notes,
) -> Result<TypedQuery, NoMemory>
    ensures value { IfOk result (λ q. q ≡ (select_judge select.now targets.now (seen_by outside.now)).value) }
    ensures notes { OnOk result (notes.new ≡ taken notes.old
        (select_judge select.now targets.now (seen_by outside.now))) }
{
    let opened = bind_from(alloc, select.from.as_slice(), outside, notes)?;
    bind_opened(alloc, select, opened, targets, outside, notes)
}

// The values of a row, in which no aggregate stands.
#[cycle(bind)]
fn bind_row_values(
    alloc: Global,
    row: &ValueRow,
    sight: &Sight<'_>,
    notes: &mut Notes,
) -> Result<Operands, NoMemory>
    ensures value { IfOk result (λ o. o ≡ (rows.row_values (seen_by sight.now) (value_row row.now)).value) }
    ensures notes { OnOk result (notes.new ≡ taken notes.old
        (rows.row_values (seen_by sight.now) (value_row row.now))) }
{
    match row {
        ValueRow::Row(exprs) => {
            bind_all(alloc, exprs.as_slice(), sight, &mut no_parts(alloc), notes)
        }
    }
}

// A row, after those above it.
#[cycle(bind)]
fn bind_value_row(
    alloc: Global,
    row: &ValueRow,
    at: Anchor,
    targets: &[Kind],
    sight: &Sight<'_>,
    so: &mut TypedRows,
    notes: &mut Notes,
) -> Result<(), NoMemory>
    ensures value { OnOk result (so.new ≡ (rows.one_row at targets.now (seen_by sight.now) so.old
        (value_row row.now)).value) }
    ensures notes { OnOk result (notes.new ≡ taken notes.old
        (rows.one_row at targets.now (seen_by sight.now) so.old (value_row row.now))) }
{
    let values = bind_row_values(alloc, row, sight, notes)?;
    put_row(at, targets, values, so, &mut notes.least)
}

// The rows, each with the kinds of those above.
#[cycle(bind)]
fn bind_rows(
    alloc: Global,
    values: &Values,
    targets: &[Kind],
    sight: &Sight<'_>,
    notes: &mut Notes,
) -> Result<TypedRows, NoMemory>
    ensures value { IfOk result (λ so. so ≡ (rows.judged_rows (anchor_of_values values.now) targets.now
        (rows_of values.now) (seen_by sight.now)).value) }
    ensures notes { OnOk result (notes.new ≡ taken notes.old
        (rows.judged_rows (anchor_of_values values.now) targets.now (rows_of values.now)
        (seen_by sight.now))) }
{
    let rows = values.rows.as_slice();
    let mut so = no_rows(alloc, width_of(rows))?;
    for row in rows {
        bind_value_row(alloc, row, values.anchor, targets, sight, &mut so, notes)?;
    }
    Ok(so)
}

// VALUES as a query, in which no aggregate stands.
#[cycle(bind)]
fn bind_values(
    alloc: Global,
    values: &Values,
    targets: &[Kind],
    outside: &Sight<'_>,
    notes: &mut Notes,
) -> Result<TypedQuery, NoMemory>
    ensures value { IfOk result (λ q. q ≡ (values_judge values.now targets.now (seen_by outside.now)).value) }
    ensures notes { OnOk result (notes.new ≡ taken notes.old
        (values_judge values.now targets.now (seen_by outside.now))) }
{
    let levels = without_aggregates(alloc, outside.levels)?;
    let sight = at_levels(levels.as_slice(), &*outside);
    let rows = bind_rows(alloc, values, targets, &sight, notes)?;
    values_typed(alloc, values.anchor, rows)
}

/// A query with its names resolved, and what is noted on the way. Its columns are stored into what
/// is of these kinds.
#[cycle(bind)]
pub fn bind_typed(
    alloc: Global,
    query: &Query,
    targets: &[Kind],
    outside: &Sight<'_>,
    notes: &mut Notes,
) -> Result<TypedQuery, NoMemory>
    ensures value { IfOk result (λ q. q ≡ (judge_query targets.now query.now (seen_by outside.now)).value) }
    ensures notes { OnOk result (notes.new ≡ taken notes.old
        (judge_query targets.now query.now (seen_by outside.now))) }
{
    match query {
        Query::Select(select) => bind_select(alloc, select, targets, outside, notes),
        Query::Values(values) => bind_values(alloc, values, targets, outside, notes),
    }
}

/// What the items of FROM bring in sight.
#[cycle(bind)]
pub fn bind_from(
    alloc: Global,
    items: &[FromItem],
    outside: &Sight<'_>,
    notes: &mut Notes,
) -> Result<Opened, NoMemory>
    ensures value { IfOk result (λ so. so ≡ (opened_of items.now (seen_by outside.now)).value) }
    ensures notes { OnOk result (notes.new ≡ taken notes.old
        (opened_of items.now (seen_by outside.now))) }
{
    let mut so = nothing_open(alloc);
    for item in items {
        bind_from_item(alloc, item, outside, &mut so, notes)?;
    }
    Ok(so)
}

#[cycle(bind)]
fn bind_from_item(
    alloc: Global,
    item: &FromItem,
    outside: &Sight<'_>,
    so: &mut Opened,
    notes: &mut Notes,
) -> Result<(), NoMemory>
    ensures value { OnOk result (so.new ≡ (from_judge item.now (seen_by outside.now) so.old).value) }
    ensures notes { OnOk result (notes.new ≡ taken notes.old
        (from_judge item.now (seen_by outside.now) so.old)) }
{
    match item {
        FromItem::Comma(table) => {
            let sourced = bind_table_ref(alloc, table, outside, notes)?;
            put_comma(so, sourced, notes)
        }
        FromItem::Cross(table) => {
            let sourced = bind_table_ref(alloc, table, outside, notes)?;
            put_cross(so, sourced, notes)
        }
        FromItem::Inner(table, condition) => {
            let sourced = bind_table_ref(alloc, table, outside, notes)?;
            put_joined(alloc, Join::Inner, condition, sourced, outside, so, notes)
        }
        FromItem::Left(table, condition) => {
            let sourced = bind_table_ref(alloc, table, outside, notes)?;
            put_joined(alloc, Join::Left, condition, sourced, outside, so, notes)
        }
    }
}

// An item after JOIN or LEFT JOIN, with its ON.
#[cycle(bind)]
fn put_joined(
    alloc: Global,
    join: Join,
    condition: &Expr,
    sourced: TypedSource,
    outside: &Sight<'_>,
    so: &mut Opened,
    notes: &mut Notes,
) -> Result<(), NoMemory>
    ensures value { OnOk result (so.new ≡ (spec.put_joined join (inner condition.now)
        (seen_by outside.now) so.old sourced).value) }
    ensures notes { OnOk result (notes.new ≡ taken notes.old
        (spec.put_joined join (inner condition.now) (seen_by outside.now) so.old sourced)) }
{
    note_repeated(&sourced, &so.items, &mut notes.least);
    let source = add_item(so, sourced)?;
    let conjuncts = bind_condition(alloc, condition, on_level(so), outside, notes)?;
    add_joined(so, join, source, conjuncts)
}

#[cycle(bind)]
fn bind_table_ref(
    alloc: Global,
    table: &TableRef,
    outside: &Sight<'_>,
    notes: &mut Notes,
) -> Result<TypedSource, NoMemory>
    ensures value { IfOk result (λ s. s ≡ (ref_judge table.now (seen_by outside.now)).value) }
    ensures notes { OnOk result (notes.new ≡ taken notes.old
        (ref_judge table.now (seen_by outside.now))) }
{
    match table {
        TableRef::Table(ident, alias) => bind_table(alloc, ident, alias, outside, notes),
        TableRef::Derived(query, ident, names) => {
            let query = bind_typed(alloc, query.get(), &[], outside, notes)?;
            derived_source(alloc, ident, names.as_slice(), query, notes)
        }
    }
}
