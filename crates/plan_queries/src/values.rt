//! The plans of VALUES.

ghost use Rattle.std.specs.Prelude.{◌≡◌, IfOk};
ghost use Rattle.rel_algebra.specs.Tree.{Values};
ghost use Rattle.rel_algebra.specs.Plan.{unit_row};
ghost use Rattle.rel_algebra.specs.Emit.{emit_all, emit_rows, listed, several, plan};
ghost use Rattle.rel_algebra.specs.Joins.{rows_width};
ghost use Rattle.rel_algebra.specs.PlanView.{tree_of};
ghost use Rattle.block_plans.specs.Callees.{Callees, width_in};
ghost use Rattle.block_plans.specs.View.{exprs_seen, row_seen, rows_seen};
ghost use Rattle.plan_expressions.specs.Drafts.{drafted};
ghost use Rattle.plan_expressions.specs.Emission.{EmitsAll};
ghost use Rattle.plan_expressions.specs.Scopes.{env_of};
ghost use Rattle.plan_drafts.specs.Choosing.{all_arms_of, closed};
ghost use Rattle.plan_queries.specs.Plainness.{ArePlain, IsPlain, by_number, rows_plan};

use crate::emit::emit_list;
use block_plans::Functions;
use bound_trees::{BoundExpr, BoundRow};
use plan_drafts::{
    add_row, closed_plan, empty_columns, first_width, listed_plan, lists_plan, numbered_draft,
};
use plan_expressions::{Draft, NameSources};
use rel_algebra::{Leaf, Plan, ScalarRow};
use sql_values::NoMemory;
use sqlite_items::Items;
use std::alloc::Global;

/// The plan of VALUES (ISO/IEC 9075-2, 7.3).
#[cycle(query)]
pub fn plan_values(
    alloc: Global,
    rows: &[BoundRow],
    scope: &NameSources,
    functions: &Functions,
) -> Result<Plan, NoMemory>
    ensures { IfOk result (λ p. tree_of p ≡ plan (Values (rows_seen functions.now rows.now))
        (width_in functions.now) (env_of scope.now)) }
{
    let within = scope.lifted(alloc)?;
    plan_rows(alloc, rows, &within, functions)
}

// One row over Unit; several by Values alone where none of them needs nodes, and else over their
// numbers.
#[cycle(query)]
fn plan_rows(
    alloc: Global,
    rows: &[BoundRow],
    scope: &NameSources,
    functions: &Functions,
) -> Result<Plan, NoMemory>
    ensures { IfOk result (λ p. tree_of p ≡ rows_plan functions.now rows.now (env_of scope.now)) }
{
    if rows.len() == 1 {
        return plan_row(alloc, values_in(&rows[0]), scope, functions);
    }
    if rows.is_empty() {
        return plan_numbered(alloc, rows, scope, functions);
    }
    match plain_lists(alloc, rows, scope, functions)? {
        Some(lists) => Ok(lists_plan(alloc, lists)),
        None => plan_numbered(alloc, rows, scope, functions),
    }
}

// The values of a row.
fn values_in(row: &BoundRow) -> &[BoundExpr]
    ensures { (k : Callees) → exprs_seen k result.now ≡ row_seen k row.now }
{
    match row {
        BoundRow::Row(values) => values.as_slice(),
    }
}

// The plan of one row.
#[cycle(query)]
fn plan_row(
    alloc: Global,
    values: &[BoundExpr],
    scope: &NameSources,
    functions: &Functions,
) -> Result<Plan, NoMemory>
    ensures { IfOk result (λ p. tree_of p ≡ listed (emit_all (exprs_seen functions.now values.now)
        (width_in functions.now) (env_of scope.now) 0) 0 unit_row) }
{
    let mut draft = Draft::over(alloc, Leaf::Unit, 0);
    let scalars = emit_list(values, scope, &mut draft, functions)?;
    listed_plan(scalars, draft)
}

// The lists of rows, where none needs nodes.
#[cycle(query)]
fn plain_lists(
    alloc: Global,
    rows: &[BoundRow],
    scope: &NameSources,
    functions: &Functions,
) -> Result<Option<Items<ScalarRow>>, NoMemory>
    ensures { IfOk result (λ o. ArePlain o (emit_rows (rows_seen functions.now rows.now)
        (width_in functions.now) (env_of scope.now) 0)) }
{
    let mut lists = Items::from_vec(Vec::with_capacity(alloc, rows.len())?);
    for row in rows {
        match plain_list(alloc, values_in(row), scope, functions)? {
            Some(list) => lists.push(list)?,
            None => return Ok(None),
        }
    }
    Ok(Some(lists))
}

// The list of a row, where it needs no nodes.
#[cycle(query)]
fn plain_list(
    alloc: Global,
    values: &[BoundExpr],
    scope: &NameSources,
    functions: &Functions,
) -> Result<Option<ScalarRow>, NoMemory>
    ensures { IfOk result (λ o. IsPlain o (emit_all (exprs_seen functions.now values.now)
        (width_in functions.now) (env_of scope.now) 0)) }
{
    let mut draft = Draft::over(alloc, Leaf::Unit, 0);
    let scalars = emit_list(values, scope, &mut draft, functions)?;
    if !draft.is_unit() {
        return Ok(None);
    }
    Ok(Some(ScalarRow { scalars }))
}

// The plan of rows over their numbers.
#[cycle(query)]
fn plan_numbered(
    alloc: Global,
    rows: &[BoundRow],
    scope: &NameSources,
    functions: &Functions,
) -> Result<Plan, NoMemory>
    ensures { IfOk result (λ p. tree_of p ≡ several (rows_width (rows_seen functions.now rows.now))
        (emit_rows (rows_seen functions.now rows.now) (width_in functions.now)
        (env_of scope.now) 1)) }
{
    let mut draft = numbered_draft(alloc, rows.len())?;
    let columns = emit_columns(rows, scope, &mut draft, functions)?;
    closed_plan(columns, draft)
}

// Emits rows, from the first to the last, column by column.
#[cycle(query)]
fn emit_columns(
    rows: &[BoundRow],
    scope: &NameSources,
    draft: &mut Draft,
    functions: &Functions,
) -> Result<Items<ScalarRow>, NoMemory>
    ensures { IfOk result (λ columns. EmitsAll draft.old draft.new (closed (all_arms_of columns))
        (by_number (rows_width (rows_seen functions.now rows.now))
        (emit_rows (rows_seen functions.now rows.now) (width_in functions.now) (env_of scope.now)
        (drafted draft.old).width))) }
{
    let alloc = draft.allocator();
    let mut columns = empty_columns(alloc, first_width(rows))?;
    for (number, row) in rows.iter().enumerate() {
        let scalars = emit_list(values_in(row), scope, draft, functions)?;
        columns = add_row(alloc, number, scalars, columns)?;
    }
    Ok(columns)
}
