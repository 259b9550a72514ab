//! Queries over the rows of FROM (ISO/IEC 9075-2, 7.16).

ghost use Rattle.std.specs.Prelude.{◌≡◌, IfOk, OnOk};
ghost use Rattle.rel_algebra.specs.Emit.{plan};
ghost use Rattle.rel_algebra.specs.PlanView.{tree_of};
ghost use Rattle.block_plans.specs.View.{exprs_seen, select_seen};
ghost use Rattle.block_plans.specs.Callees.{width_in};
ghost use Rattle.plan_expressions.specs.Drafts.{drafted};
ghost use Rattle.plan_expressions.specs.Scopes.{env_of};
ghost use Rattle.plan_queries.specs.Selecting.{selected_rows, selected_groups};

use crate::conjuncts::filter_by;
use crate::emit::emit_list;
use crate::from::draft_from;
use block_plans::Functions;
use bound_trees::{BoundExpr, BoundGrouping, BoundSelect};
use plan_drafts::{group, list};
use plan_expressions::{Draft, NameSources};
use rel_algebra::Plan;
use sql_values::NoMemory;
use std::alloc::Global;

/// The plan of a SELECT: its list over the rows of FROM that the conjuncts of WHERE leave, or over
/// the groups of these rows (7.13) that those of HAVING leave (7.14).
#[cycle(query)]
pub fn plan_select(
    alloc: Global,
    select: &BoundSelect,
    scope: &NameSources,
    functions: &Functions,
) -> Result<Plan, NoMemory>
    ensures { IfOk result (λ p. tree_of p ≡ plan (select_seen functions.now select.now)
        (width_in functions.now) (env_of scope.now)) }
{
    let items = select.items.as_slice();
    let conjuncts = select.conjuncts.as_slice();
    let mut draft = draft_from(alloc, select.from.as_slice(), scope, functions)?;
    select_over(
        &select.grouping,
        items,
        conjuncts,
        scope,
        &mut draft,
        functions,
    )?;
    Ok(draft.into_plan())
}

// The same over the rows of FROM, which are there.
#[cycle(query)]
fn select_over(
    grouping: &Option<BoundGrouping>,
    items: &[BoundExpr],
    conjuncts: &[BoundExpr],
    scope: &NameSources,
    draft: &mut Draft,
    functions: &Functions,
) -> Result<(), NoMemory>
    ensures { OnOk result ((drafted draft.new).tree ≡ selected_groups functions.now grouping.now
        (exprs_seen functions.now items.now) (exprs_seen functions.now conjuncts.now)
        (width_in functions.now) (env_of scope.now) (drafted draft.old).width
        (drafted draft.old).tree) }
{
    match grouping {
        Some(grouping) => {
            select_rows(
                grouping.parts.as_slice(),
                conjuncts,
                scope,
                draft,
                functions,
            )?;
            group(grouping.keys, grouping.aggregates.as_slice(), draft)?;
            select_rows(items, grouping.having.as_slice(), scope, draft, functions)
        }
        None => select_rows(items, conjuncts, scope, draft, functions),
    }
}

/// A Filter for each conjunct over the rows of a plan, and the list.
#[cycle(query)]
pub fn select_rows(
    items: &[BoundExpr],
    conjuncts: &[BoundExpr],
    scope: &NameSources,
    draft: &mut Draft,
    functions: &Functions,
) -> Result<(), NoMemory>
    ensures { OnOk result ((drafted draft.new).tree ≡ selected_rows
        (exprs_seen functions.now items.now) (exprs_seen functions.now conjuncts.now)
        (width_in functions.now) (env_of scope.now) (drafted draft.old).width
        (drafted draft.old).tree) }
{
    let within = scope.entered(draft.allocator(), draft.columns())?;
    filter_by(conjuncts, &within, draft, functions)?;
    let scalars = emit_list(items, &within, draft, functions)?;
    list(scalars, draft)
}
