//! Queries inside expressions: an Apply of the query's plan (ISO/IEC 9075-2, 7.19, 8.4 and 8.10).

ghost use Rattle.std.specs.Prelude.{IfOk};
ghost use Rattle.rel_algebra.specs.Emit.{folded, plan};
ghost use Rattle.rel_algebra.specs.PlanView.{scalar_of};
ghost use Rattle.block_plans.specs.View.{query_seen, select_seen};
ghost use Rattle.block_plans.specs.Callees.{width_in};
ghost use Rattle.plan_expressions.specs.Asking.{asked_by};
ghost use Rattle.plan_expressions.specs.Drafts.{drafted};
ghost use Rattle.plan_expressions.specs.Emission.{Emits};
ghost use Rattle.plan_expressions.specs.Scopes.{env_of};
ghost use Rattle.plan_queries.specs.Folding.{EmitsFolded};

use crate::emit::emit_list;
use crate::from::draft_from;
use crate::plans::plan_within;
use crate::selects::select_rows;
use block_plans::Functions;
use bound_trees::{BoundQuery, BoundSelect};
use plan_drafts::{fold_over, is_folded};
use plan_expressions::{Asked, Draft, NameSources, answered, ask};
use rel_algebra::Scalar;
use sql_values::NoMemory;
use sqlite_items::Items;

/// Emits a query inside an expression. A query of aggregates alone is folded: its list is emitted
/// on the row outside.
#[cycle(query)]
pub fn emit_asked(
    asked: Asked,
    query: &BoundQuery,
    scope: &NameSources,
    draft: &mut Draft,
    functions: &Functions,
) -> Result<Scalar, NoMemory>
    ensures { IfOk result (λ s. Emits draft.old draft.new (scalar_of s)
        (asked_by asked (folded (query_seen functions.now query.now) (width_in functions.now)
        (env_of scope.now)) (plan (query_seen functions.now query.now) (width_in functions.now)
        (env_of scope.now)) (drafted draft.old).width)) }
{
    let column = draft.columns();
    match emit_folded(query, scope, draft, functions)? {
        Some(list) => answered(draft.allocator(), asked, column, list),
        None => {
            let inner = plan_within(draft.allocator(), query, scope, functions)?;
            ask(asked, inner, draft)
        }
    }
}

/// Emits the list of a query that is folded, on the row that has its aggregates; `None` of another
/// query.
#[cycle(query)]
pub fn emit_folded(
    query: &BoundQuery,
    scope: &NameSources,
    draft: &mut Draft,
    functions: &Functions,
) -> Result<Option<Items<Scalar>>, NoMemory>
    ensures { IfOk result (λ o. EmitsFolded draft.old draft.new o
        (folded (query_seen functions.now query.now) (width_in functions.now) (env_of scope.now))) }
{
    match query {
        BoundQuery::Select(select) => emit_folded_select(select, scope, draft, functions),
        BoundQuery::Values(_) => Ok(None),
        BoundQuery::Ordered(_, _) => Ok(None),
    }
}

// The same of a SELECT.
#[cycle(query)]
fn emit_folded_select(
    select: &BoundSelect,
    scope: &NameSources,
    draft: &mut Draft,
    functions: &Functions,
) -> Result<Option<Items<Scalar>>, NoMemory>
    ensures { IfOk result (λ o. EmitsFolded draft.old draft.new o
        (folded (select_seen functions.now select.now) (width_in functions.now)
        (env_of scope.now))) }
{
    let Some(grouping) = &select.grouping else {
        return Ok(None);
    };
    if !is_folded(grouping) {
        return Ok(None);
    }
    let alloc = draft.allocator();
    let parts = grouping.parts.as_slice();
    let mut rows = draft_from(alloc, select.from.as_slice(), scope, functions)?;
    select_rows(
        parts,
        select.conjuncts.as_slice(),
        scope,
        &mut rows,
        functions,
    )?;
    let first = draft.columns();
    let count = grouping.aggregates.len();
    fold_over(rows, grouping.aggregates.as_slice(), draft)?;
    let within = scope.folded(alloc, first, count)?;
    let list = emit_list(select.items.as_slice(), &within, draft, functions)?;
    Ok(Some(list))
}
