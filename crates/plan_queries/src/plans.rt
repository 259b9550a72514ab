//! The plans of queries.

ghost use Rattle.std.specs.Prelude.{◌≡◌, IfOk};
ghost use Rattle.rel_algebra.specs.Emit.{top, plan};
ghost use Rattle.rel_algebra.specs.PlanView.{tree_of};
ghost use Rattle.block_plans.specs.View.{query_seen};
ghost use Rattle.block_plans.specs.Callees.{width_in};
ghost use Rattle.plan_expressions.specs.Scopes.{env_of};

use crate::selects::plan_select;
use crate::values::plan_values;
use block_plans::Functions;
use bound_trees::BoundQuery;
use plan_drafts::{columns_of, sorted};
use plan_expressions::NameSources;
use rel_algebra::Plan;
use sql_values::NoMemory;
use std::alloc::Global;

/// The plan of a query that no query stands around (ISO/IEC 9075-2, 7.17), with the body of each
/// function that it calls in the place of the call. Tables are as wide as the catalog says. It can
/// fail for want of memory alone.
pub fn plan_query(
    alloc: Global,
    query: &BoundQuery,
    functions: &Functions,
) -> Result<Plan, NoMemory>
    ensures { IfOk result (λ p. tree_of p ≡ plan (query_seen functions.now query.now)
        (width_in functions.now) (top 0)) }
{
    let scope = NameSources::top(alloc, 0);
    Ok(plan_within(alloc, query, &scope, functions)?)
}

/// The plan of a query within these names.
#[cycle(query)]
pub fn plan_within(
    alloc: Global,
    query: &BoundQuery,
    scope: &NameSources,
    functions: &Functions,
) -> Result<Plan, NoMemory>
    ensures { IfOk result (λ p. tree_of p ≡ plan (query_seen functions.now query.now)
        (width_in functions.now) (env_of scope.now)) }
{
    match query {
        BoundQuery::Select(select) => plan_select(alloc, select, scope, functions),
        BoundQuery::Values(rows) => plan_values(alloc, rows.as_slice(), scope, functions),
        BoundQuery::Ordered(query, keys) => {
            let plan = plan_within(alloc, query.get(), scope, functions)?;
            sorted(alloc, plan, columns_of(query.get()), keys.as_slice())
        }
    }
}
