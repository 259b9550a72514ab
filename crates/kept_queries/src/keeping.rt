//! Queries with their plans, found by equality.

ghost use Rattle.std.specs.Prelude.{◌≡◌, ℕ, true, List, Option, IfOk, IfSome};
ghost use Rattle.std.specs.Option.{option_copied};
ghost use Rattle.rel_algebra.specs.Emit.{plan};
ghost use Rattle.rel_algebra.specs.Plain.{planned};
ghost use Rattle.rel_algebra.specs.PlanView.{tree_of};
ghost use Rattle.rel_algebra.specs.Theorem.{under};
ghost use Rattle.catalog_store.specs.Catalog.{Catalog as PlainCatalog};
ghost use Rattle.block_plans.specs.Callees.{width_in};
ghost use Rattle.block_plans.specs.View.{query_seen};
ghost use Rattle.kept_queries.specs.Keeping.{IsKeptFor, ArePlans, KeptMean, KeptLast};

use crate::around::Around;
use crate::sight::InSight;
use block_places::seen_in_place;
use block_plans::Functions;
use bound_equality::{copied_query, same_query};
use bound_trees::BoundQuery;
use plan_queries::plan_within;
use rel_algebra::Plan;
use scanned_tables::{ScannedTable, scanned};
use sql_values::NoMemory;
use sqlite_items::Items;
use std::alloc::Global;

/// A query, what is in sight where it stands, its plan over as many arguments as there are
/// variables, under rows of as many values (ISO/IEC 9075-2, 7.17), and the tables that the plan
/// reads, with the columns that each has there.
#[derive(Drop)]
pub struct KeptQuery {
    pub query: BoundQuery,
    pub in_sight: InSight,
    pub plan: Plan,
    pub tables: Items<ScannedTable>,
}

/// A query whose calls all run what has a plan, with its plan where so much is in sight, as many
/// columns as each table has in the catalog. It can fail for want of memory alone.
pub fn keep(
    alloc: Global,
    query: &BoundQuery,
    sight: &InSight,
    around: &Around,
) -> Result<KeptQuery, NoMemory>
    requires { planned (query_seen around.now.functions.now query.now) ≡ true }
    ensures kept { IfOk result (λ k. IsKeptFor around.now.functions.now.known
        (option_copied around.now.own) k) }
    ensures query { IfOk result (λ k. k.query ≡ query.now) }
    ensures sight { IfOk result (λ k. k.in_sight ≡ sight.now) }
{
    seen_in_place();
    let functions = around.functions;
    let _entries = functions.catalog().len();
    let in_sight = sight.copied(alloc)?;
    let plan = planned_there(alloc, query, sight, functions)?;
    let tables = scanned(alloc, &plan)?;
    let query = copied_query(alloc, query)?;
    Ok(KeptQuery {
        query,
        in_sight,
        plan,
        tables,
    })
}

// The plan of a query where so much is in sight.
fn planned_there(
    alloc: Global,
    query: &BoundQuery,
    sight: &InSight,
    functions: &Functions,
) -> Result<Plan, NoMemory>
    ensures { IfOk result (λ p. tree_of p ≡ plan (query_seen functions.now query.now)
        (width_in functions.now) (under sight.now.rows sight.now.variables)) }
{
    let sources = sight.sources(alloc)?;
    plan_within(alloc, query, &sources, functions)
}

/// The first of these that is kept of an equal query where as much is in sight. What holds of all
/// of them in a catalog and a routine holds of it.
pub fn find<'a>(kept: &'a [KeptQuery], query: &BoundQuery, sight: &InSight) -> Option<&'a KeptQuery>
    ensures query { IfSome result (λ k. k.now.query ≡ query.now) }
    ensures sight { IfSome result (λ k. k.now.in_sight ≡ sight.now) }
    ensures kept { (known : PlainCatalog) (own : Option (List ℕ)) → ArePlans known own kept.now →
        IfSome result (λ k. IsKeptFor known own k.now) }
{
    for one in kept {
        if one.in_sight.is_same(sight) && same_query(&one.query, query) {
            return Some(one);
        }
    }
    None
}

/// Where it stands a kept query ends as its plan does, in the world in which it began: over all
/// tables, of which those that the plan reads have the columns that they have there, over a frame
/// of so many variables, which are the plan's arguments, and under rows of so many values, which
/// are the rows outside of the plan.
pub fn kept_mean()
    ensures { KeptMean }
{}

/// A plan that is kept stays one of its query in another catalog, where the query stands for the
/// same and the tables that the plan reads have as many columns.
pub fn kept_last()
    ensures { KeptLast }
{}
