//! EXPLAIN: in how many places a query calls functions, and its plan. Nothing is run.

ghost use Rattle.std.specs.Prelude.{◌≡◌, IfOk};
ghost use Rattle.plan_text.specs.Explained.{by_plan_text};
ghost use Rattle.viewing_laws.specs.Standing.{CallsStandBefore};
ghost use Rattle.psm_effects.specs.Explaining.{IsExplained, explained_by, told_plan};

use block_plans::Functions;
use bound_trees::BoundQuery;
use call_places::call_places;
use called_blocks::query_blocks;
use catalog_store::Catalog;
use plan_queries::plan_query;
use plan_text::plan_reply;
use planned_queries::is_planned;
use reply_text::Reply;
use sql_values::NoMemory;
use std::alloc::Global;

// The reply where a query has a plan, which is made and told.
fn tell_plan(
    alloc: Global,
    inlined: u64,
    query: &BoundQuery,
    functions: &Functions,
) -> Result<Reply, NoMemory>
    ensures { IfOk result (λ r. r ≡ by_plan_text inlined (told_plan functions.now query.now)) }
{
    let plan = plan_query(alloc, query, functions)?;
    plan_reply(alloc, inlined, 0, Some(&plan))
}

// The reply where these are what calls run.
fn explain_by(alloc: Global, query: &BoundQuery, functions: &Functions) -> Result<Reply, NoMemory>
    ensures { IfOk result (λ r. r ≡ explained_by functions.now query.now) }
{
    let places = call_places(query, functions);
    if is_planned(query, functions) {
        tell_plan(alloc, places.inlined, query, functions)
    } else {
        plan_reply(alloc, places.inlined, places.interpreted, None)
    }
}

/// The reply to EXPLAIN of a query, exactly: in how many places it calls what has a plan, a function
/// of the catalog or a block that may have one, and what has none; and, where all that it calls has
/// one, the lines of the plan that answers it, which means it, whatever the tables hold; or that it
/// is answered row by row. Nothing is run. It can fail for want of memory alone.
pub fn explain_query(
    alloc: Global,
    query: &BoundQuery,
    catalog: &Catalog,
) -> Result<Reply, NoMemory>
    requires { CallsStandBefore catalog.now }
    ensures { IfOk result (λ r. IsExplained catalog.now query.now r) }
{
    let blocks = query_blocks(alloc, query, catalog)?;
    let functions = Functions::with_blocks(catalog, &blocks);
    explain_by(alloc, query, &functions)
}
