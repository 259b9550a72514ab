//! Queries that are prepared: each is answered by its plan, and no function's body is run.

ghost use Rattle.std.specs.Prelude.{◌≡◌, ◌≤◌, ◌+◌, ℕ, List, [], IfOk, true};
ghost use Rattle.rel_algebra.specs.Tree.{Query};
ghost use Rattle.rel_algebra.specs.World.{World, no_self, no_frame};
ghost use Rattle.rel_algebra.specs.Meaning.{answer};
ghost use Rattle.rel_algebra.specs.Joins.{table_width};
ghost use Rattle.rel_algebra.specs.Lasting.{QueryLasts};
ghost use Rattle.rel_algebra.specs.Plain.{planned as planned_by};
ghost use Rattle.rel_algebra.specs.Work.{work};
ghost use Rattle.catalog_store.specs.View.{query_of};
ghost use Rattle.catalog_store.specs.Widths.{width_in};
ghost use Rattle.psm_effects.specs.Answering.{ends_with, HasValues};
ghost use Rattle.psm_effects.specs.Preparing.{IsPlanOf, KeepsForm, over, plan_in};

use block_plans::Functions;
use bound_trees::BoundQuery;
use catalog_store::Catalog;
use plan_exec::{Answer, collect, execute};
use plan_queries::plan_query;
use rel_algebra::Plan;
use row_types::Steps;
use sql_values::NoMemory;
use std::alloc::Global;
use std::sync::ledger::Ledger;
use table_store::Tables;

/// A query that is prepared: its plan, which was made once.
#[derive(Drop)]
pub struct Prepared {
    pub(crate) plan: Plan,
}

/// Prepares a query whose functions all have plans. The plan is as well formed as the one that the
/// emitter makes of the query.
pub fn prepare_query(
    alloc: Global,
    query: &BoundQuery,
    catalog: &Catalog,
) -> Result<Prepared, NoMemory>
    requires planned { planned_by (query_of catalog.now query.now) ≡ true }
    ensures plan { IfOk result (λ p. IsPlanOf (query_of catalog.now query.now)
        (width_in catalog.now) (plan_in p)) }
    ensures form { IfOk result (λ p. KeepsForm (query_of catalog.now query.now)
        (width_in catalog.now) (plan_in p)) }
{
    let plan = plan_query(alloc, query, &Functions::of(catalog))?;
    Ok(Prepared { plan })
}

/// How a prepared query ends, in any world of these tables: its plan is executed, within its work.
pub fn run_plan<L: Ledger>(
    alloc: Global,
    prepared: &Prepared,
    tables: &Tables,
    steps: &mut Steps<L>,
) -> Result<Answer, NoMemory>
    ensures ends { IfOk result (λ a. (q : Query) (widths : List ℕ → ℕ) →
        IsPlanOf q widths (plan_in prepared.now) →
        QueryLasts q widths (table_width tables.now.tables)
        → (w : World) → w.tables ≡ tables.now.tables →
        answer q no_self [] no_frame w ≡ ends_with a w) }
    ensures values { IfOk result (λ a. HasValues a) }
    ensures work { steps.new ≤ steps.old + work (plan_in prepared.now) (over tables.now.tables) [] }
{
    let _tables = tables.len();
    let rows = execute(alloc, &prepared.plan, tables, &[], steps)?;
    collect(rows, steps)
}
