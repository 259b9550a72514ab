//! Queries of a database, answered by their plans.

ghost use Rattle.std.specs.Prelude.{◌≡◌, [], IfOk, true};
ghost use Rattle.rel_algebra.specs.World.{World, no_self, no_frame};
ghost use Rattle.rel_algebra.specs.Meaning.{answer};
ghost use Rattle.rel_algebra.specs.Plain.{planned as planned_by};
ghost use Rattle.catalog_store.specs.View.{query_of};
ghost use Rattle.routine_views.specs.Views.{query_in};
ghost use Rattle.run_places.specs.Places.{no_routine};
ghost use Rattle.psm_effects.specs.Answering.{ends_with, HasValues};
ghost use Rattle.psm_effects.specs.Conclusions.{database};
ghost use Rattle.psm_effects.specs.Shapes.{IsWhole};

use crate::prepared::{prepare_query, run_plan};
use bound_trees::BoundQuery;
use catalog_store::Catalog;
use plan_exec::Answer;
use row_types::Steps;
use sql_values::NoMemory;
use std::alloc::Global;
use std::sync::ledger::Ledger;
use table_store::Tables;

/// How a query ends whose functions all have plans, in any world of these tables: it is prepared,
/// and run.
pub(crate) fn planned_answer<L: Ledger>(
    alloc: Global,
    query: &BoundQuery,
    catalog: &Catalog,
    tables: &Tables,
    steps: &mut Steps<L>,
) -> Result<Answer, NoMemory>
    requires whole { IsWhole (database catalog.now tables.now) }
    requires planned { planned_by (query_of catalog.now query.now) ≡ true }
    ensures ends { IfOk result (λ a. (w : World) → w.tables ≡ tables.now.tables →
        answer (query_in (no_routine catalog.now) query.now) no_self [] no_frame w ≡ ends_with a w) }
    ensures values { IfOk result (λ a. HasValues a) }
{
    let _entries = catalog.len();
    let prepared = prepare_query(alloc, query, catalog)?;
    run_plan(alloc, &prepared, tables, steps)
}
