//! A call of a function by itself, as a plan.

ghost use Rattle.std.specs.Prelude.{◌≡◌, ℕ, List, true, length, IfOk};
ghost use Rattle.rel_algebra.specs.Emit.{emit_body, top};
ghost use Rattle.rel_algebra.specs.Plain.{planned_routine};
ghost use Rattle.rel_algebra.specs.Tree.{parameters_of};
ghost use Rattle.catalog_store.specs.Catalog.{Catalog as PlainCatalog};
ghost use Rattle.catalog_store.specs.Kept.{IsPlan};
ghost use Rattle.catalog_store.specs.Widths.{width_in};
ghost use Rattle.routine_views.specs.Routines.{routines_of};
ghost use Rattle.call_plans.specs.Calls.{CallsMean, IsCallPlan};

use crate::nodes::value_plan;
use catalog_store::FunctionPlan;
use rel_algebra::Plan;
use scanned_tables::{ScannedTable, scanned};
use sql_values::NoMemory;
use sqlite_items::Items;
use std::alloc::Global;

/// The plan of one call of a function (ISO/IEC 9075-2, 10.4): the arguments are its parameters, of
/// which there are so many, and its one row has the one cell that the call gives; and the tables
/// that the plan reads, with the columns that each has there.
#[derive(Drop)]
pub struct CallPlan {
    pub parameters: usize,
    pub plan: Plan,
    pub tables: Items<ScannedTable>,
}

/// The plan of the calls of a function with so many parameters (10.4), by the plan that it has in
/// the calls of others: of each routine with as many whose plan that is.
pub fn call_plan(
    alloc: Global,
    function: FunctionPlan,
    parameters: usize,
) -> Result<CallPlan, NoMemory>
    ensures { IfOk result (λ c. (known : PlainCatalog) (name : List ℕ) →
        planned_routine (routines_of known name) ≡ true →
        parameters ≡ length (parameters_of (routines_of known name)) →
        IsPlan function (emit_body (routines_of known name) (width_in known) (top parameters) 0) →
        IsCallPlan known name c) }
{
    let plan = value_plan(alloc, function)?;
    let tables = scanned(alloc, &plan)?;
    Ok(CallPlan {
        parameters,
        plan,
        tables,
    })
}

/// Over as many arguments as the function has parameters, and tables that have the columns that
/// they have in its plan, a call ends as the one cell of the plan, in the world in which it began.
pub fn calls_mean()
    ensures { CallsMean }
{}
