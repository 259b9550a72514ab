//! A plan, run under the rows in sight: they are the rows outside of it (ISO/IEC 9075-2, 6.7).

ghost use Rattle.std.specs.Prelude.{◌≡◌, IfOk};
ghost use Rattle.row_types.specs.OuterRows.{outer_rows};
ghost use Rattle.rel_algebra.specs.Plan.{collected, den};
ghost use Rattle.rel_algebra.specs.PlanView.{tree_of};
ghost use Rattle.rel_algebra.specs.Theorem.{stack};
ghost use Rattle.plan_exec.specs.Passing.{inputs_of};
ghost use Rattle.plan_rows.specs.Firsts.{values_end};
ghost use Rattle.run_choices.specs.Sight.{seen};
ghost use Rattle.run_plans.specs.Ending.{inside};

use crate::running::plan_values;
use plan_exec::Values;
use rel_algebra::Plan;
use row_types::Outer;
use run_expressions::{RowsInSight, under};
use sql_values::{NoMemory, Value};
use std::alloc::Global;
use table_store::Tables;

/// The values of a plan's rows over tables and arguments, under the rows in sight, or their first
/// area.
pub(crate) fn values_under(
    alloc: Global,
    plan: &Plan,
    tables: &Tables,
    args: &[Value],
    rows: &RowsInSight,
) -> Result<Values, NoMemory>
    ensures { IfOk result (λ v. values_end v ≡ collected (den (tree_of plan.now)
        (inputs_of tables.now args.now) (stack (seen rows.now)))) }
{
    values_outwards(alloc, plan, tables, args, rows, &RowsInSight::NoRow)
}

// The same inside of further rows, of which the outermost comes first: each row in sight is put in
// front of them, until none is left.
fn values_outwards(
    alloc: Global,
    plan: &Plan,
    tables: &Tables,
    args: &[Value],
    rows: &RowsInSight,
    further: &RowsInSight,
) -> Result<Values, NoMemory>
    ensures { IfOk result (λ v. values_end v ≡ collected (den (tree_of plan.now)
        (inputs_of tables.now args.now) (inside (seen further.now) (stack (seen rows.now))))) }
{
    match rows {
        RowsInSight::NoRow => {
            values_inside(alloc, plan, tables, args, further, &Outer::Outermost)
        }
        RowsInSight::Row(row, outer) => {
            let further = under(row, &*further);
            values_outwards(alloc, plan, tables, args, outer, &further)
        }
    }
}

// The same inside of further rows, of which the outermost comes first, under rows outside.
fn values_inside(
    alloc: Global,
    plan: &Plan,
    tables: &Tables,
    args: &[Value],
    further: &RowsInSight,
    outer: &Outer,
) -> Result<Values, NoMemory>
    ensures { IfOk result (λ v. values_end v ≡ collected (den (tree_of plan.now)
        (inputs_of tables.now args.now) (inside (seen further.now) (outer_rows outer.now)))) }
{
    match further {
        RowsInSight::NoRow => plan_values(alloc, plan, tables, args, outer),
        RowsInSight::Row(row, rest) => {
            let here = Outer::Under(row, &[], &[], &*outer);
            values_inside(alloc, plan, tables, args, rest, &here)
        }
    }
}
