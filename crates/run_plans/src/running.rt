//! A kept plan, run: the frame's variables are its arguments, and the rows in sight the rows outside
//! of it (ISO/IEC 9075-2, 7.17).

ghost use Rattle.std.specs.Prelude.{◌≡◌, IfOk};
ghost use Rattle.row_types.specs.OuterRows.{outer_rows};
ghost use Rattle.rel_algebra.specs.Plan.{collected, den};
ghost use Rattle.rel_algebra.specs.PlanView.{tree_of};
ghost use Rattle.plan_exec.specs.Passing.{inputs_of};
ghost use Rattle.plan_rows.specs.Firsts.{values_end};
ghost use Rattle.run_choices.specs.Sight.{seen};
ghost use Rattle.run_expressions.specs.Content.{world_of};
ghost use Rattle.run_expressions.specs.Ending.{Ended};
ghost use Rattle.run_plans.specs.Ending.{kept_end};

use crate::outside::values_under;
use kept_queries::KeptQuery;
use plan_exec::{Values, collect_values, execute_under};
use rel_algebra::Plan;
use row_types::{Outer, Row, Steps};
use run_expressions::{Frame, Raise, RowsInSight, Stop, World};
use sql_values::{NoMemory, Value};
use sqlite_items::Items;
use std::alloc::Global;
use std::marker::Brand;
use std::sync::ledger::{Blank, Ledger};
use table_store::Tables;

/// The rows of a kept query, by its plan over the tables and the variables in sight, under the rows
/// in sight. The world is read alone.
pub fn run_kept(
    kept: &KeptQuery,
    outer: &RowsInSight,
    frame: &Frame,
    world: &World,
) -> Result<Items<Row>, Stop>
    ensures { Ended world.now world.now result
        (kept_end kept.now (seen outer.now) frame.now (world_of world.now)) }
{
    let alloc = world.allocator();
    match values_under(alloc, &kept.plan, world.tables(), frame.variables(), outer)? {
        Values::Rows(rows) => Ok(rows),
        Values::Raised(area) => Err(Stop::Raised(Raise::held(alloc, area)?)),
    }
}

/// The values of a plan's rows over tables and arguments, under rows outside, or their first area.
pub(crate) fn plan_values(
    alloc: Global,
    plan: &Plan,
    tables: &Tables,
    args: &[Value],
    outer: &Outer,
) -> Result<Values, NoMemory>
    ensures { IfOk result (λ v. values_end v ≡ collected (den (tree_of plan.now)
        (inputs_of tables.now args.now) (outer_rows outer.now))) }
{
    counted_values::<Brand>(Blank::new(1), alloc, plan, tables, args, outer)
}

// The same, with the reads of rows counted by a ledger of this run alone.
fn counted_values<L: Ledger>(
    blank: Blank,
    alloc: Global,
    plan: &Plan,
    tables: &Tables,
    args: &[Value],
    outer: &Outer,
) -> Result<Values, NoMemory>
    requires name { blank.name ≡ L.name }
    requires parts { blank.parts ≡ L.parts }
    requires some { blank.parts ≡ 1 }
    ensures { IfOk result (λ v. values_end v ≡ collected (den (tree_of plan.now)
        (inputs_of tables.now args.now) (outer_rows outer.now))) }
{
    let (book, share) = blank.open();
    let mut steps = Steps::<L>::new(book, share);
    let rows = execute_under(alloc, plan, tables, args, outer, &mut steps)?;
    collect_values(alloc, rows, &mut steps)
}
