//! Calls of functions that are answered by a kept plan: which plan is kept of a call at a place,
//! and how it is run (ISO/IEC 9075-2, 10.4).

ghost use Rattle.std.specs.Prelude.{◌≡◌, IfSome};
ghost use Rattle.rel_algebra.specs.Joins.{table_width};
ghost use Rattle.rel_algebra.specs.Meaning.{call as call_by};
ghost use Rattle.scanned_tables.specs.Scans.{AreWide};
ghost use Rattle.routine_views.specs.Routines.{routines_of};
ghost use Rattle.call_plans.specs.Calls.{IsCallPlan};
ghost use Rattle.run_expressions.specs.Content.{world_of};
ghost use Rattle.run_expressions.specs.Ending.{Ended};
ghost use Rattle.run_plans.specs.Calling.{call_end};

use crate::running::plan_values;
use crate::widths::are_wide;
use call_plans::{CallPlan, calls_mean};
use plan_exec::Values;
use rel_algebra::kept_tables_fit;
use row_types::Outer;
use run_choices::single;
use run_expressions::{Arguments, Raise, Stop, World};
use run_places::Place;
use sql_values::{Name, Value};
use table_store::Tables;

/// A kept plan by which a call of the function of a name ends, wherever the query around it is
/// evaluated: the plan has as many parameters as there are arguments, and each table that it reads
/// has as many columns as it has in the plan. What is missed is only slower.
pub fn call_plan_for<'a>(
    place: &Place<'a>,
    name: &Name,
    values: &Arguments,
    world: &World,
) -> Option<&'a CallPlan>
    ensures { IfSome result (λ c. call_by (routines_of place.now.catalog.now name.now) values.now
        (world_of world.now) ≡ call_end c.now values.now (world_of world.now)) }
{
    calls_mean();
    kept_tables_fit();
    let stored = world.tables();
    let _rows = stored.len();
    match call_at(place, name, values.as_slice().len()) {
        Some(call) => if_tables_fit(call, stored),
        None => None,
    }
}

// What is kept of the calls of a name with so many arguments.
fn call_at<'a>(place: &Place<'a>, name: &Name, arguments: usize) -> Option<&'a CallPlan>
    ensures kept { IfSome result (λ c. IsCallPlan place.now.catalog.now name.now c.now) }
    ensures parameters { IfSome result (λ c. c.now.parameters ≡ arguments) }
{
    match place.kept.call(name) {
        Some(call) => if_taking(call, arguments),
        None => None,
    }
}

// A plan of calls, where it has so many parameters.
fn if_taking<'a>(call: &'a CallPlan, arguments: usize) -> Option<&'a CallPlan>
    ensures same { IfSome result (λ c. c.now ≡ call.now) }
    ensures parameters { IfSome result (λ _. call.now.parameters ≡ arguments) }
{
    if call.parameters == arguments {
        return Some(call);
    }
    None
}

// A plan of calls, where each table that it reads has as many columns as it has there.
fn if_tables_fit<'a>(call: &'a CallPlan, tables: &Tables) -> Option<&'a CallPlan>
    ensures same { IfSome result (λ c. c.now ≡ call.now) }
    ensures wide { IfSome result (λ _. AreWide call.now.tables (table_width tables.now.tables)) }
{
    if are_wide(call.tables.as_slice(), tables) {
        return Some(call);
    }
    None
}

/// The value of a call, by its plan over the tables and the arguments. The world is read alone.
pub fn run_call_plan(call: &CallPlan, values: Arguments, world: &World) -> Result<Value, Stop>
    ensures { Ended world.now world.now result
        (call_end call.now values (world_of world.now)) }
{
    call_value(call, values.as_slice(), world)
}

// The value of the one row of a call's plan, or its area.
fn call_value(call: &CallPlan, values: &[Value], world: &World) -> Result<Value, Stop>
    ensures { Ended world.now world.now result
        (call_end call.now values.now (world_of world.now)) }
{
    let alloc = world.allocator();
    match plan_values(alloc, &call.plan, world.tables(), values, &Outer::Outermost)? {
        Values::Rows(rows) => single(rows.as_slice()),
        Values::Raised(area) => Err(Stop::Raised(Raise::held(alloc, area)?)),
    }
}
