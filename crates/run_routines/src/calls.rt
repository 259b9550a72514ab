//! Calls of functions in expressions.

ghost use Rattle.std.specs.Prelude.{◌≡◌, [], true, Some};
ghost use Rattle.rel_algebra.specs.Tree.{Call, CallSelf, Returned};
ghost use Rattle.rel_algebra.specs.Plain.{planned_expr};
ghost use Rattle.rel_algebra.specs.Meaning.{ev, call as call_by};
ghost use Rattle.catalog_store.specs.Entries.{interpreted_of};
ghost use Rattle.routine_views.specs.Views.{called, expr_in, types_of};
ghost use Rattle.routine_views.specs.Routines.{function_view, routines_of};
ghost use Rattle.run_expressions.specs.Content.{world_of};
ghost use Rattle.run_expressions.specs.Ending.{Ended};
ghost use Rattle.run_choices.specs.Sight.{seen};
ghost use Rattle.run_places.specs.Callees.{IsPlanned};
ghost use Rattle.run_places.specs.Places.{known_of, self_of, no_routine, parameters_in};
ghost use Rattle.run_places.specs.Views.{exprs_in};

use crate::expr::{eval, eval_arguments};
use crate::functions::call_function;
use bound_trees::BoundExpr;
use catalog_store::{FunctionHead, InterpretedFunction};
use run_expressions::{Arguments, Frame, RowsInSight, Stop, World};
use run_places::{
    Callee, Own, Place, SelfCall, in_no_routine, named, own_named, own_parameters, refused,
    self_call,
};
use run_plans::{call_plan_for, run_call_plan};
use run_rows::assigned;
use sql_values::{Name, SqlType, Value};

/// A call of the function of a name (ISO/IEC 9075-2, 10.4): of the one in which it stands, or of
/// another.
#[cycle(run)]
pub fn call(
    name: &Name,
    arguments: &[BoundExpr],
    rows: &RowsInSight,
    frame: &Frame,
    world: &mut World,
    place: &Place,
) -> Result<Value, Stop>
    ensures { Ended world.old world.new result
        (ev (called (known_of place.now) name.now (exprs_in (known_of place.now) arguments.now))
        (self_of place.now) (seen rows.now) frame.now (world_of world.old)) }
{
    match own_named(place, name) {
        Some(own) => call_itself(&own, arguments, rows, frame, world, place),
        None => call_other(name, arguments, rows, frame, world, place),
    }
}

// A call of the function in which it stands. Where nothing calls itself, it raises.
#[cycle(run)]
fn call_itself(
    own: &Own,
    arguments: &[BoundExpr],
    rows: &RowsInSight,
    frame: &Frame,
    world: &mut World,
    place: &Place,
) -> Result<Value, Stop>
    requires { place.now.own ≡ Some own.now }
    ensures { Ended world.old world.new result
        (ev (CallSelf (types_of (parameters_in own.now.routine))
        (exprs_in (known_of place.now) arguments.now))
        (self_of place.now) (seen rows.now) frame.now (world_of world.old)) }
{
    let parameters = own_parameters(own);
    let values = eval_arguments(arguments, parameters, rows, frame, world, place)?;
    match self_call(own) {
        SelfCall::Itself(function) => {
            call_function(own.name, function, own.room, values, world, place)
        }
        SelfCall::Refused(null_call) => refused(null_call, values.as_slice()),
    }
}

// A call of another function. Where the name stands for none, the value is NULL.
#[cycle(run)]
fn call_other(
    name: &Name,
    arguments: &[BoundExpr],
    rows: &RowsInSight,
    frame: &Frame,
    world: &mut World,
    place: &Place,
) -> Result<Value, Stop>
    ensures { Ended world.old world.new result
        (ev (Call name.now (routines_of place.now.catalog.now name.now)
        (exprs_in (known_of place.now) arguments.now))
        (self_of place.now) (seen rows.now) frame.now (world_of world.old)) }
{
    match named(place, name) {
        Callee::Planned(head, body) => {
            let parameters = head.parameters.as_slice();
            let values = eval_arguments(arguments, parameters, rows, frame, world, place)?;
            call_returned(name, head, body, values, world, place)
        }
        Callee::Interpreted(function) => {
            let parameters = function.head.parameters.as_slice();
            let values = eval_arguments(arguments, parameters, rows, frame, world, place)?;
            call_stated(name, function, values, world, place)
        }
        Callee::Nothing => {
            let _values = eval_arguments(arguments, &[], rows, frame, world, place)?;
            Ok(Value::Null)
        }
    }
}

// A call of a function whose body is one RETURN: by a plan that is kept of its calls and fits there,
// or else by its body.
#[cycle(run)]
fn call_returned(
    name: &Name,
    head: &FunctionHead,
    body: &BoundExpr,
    values: Arguments,
    world: &mut World,
    place: &Place,
) -> Result<Value, Stop>
    requires { IsPlanned place.now.catalog.now (routines_of place.now.catalog.now name.now) head.now
        body.now }
    ensures { Ended world.old world.new result
        (call_by (routines_of place.now.catalog.now name.now) values (world_of world.old)) }
{
    match call_plan_for(place, name, &values, &*world) {
        Some(call) => run_call_plan(call, values, &*world),
        None => run_body(body, head.returns, values, world, place),
    }
}

// A call of a function whose body is a statement: by a plan that is kept of its calls and fits
// there, or else by its body, with the room that is left.
#[cycle(run)]
fn call_stated(
    name: &Name,
    function: &InterpretedFunction,
    values: Arguments,
    world: &mut World,
    place: &Place,
) -> Result<Value, Stop>
    requires { routines_of place.now.catalog.now name.now ≡ function_view
        (routines_of place.now.catalog.now) name.now (interpreted_of function.now) }
    ensures { Ended world.old world.new result
        (call_by (routines_of place.now.catalog.now name.now) values (world_of world.old)) }
{
    match call_plan_for(place, name, &values, &*world) {
        Some(call) => run_call_plan(call, values, &*world),
        None => {
            let room = world.room();
            call_function(name, function, room, values, world, place)
        }
    }
}

// What a function returns whose body is one RETURN: its body is run in a frame of its own, where no
// row is in sight. It has a plan, so it writes nothing, and nothing has to be taken back.
#[cycle(run)]
fn run_body(
    body: &BoundExpr,
    returns: SqlType,
    values: Arguments,
    world: &mut World,
    place: &Place,
) -> Result<Value, Stop>
    requires { planned_expr (expr_in (no_routine place.now.catalog.now) body.now) ≡ true }
    ensures { Ended world.old world.new result
        (call_by (Returned [] returns (expr_in (no_routine place.now.catalog.now) body.now)) values
        (world_of world.old)) }
{
    let frame = Frame::of(values);
    let inner = in_no_routine(&*place.catalog, &*place.kept);
    let value = eval(body, &RowsInSight::NoRow, &frame, world, &inner);
    assigned(world.allocator(), value, returns)
}
