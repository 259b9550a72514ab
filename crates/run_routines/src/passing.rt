//! CALL (ISO/IEC 9075-2, 15.1).

ghost use Rattle.std.specs.Prelude.{◌≡◌, Some, map};
ghost use Rattle.rel_algebra.specs.Meaning.{argue, does};
ghost use Rattle.rel_algebra.specs.Tree.{CallItself, CallProcedure};
ghost use Rattle.rel_algebra.specs.World.{unit};
ghost use Rattle.routine_views.specs.Routines.{routines_of, with_modes};
ghost use Rattle.routine_views.specs.Views.{arguments as arguments_in, performed, target};
ghost use Rattle.run_expressions.specs.Content.{world_of};
ghost use Rattle.run_expressions.specs.Ending.{Ended};
ghost use Rattle.run_places.specs.Passing.{argument_value, comes_back, comes_into};
ghost use Rattle.run_places.specs.Places.{context_of, known_of, parameters_in, self_of};
ghost use Rattle.run_places.specs.Ran.{Ran};

use crate::expr::eval;
use crate::procedures::call_procedure;
use crate::raising::stopped;
use bound_trees::{BoundArgument, BoundCall, BoundTarget};
use catalog_store::ParameterMode;
use run_expressions::{Arguments, Frame, RowsInSight, Stop, World, leave};
use run_outcomes::Outcome;
use run_places::{
    Own, Place, own_modes, own_named, own_parameters, own_procedure, procedure_named, store, taken,
    variables_of, with_passed,
};
use sql_conditions::EngineCondition;
use sql_values::{Name, NoMemory, SqlType, Value};
use sqlite_items::Items;

/// CALL: its arguments are a unit, each converted to its parameter before the next is evaluated;
/// what the procedure did stays, also where it raises; and the values that come back are all
/// converted, and then stored.
#[cycle(run)]
pub fn run_call(
    call: &BoundCall,
    frame: &mut Frame,
    world: &mut World,
    place: &Place,
) -> Result<Outcome, NoMemory>
    ensures { Ran world.old world.new frame.new result
        (does (performed (known_of place.now) call.now.procedure
        (arguments_in (known_of place.now) call.now.arguments))
        (context_of place.now) frame.old (world_of world.old)) }
{
    let arguments = call.arguments.as_slice();
    let targets = variables_of(world.allocator(), arguments)?;
    match perform_into(
        &call.procedure,
        arguments,
        targets.as_slice(),
        frame,
        world,
        place,
    ) {
        Ok(values) => {
            store(world.allocator(), values, targets.as_slice(), frame)?;
            Ok(Outcome::Next)
        }
        Err(stop) => stopped(stop, frame, world, place),
    }
}

// What comes back of a CALL, as its variables take it.
#[cycle(run)]
fn perform_into(
    name: &Name,
    arguments: &[BoundArgument],
    targets: &[BoundTarget],
    frame: &Frame,
    world: &mut World,
    place: &Place,
) -> Result<Items<Value>, Stop>
    ensures { Ended world.old world.new result
        (comes_into (performed (known_of place.now) name.now
        (arguments_in (known_of place.now) arguments.now))
        (context_of place.now) (map target targets.now) frame.now (world_of world.old)) }
{
    match perform(name, arguments, frame, world, place) {
        Ok(outs) => taken(world.allocator(), targets, outs.as_slice()),
        Err(stop) => Err(stop),
    }
}

/// What comes back of a CALL of the procedure of a name: of the routine in which it stands, or of
/// another.
#[cycle(run)]
pub fn perform(
    name: &Name,
    arguments: &[BoundArgument],
    frame: &Frame,
    world: &mut World,
    place: &Place,
) -> Result<Items<Value>, Stop>
    ensures { Ended world.old world.new result
        (comes_back (performed (known_of place.now) name.now
        (arguments_in (known_of place.now) arguments.now))
        (context_of place.now) frame.now (world_of world.old)) }
{
    match own_named(place, name) {
        Some(own) => perform_itself(&own, arguments, frame, world, place),
        None => perform_other(name, arguments, frame, world, place),
    }
}

// What comes back of a CALL of the routine in which it stands. Where nothing calls itself, it
// raises.
#[cycle(run)]
fn perform_itself(
    own: &Own,
    arguments: &[BoundArgument],
    frame: &Frame,
    world: &mut World,
    place: &Place,
) -> Result<Items<Value>, Stop>
    requires { place.now.own ≡ Some own.now }
    ensures { Ended world.old world.new result
        (comes_back (CallItself (parameters_in own.now.routine)
        (arguments_in (known_of place.now) arguments.now))
        (context_of place.now) frame.now (world_of world.old)) }
{
    let (modes, types) = (own_modes(own), own_parameters(own));
    let values = pass(arguments, modes, types, frame, world, place)?;
    match own_procedure(own) {
        Some(procedure) => call_procedure(own.name, procedure, own.room, values, world, place),
        None => Err(Stop::of(EngineCondition::RecursionTooDeep)),
    }
}

// What comes back of a CALL of another procedure; where the name stands for none, nothing.
#[cycle(run)]
fn perform_other(
    name: &Name,
    arguments: &[BoundArgument],
    frame: &Frame,
    world: &mut World,
    place: &Place,
) -> Result<Items<Value>, Stop>
    ensures { Ended world.old world.new result
        (comes_back (CallProcedure name.now (routines_of place.now.catalog.now name.now)
        (arguments_in (known_of place.now) arguments.now))
        (context_of place.now) frame.now (world_of world.old)) }
{
    match procedure_named(place, name) {
        Some(procedure) => {
            let modes = procedure.head.modes.as_slice();
            let types = procedure.head.parameters.as_slice();
            let values = pass(arguments, modes, types, frame, world, place)?;
            let room = world.room();
            call_procedure(name, procedure, room, values, world, place)
        }
        None => {
            let _values = pass(arguments, &[], &[], frame, world, place)?;
            Ok(Items::new(world.allocator()))
        }
    }
}

// The values of the arguments of CALL, as a unit: where one raises, the tables are as before it.
#[cycle(run)]
#[tactic(auto, using(run_expressions::proofs::Laws::unit_stops))]
fn pass(
    arguments: &[BoundArgument],
    modes: &[ParameterMode],
    types: &[SqlType],
    frame: &Frame,
    world: &mut World,
    place: &Place,
) -> Result<Arguments, Stop>
    ensures { Ended world.old world.new result
        (unit (argue (arguments_in (known_of place.now) arguments.now)
        (with_modes modes.now types.now) (self_of place.now) frame.now) (world_of world.old)) }
{
    let mark = world.mark();
    match pass_all(arguments, modes, types, frame, world, place) {
        Ok(values) => Ok(values),
        Err(stop) => Err(leave(stop, mark, world)),
    }
}

// The values of the arguments, each as its parameter takes it before the next is evaluated.
#[cycle(run)]
fn pass_all(
    arguments: &[BoundArgument],
    modes: &[ParameterMode],
    types: &[SqlType],
    frame: &Frame,
    world: &mut World,
    place: &Place,
) -> Result<Arguments, Stop>
    ensures { Ended world.old world.new result
        (argue (arguments_in (known_of place.now) arguments.now)
        (with_modes modes.now types.now) (self_of place.now) frame.now (world_of world.old)) }
{
    let mut values = Arguments::new(world.allocator());
    for (at, argument) in arguments.iter().enumerate() {
        let value = pass_one(argument, frame, world, place);
        values = with_passed(world.allocator(), values, value, modes, types, at)?;
    }
    Ok(values)
}

// The value of an argument, before its parameter takes it.
#[cycle(run)]
fn pass_one(
    argument: &BoundArgument,
    frame: &Frame,
    world: &mut World,
    place: &Place,
) -> Result<Value, Stop>
    ensures { Ended world.old world.new result
        (argument_value (known_of place.now) (self_of place.now) frame.now argument.now
        (world_of world.old)) }
{
    match argument {
        BoundArgument::Value(expr) => eval(expr, &RowsInSight::NoRow, frame, world, place),
        BoundArgument::Variable(target) => Ok(frame.variable(target.slot)?),
        BoundArgument::Given => Ok(Value::Null),
    }
}
