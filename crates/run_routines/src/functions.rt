//! Functions whose body is a statement.

ghost use Rattle.std.specs.Prelude.{◌≡◌, true};
ghost use Rattle.catalog_store.specs.Entries.{interpreted_of};
ghost use Rattle.routine_views.specs.Routines.{function_view, routines_of};
ghost use Rattle.run_expressions.specs.Content.{world_of};
ghost use Rattle.run_expressions.specs.Ending.{Ended};
ghost use Rattle.run_places.specs.Places.{call_within, function_run};
ghost use Rattle.run_places.specs.Activations.{function_activation};

use crate::statements::run_stmt;
use catalog_store::InterpretedFunction;
use run_expressions::{Arguments, Frame, Stop, World};
use run_outcomes::returned;
use run_places::{Own, Place, RoutineBody, any_null, in_routine, start};
use sql_conditions::EngineCondition;
use sql_values::{Name, NoMemory, Value};

/// A call of a function whose body is a statement (ISO/IEC 9075-2, 10.4), where so many activations
/// of it may still come. One that is NULL on NULL isn't run where an argument is.
#[cycle(run)]
pub fn call_function(
    name: &Name,
    function: &InterpretedFunction,
    room: u32,
    values: Arguments,
    world: &mut World,
    place: &Place,
) -> Result<Value, Stop>
    ensures { Ended world.old world.new result
        (call_within room (function_view (routines_of place.now.catalog.now) name.now
        (interpreted_of function.now)) values (world_of world.old)) }
{
    if function.null_call && any_null(values.as_slice()) {
        return Ok(Value::Null);
    }
    if function.self_calling {
        activate_function(name, function, room, values, world, place)
    } else {
        run_function(name, function, 0, values, world, place)
    }
}

// One activation more of a function that calls itself: where there is room it takes a turn.
#[cycle(run)]
fn activate_function(
    name: &Name,
    function: &InterpretedFunction,
    room: u32,
    values: Arguments,
    world: &mut World,
    place: &Place,
) -> Result<Value, Stop>
    requires { function.now.self_calling ≡ true }
    ensures { Ended world.old world.new result
        (function_activation room (function_view (routines_of place.now.catalog.now) name.now
        (interpreted_of function.now)) values (world_of world.old)) }
{
    if room == 0 {
        return Err(Stop::of(EngineCondition::RecursionTooDeep));
    }
    start(world)?;
    let answer = run_function(name, function, room - 1, values, world, place);
    world.deactivate();
    answer
}

// The body of a function is run in a frame of its own, where so many activations may still come
// inside it; its value is assigned to the type of the result.
#[cycle(run)]
fn run_function(
    name: &Name,
    function: &InterpretedFunction,
    room: u32,
    values: Arguments,
    world: &mut World,
    place: &Place,
) -> Result<Value, Stop>
    ensures { Ended world.old world.new result
        (function_run room (function_view (routines_of place.now.catalog.now) name.now
        (interpreted_of function.now)) values (world_of world.old)) }
{
    let own = Own {
        name: &*name,
        routine: RoutineBody::Function(&*function),
        room,
    };
    let inner = in_routine(own, &*place.catalog, &*place.kept);
    let mut frame = Frame::of(values);
    match run_stmt(&function.body, &mut frame, world, &inner) {
        Ok(outcome) => returned(world.allocator(), function.head.returns, outcome),
        Err(NoMemory) => Err(Stop::NoMemory),
    }
}
