//! Procedures.

ghost use Rattle.std.specs.Prelude.{◌≡◌, true};
ghost use Rattle.catalog_store.specs.Entries.{procedure_of};
ghost use Rattle.routine_views.specs.Routines.{procedure_view, routines_of};
ghost use Rattle.run_expressions.specs.Content.{world_of};
ghost use Rattle.run_expressions.specs.Ending.{Ended};
ghost use Rattle.run_places.specs.Activations.{procedure_activation};
ghost use Rattle.run_places.specs.Places.{perform_within, procedure_run};

use crate::statements::run_stmt;
use catalog_store::Procedure;
use run_expressions::{Arguments, Frame, Stop, World};
use run_outcomes::outs;
use run_places::{Own, Place, RoutineBody, in_routine, start};
use sql_conditions::EngineCondition;
use sql_values::{Name, NoMemory, Value};
use sqlite_items::Items;

/// What a procedure does that is called with these values, where so many activations of it may
/// still come: it gives the values of its OUT and INOUT parameters (ISO/IEC 9075-2, 15.1).
#[cycle(run)]
pub fn call_procedure(
    name: &Name,
    procedure: &Procedure,
    room: u32,
    values: Arguments,
    world: &mut World,
    place: &Place,
) -> Result<Items<Value>, Stop>
    ensures { Ended world.old world.new result
        (perform_within room (procedure_view (routines_of place.now.catalog.now) name.now
        (procedure_of procedure.now)) values (world_of world.old)) }
{
    if procedure.self_calling {
        activate_procedure(name, procedure, room, values, world, place)
    } else {
        run_procedure(name, procedure, 0, values, world, place)
    }
}

// One activation more of a procedure that calls itself: where there is room it takes a turn.
#[cycle(run)]
fn activate_procedure(
    name: &Name,
    procedure: &Procedure,
    room: u32,
    values: Arguments,
    world: &mut World,
    place: &Place,
) -> Result<Items<Value>, Stop>
    requires { procedure.now.self_calling ≡ true }
    ensures { Ended world.old world.new result
        (procedure_activation room (procedure_view (routines_of place.now.catalog.now) name.now
        (procedure_of procedure.now)) values (world_of world.old)) }
{
    if room == 0 {
        return Err(Stop::of(EngineCondition::RecursionTooDeep));
    }
    start(world)?;
    let answer = run_procedure(name, procedure, room - 1, values, world, place);
    world.deactivate();
    answer
}

// The body of a procedure is run in a frame of its own, where so many activations may still come
// inside it.
#[cycle(run)]
fn run_procedure(
    name: &Name,
    procedure: &Procedure,
    room: u32,
    values: Arguments,
    world: &mut World,
    place: &Place,
) -> Result<Items<Value>, Stop>
    ensures { Ended world.old world.new result
        (procedure_run room (procedure_view (routines_of place.now.catalog.now) name.now
        (procedure_of procedure.now)) values (world_of world.old)) }
{
    let own = Own {
        name: &*name,
        routine: RoutineBody::Procedure(&*procedure),
        room,
    };
    let inner = in_routine(own, &*place.catalog, &*place.kept);
    let mut frame = Frame::of(values);
    let modes = procedure.head.modes.as_slice();
    let types = procedure.head.parameters.as_slice();
    match run_stmt(&procedure.body, &mut frame, world, &inner) {
        Ok(outcome) => outs(world.allocator(), modes, types, outcome, &frame),
        Err(NoMemory) => Err(Stop::NoMemory),
    }
}
