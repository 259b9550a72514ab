//! SIGNAL and RESIGNAL (ISO/IEC 9075-4, 17.2 and 17.3).

ghost use Rattle.rel_algebra.specs.Diagnostics.{again_as, resignalling, signalling};
ghost use Rattle.rel_algebra.specs.Handlers.{raising};
ghost use Rattle.rel_algebra.specs.Meaning.{ev_perhaps};
ghost use Rattle.routine_views.specs.Views.{perhaps};
ghost use Rattle.run_expressions.specs.Content.{world_of};
ghost use Rattle.run_places.specs.Places.{known_of, scopes_of, self_of, stacked_of};
ghost use Rattle.run_places.specs.Ran.{Ran};

use crate::raising::{fail, signal, stopped};
use crate::units::evaluate_perhaps;
use bound_trees::{BoundResignal, BoundSignal};
use run_choices::Raise;
use run_expressions::World;
use run_frames::Frame;
use run_outcomes::Outcome;
use run_places::{Place, again, message_of, text_of};
use sql_conditions::{Area, Condition, EngineCondition, SqlState};
use sql_texts::Text;
use sql_values::NoMemory;

/// SIGNAL: one condition of a state, with its text. A text that is NULL raises.
#[cycle(run)]
pub fn run_signal(
    statement: &BoundSignal,
    frame: &mut Frame,
    world: &mut World,
    place: &Place,
) -> Result<Outcome, NoMemory>
    ensures { Ran world.old world.new frame.new result
        (signalling statement.now.state (scopes_of place.now)
        (ev_perhaps (perhaps (known_of place.now) statement.now.message) (self_of place.now))
        frame.old (world_of world.old)) }
{
    match evaluate_perhaps(statement.message.as_ref(), frame, world, place) {
        Ok(value) => match text_of(value) {
            Some(text) => {
                let condition = Condition {
                    state: statement.state,
                    message: message_of(text),
                };
                match Raise::held(world.allocator(), Area::of(condition)) {
                    Ok(raise) => signal(raise, frame, world, place),
                    Err(NoMemory) => Err(NoMemory),
                }
            }
            None => fail(
                Raise::of(EngineCondition::NullNotAllowed),
                frame,
                world,
                place,
            ),
        },
        Err(stop) => stopped(stop, frame, world, place),
    }
}

/// RESIGNAL: the conditions that the innermost action handles are raised again. Outside of an
/// action it raises 0K000.
#[cycle(run)]
pub fn run_resignal(
    statement: &BoundResignal,
    frame: &mut Frame,
    world: &mut World,
    place: &Place,
) -> Result<Outcome, NoMemory>
    ensures { Ran world.old world.new frame.new result
        (resignalling (stacked_of place.now) statement.now.state (scopes_of place.now)
        (ev_perhaps (perhaps (known_of place.now) statement.now.message) (self_of place.now))
        frame.old (world_of world.old)) }
{
    match place.stacked {
        None => fail(
            Raise::of(EngineCondition::HandlerNotActive),
            frame,
            world,
            place,
        ),
        Some(handled) => match evaluate_perhaps(statement.message.as_ref(), frame, world, place) {
            Ok(value) => match text_of(value) {
                Some(text) => raise_again(&statement.state, text, handled, frame, world, place),
                None => fail(
                    Raise::of(EngineCondition::NullNotAllowed),
                    frame,
                    world,
                    place,
                ),
            },
            Err(stop) => stopped(stop, frame, world, place),
        },
    }
}

// The handled conditions are raised again.
#[cycle(run)]
fn raise_again(
    state: &Option<SqlState>,
    text: Option<Text>,
    handled: &Raise,
    frame: &mut Frame,
    world: &mut World,
    place: &Place,
) -> Result<Outcome, NoMemory>
    ensures { Ran world.old world.new frame.new result
        (raising (scopes_of place.now) (again_as state.now text handled.now) frame.old
        (world_of world.old)) }
{
    match again(world.allocator(), state, text, handled) {
        Ok(raise) => signal(raise, frame, world, place),
        Err(NoMemory) => Err(NoMemory),
    }
}
