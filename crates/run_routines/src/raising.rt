//! What is done where a statement raises (ISO/IEC 9075-4, 14.2): the handler that is chosen acts.

ghost use Rattle.std.specs.Prelude.{take as first};
ghost use Rattle.rel_algebra.specs.Doing.{outside, settled};
ghost use Rattle.rel_algebra.specs.Handlers.{failing, raising, taking};
ghost use Rattle.run_expressions.specs.Content.{world_of};
ghost use Rattle.run_outcomes.specs.Scopes.{StandsIn, scopes_by};
ghost use Rattle.run_places.specs.Acting.{acts_of, untaken_by};
ghost use Rattle.run_places.specs.Places.{scopes_of};
ghost use Rattle.run_places.specs.Ran.{GoesOnFrom, Ran};

use crate::statements::run_stmt;
use bound_trees::BoundHandler;
use run_choices::Raise;
use run_expressions::{Stop, World};
use run_frames::{Extent, Frame};
use run_outcomes::{Chosen, Outcome, Scope, choose};
use run_places::{
    Onward, Place, after_stop, come_back, goes_on_after, in_action, outermost, show, untaken,
};
use sql_values::NoMemory;

/// A statement goes on from where an evaluation in it stopped: it raises what is raised.
#[cycle(run)]
pub fn stopped(
    stop: Stop,
    frame: &mut Frame,
    world: &mut World,
    place: &Place,
) -> Result<Outcome, NoMemory>
    ensures { GoesOnFrom stop (scopes_of place.now) world.old world.new frame.old frame.new result }
{
    match after_stop(stop) {
        Ok(next) => match next {
            Onward::Fails(raise) => fail(raise, frame, world, place),
            Onward::Ends(outcome) => Ok(outcome),
        },
        Err(NoMemory) => Err(NoMemory),
    }
}

/// A statement raises an exception: the handler that is chosen acts, and where there is none the
/// exception is raised.
#[cycle(run)]
pub fn fail(
    raise: Raise,
    frame: &mut Frame,
    world: &mut World,
    place: &Place,
) -> Result<Outcome, NoMemory>
    ensures { Ran world.old world.new frame.new result
        (failing (scopes_of place.now) raise frame.old (world_of world.old)) }
{
    take(raise, true, frame, world, place)
}

/// A statement raises conditions: the handler that is chosen acts. Where there is none, an exception
/// is raised, and other conditions are dropped.
#[cycle(run)]
pub fn signal(
    raise: Raise,
    frame: &mut Frame,
    world: &mut World,
    place: &Place,
) -> Result<Outcome, NoMemory>
    ensures { Ran world.old world.new frame.new result
        (raising (scopes_of place.now) raise frame.old (world_of world.old)) }
{
    let raised = raise.state().is_exception();
    take(raise, raised, frame, world, place)
}

// The handler that is chosen takes what is raised; what none takes is raised, or dropped.
#[cycle(run)]
fn take(
    raise: Raise,
    raised: bool,
    frame: &mut Frame,
    world: &mut World,
    place: &Place,
) -> Result<Outcome, NoMemory>
    ensures { Ran world.old world.new frame.new result
        (taking (scopes_of place.now) raise (untaken_by raised raise) frame.old
        (world_of world.old)) }
{
    let shown = show(raise, frame)?;
    let state = shown.state();
    match choose(&state, place.scopes) {
        Some(chosen) => {
            if goes_on_after(chosen.handler.handler_type) {
                return act_aside(&chosen, &shown, frame, world, place);
            }
            Ok(Outcome::Exiting(chosen.scope.level, shown))
        }
        None => Ok(untaken(raised, shown)),
    }
}

// The action of a CONTINUE handler, which sees what its compound statement sees; the variables and
// cursors that were declared further inside are kept aside meanwhile.
#[cycle(run)]
fn act_aside(
    chosen: &Chosen,
    handled: &Raise,
    frame: &mut Frame,
    world: &mut World,
    place: &Place,
) -> Result<Outcome, NoMemory>
    requires stands { StandsIn place.now.scopes.now chosen.now }
    ensures { Ran world.old world.new frame.new result
        (outside chosen.now.scope.variables chosen.now.scope.cursors (λ f w. settled
        (acts_of place.now (scopes_by (acts_of place.now) (first chosen.now.outer
        place.now.scopes.now)) chosen.now.scope chosen.now.handler.now handled.now f w))
        frame.old (world_of world.old)) }
{
    let extent = Extent {
        variables: chosen.scope.variables,
        cursors: chosen.scope.cursors,
    };
    let kept = frame.set_aside(world.allocator(), extent)?;
    let outer = outermost(&*place, chosen.outer);
    match act(
        chosen.handler,
        &chosen.scope,
        outer,
        handled,
        frame,
        world,
        place,
    ) {
        Ok(outcome) => come_back(kept, outcome, frame),
        Err(NoMemory) => Err(NoMemory),
    }
}

/// The action of a handler of a compound statement, by those outside of that one, which handles
/// what is raised. It leaves the area of success, in whatever way it ends.
#[cycle(run)]
pub fn act(
    handler: &BoundHandler,
    scope: &Scope,
    outer: &[Scope],
    handled: &Raise,
    frame: &mut Frame,
    world: &mut World,
    place: &Place,
) -> Result<Outcome, NoMemory>
    ensures { Ran world.old world.new frame.new result
        (settled (acts_of place.now (scopes_by (acts_of place.now) outer.now) scope.now handler.now
        handled.now frame.old (world_of world.old))) }
{
    let inner = in_action(&*place, &*outer, &*scope, &*handled)?;
    match run_stmt(handler.action.get(), frame, world, &inner) {
        Ok(outcome) => {
            frame.settle();
            Ok(outcome)
        }
        Err(NoMemory) => Err(NoMemory),
    }
}
