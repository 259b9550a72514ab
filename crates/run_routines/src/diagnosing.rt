//! GET DIAGNOSTICS (ISO/IEC 9075-2, 23.1).

ghost use Rattle.rel_algebra.specs.Meaning.{does};
ghost use Rattle.routine_views.specs.Views.{diagnostics, which_area};
ghost use Rattle.run_expressions.specs.Content.{world_of};
ghost use Rattle.run_places.specs.Places.{context_of, known_of};
ghost use Rattle.run_places.specs.Ran.{Ran};

use crate::raising::stopped;
use crate::units::evaluate_perhaps;
use bound_trees::BoundDiagnostics;
use run_expressions::World;
use run_frames::Frame;
use run_outcomes::Outcome;
use run_places::{Place, get, number_of};
use sql_values::NoMemory;

/// GET DIAGNOSTICS: its number is evaluated, where it has one, and then all is read, converted and
/// stored. The diagnostics stay as they are.
#[cycle(run)]
pub fn run_get_diagnostics(
    statement: &BoundDiagnostics,
    frame: &mut Frame,
    world: &mut World,
    place: &Place,
) -> Result<Outcome, NoMemory>
    ensures { Ran world.old world.new frame.new result
        (does (diagnostics (known_of place.now) (which_area statement.now.area)
        statement.now.information) (context_of place.now) frame.old (world_of world.old)) }
{
    match evaluate_perhaps(number_of(statement, place.stacked), frame, world, place) {
        Ok(number) => {
            match get(world.allocator(), statement, &number, place.stacked, frame) {
                Ok(()) => Ok(Outcome::Next),
                Err(stop) => stopped(stop, frame, world, place),
            }
        }
        Err(stop) => stopped(stop, frame, world, place),
    }
}
