//! SET (ISO/IEC 9075-4, 14.5) and SELECT INTO (ISO/IEC 9075-2, 14.7).

ghost use Rattle.rel_algebra.specs.Meaning.{does};
ghost use Rattle.rel_algebra.specs.Tree.{Set};
ghost use Rattle.routine_views.specs.Views.{expr_in, target as target_of};
ghost use Rattle.run_expressions.specs.Content.{world_of};
ghost use Rattle.run_places.specs.Places.{context_of, known_of};
ghost use Rattle.run_places.specs.Ran.{Ran};

use crate::raising::stopped;
use crate::units::assigned_value;
use bound_trees::{BoundExpr, BoundTarget};
use run_expressions::World;
use run_frames::Frame;
use run_outcomes::Outcome;
use run_places::Place;
use sql_values::NoMemory;

/// SET: the value is assigned to the variable's type, and stored.
#[cycle(run)]
pub fn run_set(
    target: &BoundTarget,
    expr: &BoundExpr,
    frame: &mut Frame,
    world: &mut World,
    place: &Place,
) -> Result<Outcome, NoMemory>
    ensures { Ran world.old world.new frame.new result
        (does (Set (target_of target.now) (expr_in (known_of place.now) expr.now))
        (context_of place.now) frame.old (world_of world.old)) }
{
    match assigned_value(expr, target.data_type, frame, world, place) {
        Ok(value) => {
            frame.set(target, value);
            frame.complete(0);
            Ok(Outcome::Next)
        }
        Err(stop) => stopped(stop, frame, world, place),
    }
}
