//! SELECT INTO (ISO/IEC 9075-2, 14.7).

ghost use Rattle.std.specs.Prelude.{map};
ghost use Rattle.rel_algebra.specs.Meaning.{does};
ghost use Rattle.rel_algebra.specs.Tree.{SelectInto};
ghost use Rattle.rel_algebra.specs.World.{unit};
ghost use Rattle.routine_views.specs.Views.{query_in, target as target_of};
ghost use Rattle.run_expressions.specs.Content.{world_of};
ghost use Rattle.run_expressions.specs.Ending.{Ended};
ghost use Rattle.run_places.specs.Places.{context_of, known_of, self_of};
ghost use Rattle.run_places.specs.Ran.{Ran};
ghost use Rattle.run_routines.specs.Selecting.{selects};

use crate::queries::answer_query;
use crate::raising::{signal, stopped};
use bound_trees::{BoundQuery, BoundTarget};
use row_types::Row;
use run_choices::Raise;
use run_expressions::{RowsInSight, Stop, World, leave};
use run_frames::Frame;
use run_outcomes::Outcome;
use run_places::{Place, one_row, store};
use sql_conditions::EngineCondition;
use sql_values::NoMemory;

// The values of the one row of a query. Where it raises, the tables are as before it.
#[cycle(run)]
#[tactic(auto, using(run_expressions::proofs::Laws::unit_stops, run_expressions::proofs::Laws::follows))]
fn selected(
    query: &BoundQuery,
    targets: &[BoundTarget],
    frame: &Frame,
    world: &mut World,
    place: &Place,
) -> Result<Option<Row>, Stop>
    ensures { Ended world.old world.new result
        (unit (selects (query_in (known_of place.now) query.now) (map target_of targets.now)
        (self_of place.now) frame.now) (world_of world.old)) }
{
    let mark = world.mark();
    let rows = answer_query(query, &RowsInSight::NoRow, frame, world, place);
    match one_row(world.allocator(), targets, rows) {
        Ok(values) => Ok(values),
        Err(stop) => Err(leave(stop, mark, world)),
    }
}

/// SELECT INTO: the values of the one row into their variables. No row raises 02000.
#[cycle(run)]
pub fn run_select_into(
    query: &BoundQuery,
    targets: &[BoundTarget],
    frame: &mut Frame,
    world: &mut World,
    place: &Place,
) -> Result<Outcome, NoMemory>
    ensures { Ran world.old world.new frame.new result
        (does (SelectInto (query_in (known_of place.now) query.now) (map target_of targets.now))
        (context_of place.now) frame.old (world_of world.old)) }
{
    match selected(query, targets, frame, world, place) {
        Ok(Some(values)) => match store(world.allocator(), values, targets, frame) {
            Ok(()) => Ok(Outcome::Next),
            Err(NoMemory) => Err(NoMemory),
        },
        Ok(None) => signal(Raise::of(EngineCondition::NoData), frame, world, place),
        Err(stop) => stopped(stop, frame, world, place),
    }
}
