//! OPEN, FETCH and CLOSE (ISO/IEC 9075-2, 14.4 to 14.6).

ghost use Rattle.std.specs.Prelude.{[], map};
ghost use Rattle.rel_algebra.specs.Cursors.{at_cursor, closing, fetching, opening};
ghost use Rattle.rel_algebra.specs.Meaning.{answer};
ghost use Rattle.rel_algebra.specs.World.{unit};
ghost use Rattle.routine_views.specs.Views.{cursor_in, target as target_of};
ghost use Rattle.run_expressions.specs.Content.{world_of};
ghost use Rattle.run_expressions.specs.Ending.{Ended};
ghost use Rattle.run_places.specs.Places.{queries_of, scopes_of, self_of};
ghost use Rattle.run_places.specs.Ran.{Ran};

use crate::raising::{fail, signal, stopped};
use crate::units::assess;
use bound_trees::BoundTarget;
use row_types::Row;
use run_choices::Raise;
use run_expressions::{Stop, World};
use run_frames::{Fetched, Frame};
use run_outcomes::Outcome;
use run_places::{Place, store, taken};
use sql_conditions::EngineCondition;
use sql_values::NoMemory;
use sqlite_items::{Items, at};

/// OPEN: the rows are those of this moment. A cursor that is open already raises.
#[cycle(run)]
pub fn run_open(
    slot: usize,
    frame: &mut Frame,
    world: &mut World,
    place: &Place,
) -> Result<Outcome, NoMemory>
    ensures { Ran world.old world.new frame.new result
        (at_cursor slot (λ cursor. opening cursor slot (scopes_of place.now)
        (answer (cursor_in (queries_of place.now) slot) (self_of place.now) [])) frame.old
        (world_of world.old)) }
{
    if frame.is_open(slot) {
        let raise = Raise::of(EngineCondition::InvalidCursorState);
        return fail(raise, frame, world, place);
    }
    match cursor_rows(slot, frame, world, place) {
        Ok(rows) => match frame.open(world.allocator(), slot, rows) {
            Ok(()) => {
                frame.complete(0);
                Ok(Outcome::Next)
            }
            Err(NoMemory) => Err(NoMemory),
        },
        Err(stop) => stopped(stop, frame, world, place),
    }
}

// The rows of the cursor of a slot; where no cursor is, there are none.
#[cycle(run)]
fn cursor_rows(
    slot: usize,
    frame: &Frame,
    world: &mut World,
    place: &Place,
) -> Result<Items<Row>, Stop>
    ensures { Ended world.old world.new result
        (unit (answer (cursor_in (queries_of place.now) slot) (self_of place.now) [] frame.now)
        (world_of world.old)) }
{
    match at(place.cursors, slot) {
        Some(query) => assess(query, frame, world, place),
        None => Ok(Items::new(world.allocator())),
    }
}

/// FETCH: the cursor moves on, also where a variable refuses its value. With no row left it raises
/// 02000.
#[cycle(run)]
pub fn run_fetch(
    slot: usize,
    targets: &[BoundTarget],
    frame: &mut Frame,
    world: &mut World,
    place: &Place,
) -> Result<Outcome, NoMemory>
    ensures { Ran world.old world.new frame.new result
        (at_cursor slot (λ cursor. fetching cursor slot (scopes_of place.now)
        (map target_of targets.now)) frame.old (world_of world.old)) }
{
    match frame.advance(slot) {
        Fetched::Closed => {
            let raise = Raise::of(EngineCondition::InvalidCursorState);
            fail(raise, frame, world, place)
        }
        Fetched::NoRow => signal(Raise::of(EngineCondition::NoData), frame, world, place),
        Fetched::Row(row) => match taken(world.allocator(), targets, row.as_slice()) {
            Ok(values) => match store(world.allocator(), values, targets, frame) {
                Ok(()) => Ok(Outcome::Next),
                Err(NoMemory) => Err(NoMemory),
            },
            Err(stop) => stopped(stop, frame, world, place),
        },
    }
}

/// CLOSE. A cursor that is closed already raises.
#[cycle(run)]
pub fn run_close(
    slot: usize,
    frame: &mut Frame,
    world: &mut World,
    place: &Place,
) -> Result<Outcome, NoMemory>
    ensures { Ran world.old world.new frame.new result
        (at_cursor slot (λ cursor. closing cursor slot (scopes_of place.now)) frame.old
        (world_of world.old)) }
{
    if !frame.is_open(slot) {
        let raise = Raise::of(EngineCondition::InvalidCursorState);
        return fail(raise, frame, world, place);
    }
    frame.close(slot);
    frame.complete(0);
    Ok(Outcome::Next)
}
