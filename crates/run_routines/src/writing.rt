//! INSERT, UPDATE and DELETE in routines (ISO/IEC 9075-2, 14.11, 14.14 and 14.9).

ghost use Rattle.rel_algebra.specs.Handlers.{with_value};
ghost use Rattle.rel_algebra.specs.Meaning.{met};
ghost use Rattle.rel_algebra.specs.World.{unit};
ghost use Rattle.routine_views.specs.Views.{query_in};
ghost use Rattle.run_expressions.specs.Content.{world_of};
ghost use Rattle.run_expressions.specs.Ending.{Ended};
ghost use Rattle.run_places.specs.Places.{known_of, scopes_of, self_of};
ghost use Rattle.run_places.specs.Ran.{Ran};
ghost use Rattle.run_routines.specs.Writing.{GoesOnWith, writes, written};

use crate::queries::answer_query;
use crate::raising::{signal, stopped};
use bound_trees::BoundQuery;
use row_types::Row;
use run_changes::{change_counted, remove_counted, store_counted};
use run_choices::Raise;
use run_expressions::{RowsInSight, Stop, World, leave};
use run_frames::Frame;
use run_outcomes::Outcome;
use run_places::Place;
use run_rows::in_vec;
use sql_conditions::EngineCondition;
use sql_values::{Name, NoMemory};
use sqlite_items::Items;

/// A data change statement, by what it does with the rows of its query: INSERT with its list of
/// columns, where one is written; UPDATE with the columns that are assigned; DELETE.
#[derive(Clone, Copy)]
pub enum DataChange<'a> {
    Insert(&'a Option<Items<usize>>),
    Update(&'a [usize]),
    Delete,
}

/// A data change statement of the table of a name, with all rows of a query. Where there is none, it
/// raises 02000.
#[cycle(run)]
pub fn run_change(
    change: DataChange,
    table: &Name,
    query: &BoundQuery,
    frame: &mut Frame,
    world: &mut World,
    place: &Place,
) -> Result<Outcome, NoMemory>
    ensures { Ran world.old world.new frame.new result
        (with_value (scopes_of place.now)
        (writes change.entry table.now (query_in (known_of place.now) query.now) (self_of place.now))
        (met (scopes_of place.now)) frame.old (world_of world.old)) }
{
    match changed(change, table, query, frame, world, place) {
        Ok(count) => {
            if count == 0 {
                return signal(Raise::of(EngineCondition::NoData), frame, world, place);
            }
            frame.complete(count);
            Ok(Outcome::Next)
        }
        Err(stop) => stopped(stop, frame, world, place),
    }
}

/// How many rows are written. All are evaluated first; where it raises, the tables are as before
/// it.
#[cycle(run)]
pub fn changed(
    change: DataChange,
    table: &Name,
    query: &BoundQuery,
    frame: &Frame,
    world: &mut World,
    place: &Place,
) -> Result<u64, Stop>
    ensures { Ended world.old world.new result
        (unit (writes change.entry table.now (query_in (known_of place.now) query.now)
        (self_of place.now) frame.now) (world_of world.old)) }
{
    let mark = world.mark();
    let rows = answer_query(query, &RowsInSight::NoRow, frame, world, place);
    match write(change, table, rows, world) {
        Ok(count) => Ok(count),
        Err(stop) => Err(leave(stop, mark, world)),
    }
}

// The rows of a query are written, where it gives them, and it says how many they are.
fn write(
    change: DataChange,
    table: &Name,
    rows: Result<Items<Row>, Stop>,
    world: &mut World,
) -> Result<u64, Stop>
    ensures { GoesOnWith rows world.old world.new result (written change.entry table.now) }
{
    match rows {
        Ok(rows) => write_all(change, table, rows, world),
        Err(stop) => Err(stop),
    }
}

// Rows are written, and it says how many they are.
fn write_all(
    change: DataChange,
    table: &Name,
    rows: Items<Row>,
    world: &mut World,
) -> Result<u64, Stop>
    ensures { Ended world.old world.new result
        (written change.entry table.now rows (world_of world.old)) }
{
    let rows = in_vec(world.allocator(), rows)?;
    match change {
        DataChange::Insert(listed) => store_counted(table, listed, rows, world),
        DataChange::Update(targets) => change_counted(table, targets, rows, world),
        DataChange::Delete => remove_counted(table, rows, world),
    }
}
