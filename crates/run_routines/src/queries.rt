//! Queries.

ghost use Rattle.std.specs.Prelude.{map};
ghost use Rattle.std.specs.Option.{option_map};
ghost use Rattle.bound_trees.specs.declared.query.BoundSelect.{out-BoundSelect};
ghost use Rattle.rel_algebra.specs.Meaning.{answer, from_rows as from_by};
ghost use Rattle.catalog_store.specs.View.{from_of};
ghost use Rattle.run_expressions.specs.Content.{world_of};
ghost use Rattle.run_expressions.specs.Ending.{Ended};
ghost use Rattle.run_choices.specs.Sight.{seen};
ghost use Rattle.routine_views.specs.Views.{query_in};
ghost use Rattle.run_places.specs.Places.{known_of, self_of};
ghost use Rattle.run_places.specs.Views.{exprs_in, grouping_in, select_in, item_in, source_in};
ghost use Rattle.run_keys.specs.Made.{made_of as made_by};

use crate::from::join;
use crate::groups::grouped;
use crate::lists::eval_rows;
use crate::records::records_of;
use bound_trees::{BoundFromItem, BoundQuery, BoundSelect, BoundSource};
use row_types::Row;
use run_expressions::{Frame, RowsInSight, Stop, World};
use run_keys::met_rows;
use run_places::{Place, item_source};
use run_plans::{kept_for, run_kept};
use run_rows::{closed, ordered, table_rows};
use sqlite_items::Items;

/// The rows of a query, by the rows of the queries around it: those of a plan that is kept of it and
/// fits there, or else row by row.
#[cycle(run)]
pub fn answer_query(
    query: &BoundQuery,
    outer: &RowsInSight,
    frame: &Frame,
    world: &mut World,
    place: &Place,
) -> Result<Items<Row>, Stop>
    ensures { Ended world.old world.new result
        (answer (query_in (known_of place.now) query.now) (self_of place.now) (seen outer.now) frame.now
        (world_of world.old)) }
{
    match kept_for(place, query, outer, frame, &*world) {
        Some(kept) => run_kept(kept, outer, frame, &*world),
        None => answer_by_rows(query, outer, frame, world, place),
    }
}

// The same row by row: of a SELECT in the order of the rows of its FROM, or of the first rows of its
// groups, of VALUES as they stand. An order is made of the whole list.
#[cycle(run)]
fn answer_by_rows(
    query: &BoundQuery,
    outer: &RowsInSight,
    frame: &Frame,
    world: &mut World,
    place: &Place,
) -> Result<Items<Row>, Stop>
    ensures { Ended world.old world.new result
        (answer (query_in (known_of place.now) query.now) (self_of place.now) (seen outer.now) frame.now
        (world_of world.old)) }
{
    match query {
        BoundQuery::Select(query) => select(query, outer, frame, world, place),
        BoundQuery::Values(rows) => eval_rows(rows.as_slice(), outer, frame, world, place),
        BoundQuery::Ordered(query, keys) => {
            let rows = answer_query(query.get(), outer, frame, world, place);
            ordered(world.allocator(), rows, keys.as_slice())
        }
    }
}

// The rows of a SELECT. Of one table only those rows are read that its first conjuncts can let through
// by the table's key.
#[cycle(run)]
fn select(
    query: &BoundSelect,
    outer: &RowsInSight,
    frame: &Frame,
    world: &mut World,
    place: &Place,
) -> Result<Items<Row>, Stop>
    ensures { Ended world.old world.new result
        (answer (select_in (known_of place.now) query.now) (self_of place.now) (seen outer.now) frame.now
        (world_of world.old)) }
{
    match met_rows(query, outer, frame, &*world)? {
        Some(rows) => made_of(query, rows.as_slice(), outer, frame, world, place),
        None => select_all(query, outer, frame, world, place),
    }
}

// The same by all rows of FROM, which is complete before its first row goes on.
#[cycle(run)]
fn select_all(
    query: &BoundSelect,
    outer: &RowsInSight,
    frame: &Frame,
    world: &mut World,
    place: &Place,
) -> Result<Items<Row>, Stop>
    ensures { Ended world.old world.new result
        (answer (select_in (known_of place.now) query.now) (self_of place.now) (seen outer.now) frame.now
        (world_of world.old)) }
{
    let rows = from_rows(query.from.as_slice(), outer, frame, world, place)?;
    made_of(query, rows.as_slice(), outer, frame, world, place)
}

// What a SELECT makes of rows of its FROM: records of the rows one by one, or of their groups.
#[cycle(run)]
fn made_of(
    query: &BoundSelect,
    rows: &[Row],
    outer: &RowsInSight,
    frame: &Frame,
    world: &mut World,
    place: &Place,
) -> Result<Items<Row>, Stop>
    ensures { Ended world.old world.new result
        (made_by (option_map (grouping_in (known_of place.now)) (out-BoundSelect query.now).grouping)
        (self_of place.now) (exprs_in (known_of place.now) (out-BoundSelect query.now).items)
        (exprs_in (known_of place.now) (out-BoundSelect query.now).conjuncts) (seen outer.now)
        frame.now rows.now (world_of world.old)) }
{
    let list = query.items.as_slice();
    let tests = query.conjuncts.as_slice();
    match &query.grouping {
        Some(grouping) => { grouped(grouping, tests, list, rows, outer, frame, world, place) }
        None => records_of(list, tests, rows, outer, frame, world, place),
    }
}

// The rows of FROM: of each item in turn they are made, and then joined to those before it.
#[cycle(run)]
fn from_rows(
    items: &[BoundFromItem],
    outer: &RowsInSight,
    frame: &Frame,
    world: &mut World,
    place: &Place,
) -> Result<Items<Row>, Stop>
    ensures { Ended world.old world.new result
        (from_by (from_of (map (item_in (known_of place.now)) items.now)) (self_of place.now) (seen outer.now) frame.now
        (world_of world.old)) }
{
    let mut joined = None;
    for item in items {
        let rows = source_rows(item_source(item), outer, frame, world, place)?;
        joined = Some(join(joined, item, rows, outer, frame, world, place)?);
    }
    Ok(closed(world.allocator(), joined)?)
}

// The rows of a table, or of a derived table.
#[cycle(run)]
fn source_rows(
    source: &BoundSource,
    outer: &RowsInSight,
    frame: &Frame,
    world: &mut World,
    place: &Place,
) -> Result<Items<Row>, Stop>
    ensures { Ended world.old world.new result
        (from_by (source_in (known_of place.now) source.now) (self_of place.now) (seen outer.now) frame.now
        (world_of world.old)) }
{
    match source {
        BoundSource::Table(name) => Ok(table_rows(name, world)?),
        BoundSource::Derived(query) => answer_query(query.get(), outer, frame, world, place),
    }
}
