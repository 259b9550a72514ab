//! Groups of rows: the parts of each row are evaluated and folded, and then each group gives a
//! record. Of the rows nothing is kept but what their groups need.

ghost use Rattle.rel_algebra.specs.World.{each_kept};
ghost use Rattle.run_expressions.specs.Content.{world_of};
ghost use Rattle.run_expressions.specs.Ending.{Ended};
ghost use Rattle.run_choices.specs.Sight.{seen};
ghost use Rattle.run_places.specs.Groups.{grouped_by, parts_folded, end_record};
ghost use Rattle.run_places.specs.Places.{known_of, self_of};
ghost use Rattle.run_places.specs.Views.{exprs_in, grouping_in};

use crate::records::record_of;
use bound_trees::{BoundExpr, BoundGrouping};
use group_index::{FinishedGroup, Folding, foldings_are_of_groups};
use row_types::Row;
use run_expressions::{Frame, RowsInSight, Stop, World};
use run_places::Place;
use run_rows::{finished, group_row, no_rows, with_kept, with_parts};
use sqlite_items::Items;

/// The records of the groups of rows (ISO/IEC 9075-2, 7.13): of each row the conjuncts, and where
/// they are true its parts, before the next row; then of each group in turn its aggregates, HAVING
/// (7.14) and the list.
#[cycle(run)]
pub fn grouped(
    grouping: &BoundGrouping,
    conjuncts: &[BoundExpr],
    list: &[BoundExpr],
    rows: &[Row],
    outer: &RowsInSight,
    frame: &Frame,
    world: &mut World,
    place: &Place,
) -> Result<Items<Row>, Stop>
    ensures { Ended world.old world.new result
        (grouped_by (self_of place.now) (grouping_in (known_of place.now) grouping.now) (exprs_in (known_of place.now) conjuncts.now)
        (exprs_in (known_of place.now) list.now) (seen outer.now) frame.now rows.now (world_of world.old)) }
{
    let none = no_rows(
        world.allocator(),
        grouping.keys,
        grouping.aggregates.as_slice(),
    )?;
    let parts = grouping.parts.as_slice();
    let folding = folded(none, parts, conjuncts, rows, outer, frame, world, place);
    foldings_are_of_groups();
    let groups = finished(folding)?;
    let having = grouping.having.as_slice();
    records(groups.as_slice(), having, list, outer, frame, world, place)
}

// The parts of each row that is kept, folded, where these are folded already.
#[cycle(run)]
fn folded(
    already: Folding,
    parts: &[BoundExpr],
    conjuncts: &[BoundExpr],
    rows: &[Row],
    outer: &RowsInSight,
    frame: &Frame,
    world: &mut World,
    place: &Place,
) -> Result<Folding, Stop>
    ensures { Ended world.old world.new result
        (parts_folded (self_of place.now) already (exprs_in (known_of place.now) parts.now) (exprs_in (known_of place.now) conjuncts.now)
        (seen outer.now) frame.now rows.now (world_of world.old)) }
{
    let mut folding = already;
    for row in rows {
        let part = record_of(parts, conjuncts, row, outer, frame, world, place);
        folding = with_parts(folding, part)?;
    }
    Ok(folding)
}

// The records of groups in turn.
#[cycle(run)]
fn records(
    groups: &[FinishedGroup],
    having: &[BoundExpr],
    list: &[BoundExpr],
    outer: &RowsInSight,
    frame: &Frame,
    world: &mut World,
    place: &Place,
) -> Result<Items<Row>, Stop>
    ensures { Ended world.old world.new result
        (each_kept (end_record (self_of place.now) (exprs_in (known_of place.now) having.now) (exprs_in (known_of place.now) list.now)
        (seen outer.now) frame.now) groups.now (world_of world.old)) }
{
    let mut records = Items::new(world.allocator());
    for group in groups {
        let record = record(group, having, list, outer, frame, world, place);
        records = with_kept(records, record)?;
    }
    Ok(records)
}

// The record of a group: its aggregates, HAVING, and where that is true the list.
#[cycle(run)]
fn record(
    group: &FinishedGroup,
    having: &[BoundExpr],
    list: &[BoundExpr],
    outer: &RowsInSight,
    frame: &Frame,
    world: &mut World,
    place: &Place,
) -> Result<Option<Row>, Stop>
    ensures { Ended world.old world.new result
        (end_record (self_of place.now) (exprs_in (known_of place.now) having.now) (exprs_in (known_of place.now) list.now)
        (seen outer.now) frame.now group.now (world_of world.old)) }
{
    let row = group_row(world.allocator(), group)?;
    record_of(list, having, &row, outer, frame, world, place)
}
