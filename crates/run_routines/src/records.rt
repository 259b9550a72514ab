//! The records that a list makes of rows, one by one.

ghost use Rattle.std.specs.Prelude.{◌∷◌};
ghost use Rattle.rel_algebra.specs.Meaning.{record_of as record_by};
ghost use Rattle.run_expressions.specs.Content.{world_of};
ghost use Rattle.run_expressions.specs.Ending.{Ended};
ghost use Rattle.run_choices.specs.Sight.{seen};
ghost use Rattle.run_places.specs.Groups.{records_by};
ghost use Rattle.run_places.specs.Places.{known_of, self_of};
ghost use Rattle.run_places.specs.Views.{exprs_in};

use crate::lists::{eval_all, holds};
use bound_trees::BoundExpr;
use row_types::Row;
use run_expressions::{Frame, RowsInSight, Stop, World, under};
use run_places::Place;
use run_rows::{some_row, with_kept};
use sqlite_items::Items;

/// The records of rows in turn (ISO/IEC 9075-2, 7.16): of each row the tests, and where they are
/// true the list, before the next row.
#[cycle(run)]
pub fn records_of(
    list: &[BoundExpr],
    tests: &[BoundExpr],
    rows: &[Row],
    outer: &RowsInSight,
    frame: &Frame,
    world: &mut World,
    place: &Place,
) -> Result<Items<Row>, Stop>
    ensures { Ended world.old world.new result
        (records_by (self_of place.now) (exprs_in (known_of place.now) list.now) (exprs_in (known_of place.now) tests.now)
        (seen outer.now) frame.now rows.now (world_of world.old)) }
{
    let mut records = Items::new(world.allocator());
    for row in rows {
        let record = record_of(list, tests, row, outer, frame, world, place);
        records = with_kept(records, record)?;
    }
    Ok(records)
}

/// The record of a row, where the row is kept: first the tests, and where they are true the list.
#[cycle(run)]
pub fn record_of(
    list: &[BoundExpr],
    tests: &[BoundExpr],
    row: &Row,
    outer: &RowsInSight,
    frame: &Frame,
    world: &mut World,
    place: &Place,
) -> Result<Option<Row>, Stop>
    ensures { Ended world.old world.new result
        (record_by (exprs_in (known_of place.now) list.now) (exprs_in (known_of place.now) tests.now) (self_of place.now)
        (row.now ∷ seen outer.now) frame.now (world_of world.old)) }
{
    let rows = under(row.as_slice(), &*outer);
    if holds(tests, &rows, frame, world, place)? {
        some_row(eval_all(list, &rows, frame, world, place))
    } else {
        Ok(None)
    }
}
