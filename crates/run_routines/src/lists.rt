//! Lists of expressions: their values, and whether they all are true.

ghost use Rattle.rel_algebra.specs.Meaning.{ev_all, holds as holds_by, ev_rows};
ghost use Rattle.run_expressions.specs.Content.{world_of};
ghost use Rattle.run_expressions.specs.Ending.{Ended};
ghost use Rattle.run_choices.specs.Sight.{seen};
ghost use Rattle.run_places.specs.Places.{known_of, self_of};
ghost use Rattle.run_places.specs.Views.{exprs_in, rows_in};

use crate::expr::eval;
use bound_trees::{BoundExpr, BoundRow};
use row_types::Row;
use run_expressions::{Frame, RowsInSight, Stop, World, is_true};
use run_places::{Place, values_in};
use run_rows::{with_row, with_value};
use sqlite_items::Items;

/// The rows of VALUES (ISO/IEC 9075-2, 7.3), in turn.
#[cycle(run)]
pub fn eval_rows(
    rows: &[BoundRow],
    outer: &RowsInSight,
    frame: &Frame,
    world: &mut World,
    place: &Place,
) -> Result<Items<Row>, Stop>
    ensures { Ended world.old world.new result
        (ev_rows (rows_in (known_of place.now) rows.now) (self_of place.now) (seen outer.now) frame.now
        (world_of world.old)) }
{
    let mut values = Items::from_vec(Vec::with_capacity(world.allocator(), rows.len())?);
    for row in rows {
        let more = eval_all(values_in(row), outer, frame, world, place);
        values = with_row(values, more)?;
    }
    Ok(values)
}

/// The values of several expressions, from left to right.
#[cycle(run)]
pub fn eval_all(
    exprs: &[BoundExpr],
    rows: &RowsInSight,
    frame: &Frame,
    world: &mut World,
    place: &Place,
) -> Result<Row, Stop>
    ensures { Ended world.old world.new result
        (ev_all (exprs_in (known_of place.now) exprs.now) (self_of place.now) (seen rows.now) frame.now
        (world_of world.old)) }
{
    let mut values = Items::from_vec(Vec::with_capacity(world.allocator(), exprs.len())?);
    for expr in exprs {
        let value = eval(expr, rows, frame, world, place);
        values = with_value(values, value)?;
    }
    Ok(values)
}

/// Whether all conjuncts of a search condition (8.21) are true; the first that isn't ends it.
#[cycle(run)]
pub fn holds(
    conjuncts: &[BoundExpr],
    rows: &RowsInSight,
    frame: &Frame,
    world: &mut World,
    place: &Place,
) -> Result<bool, Stop>
    ensures { Ended world.old world.new result
        (holds_by (exprs_in (known_of place.now) conjuncts.now) (self_of place.now) (seen rows.now) frame.now
        (world_of world.old)) }
{
    for conjunct in conjuncts {
        let value = eval(conjunct, rows, frame, world, place)?;
        if !is_true(&value) {
            return Ok(false);
        }
    }
    Ok(true)
}
