//! What statements evaluate: units (ISO/IEC 9075-2, 4.17), where no row is in sight.

ghost use Rattle.rel_algebra.specs.Meaning.{answer, ev, ev_perhaps};
ghost use Rattle.rel_algebra.specs.World.{unit};
ghost use Rattle.routine_views.specs.Views.{expr_in, perhaps, query_in};
ghost use Rattle.run_expressions.specs.Content.{world_of};
ghost use Rattle.run_expressions.specs.Ending.{Ended};
ghost use Rattle.run_places.specs.Defaults.{assigned_in, default_in};
ghost use Rattle.run_places.specs.Places.{known_of, self_of};
ghost use Rattle.run_places.specs.Ran.{loop_test};
ghost use Rattle.std.specs.Option.{option_copied};
ghost use Rattle.std.specs.Prelude.{[]};

use crate::expr::eval;
use crate::queries::answer_query;
use bound_trees::{BoundExpr, BoundQuery, BoundVariables};
use row_types::Row;
use run_expressions::{RowsInSight, Stop, World, is_true, leave};
use run_frames::Frame;
use run_places::Place;
use run_rows::assigned;
use sql_values::{SqlType, Value};
use sqlite_items::Items;

/// The value of an expression of a statement. Where it raises, the tables are as before it.
#[cycle(run)]
#[tactic(auto, using(run_expressions::proofs::Laws::unit_stops))]
pub fn evaluate(
    expr: &BoundExpr,
    frame: &Frame,
    world: &mut World,
    place: &Place,
) -> Result<Value, Stop>
    ensures { Ended world.old world.new result
        (unit (ev (expr_in (known_of place.now) expr.now) (self_of place.now) [] frame.now)
        (world_of world.old)) }
{
    let mark = world.mark();
    match eval(expr, &RowsInSight::NoRow, frame, world, place) {
        Ok(value) => Ok(value),
        Err(stop) => Err(leave(stop, mark, world)),
    }
}

/// The value of an expression of a statement, where one is written. Where it raises, the tables are
/// as before it.
#[cycle(run)]
pub fn evaluate_perhaps(
    expr: Option<&BoundExpr>,
    frame: &Frame,
    world: &mut World,
    place: &Place,
) -> Result<Option<Value>, Stop>
    ensures { Ended world.old world.new result
        (unit (ev_perhaps (perhaps (known_of place.now) (option_copied expr.entry))
        (self_of place.now) frame.now) (world_of world.old)) }
{
    match expr {
        None => Ok(None),
        Some(expr) => match evaluate(expr, frame, world, place) {
            Ok(value) => Ok(Some(value)),
            Err(stop) => Err(stop),
        },
    }
}

/// The rows of a query of a statement. Where it raises, the tables are as before it.
#[cycle(run)]
#[tactic(auto, using(run_expressions::proofs::Laws::unit_stops))]
pub fn assess(
    query: &BoundQuery,
    frame: &Frame,
    world: &mut World,
    place: &Place,
) -> Result<Items<Row>, Stop>
    ensures { Ended world.old world.new result
        (unit (answer (query_in (known_of place.now) query.now) (self_of place.now) [] frame.now)
        (world_of world.old)) }
{
    let mark = world.mark();
    match answer_query(query, &RowsInSight::NoRow, frame, world, place) {
        Ok(rows) => Ok(rows),
        Err(stop) => Err(leave(stop, mark, world)),
    }
}

/// The value of an expression of a statement, as a variable of this type takes it. Where it raises,
/// the tables are as before it.
#[cycle(run)]
#[tactic(auto, using(run_expressions::proofs::Laws::unit_stops, run_expressions::proofs::Laws::follows))]
pub fn assigned_value(
    expr: &BoundExpr,
    data_type: SqlType,
    frame: &Frame,
    world: &mut World,
    place: &Place,
) -> Result<Value, Stop>
    ensures { Ended world.old world.new result
        (assigned_in (known_of place.now) expr.now data_type (self_of place.now) frame.now
        (world_of world.old)) }
{
    let mark = world.mark();
    let value = eval(expr, &RowsInSight::NoRow, frame, world, place);
    match assigned(world.allocator(), value, data_type) {
        Ok(value) => Ok(value),
        Err(stop) => Err(leave(stop, mark, world)),
    }
}

/// The value with which the variables of a declaration start (ISO/IEC 9075-4, 14.3).
#[cycle(run)]
pub fn default_of(
    group: &BoundVariables,
    frame: &Frame,
    world: &mut World,
    place: &Place,
) -> Result<Value, Stop>
    ensures { Ended world.old world.new result
        (default_in (known_of place.now) group.now.default group.now.data_type (self_of place.now)
        frame.now (world_of world.old)) }
{
    match &group.default {
        None => Ok(Value::Null),
        Some(expr) => assigned_value(expr, group.data_type, frame, world, place),
    }
}

/// Whether a loop goes on: where it has no test, or the test is true as is wanted.
#[cycle(run)]
pub fn goes_on(
    test: Option<&BoundExpr>,
    wanted: bool,
    frame: &Frame,
    world: &mut World,
    place: &Place,
) -> Result<bool, Stop>
    ensures { Ended world.old world.new result
        (loop_test wanted (known_of place.now) (option_copied test.entry) (self_of place.now)
        frame.now (world_of world.old)) }
{
    match test {
        None => Ok(true),
        Some(test) => match evaluate(test, frame, world, place) {
            Ok(value) => Ok(is_true(&value) == wanted),
            Err(stop) => Err(stop),
        },
    }
}
