//! Loops (ISO/IEC 9075-4, 14.10 to 14.13). A turn is taken at each start of the body.

ghost use Rattle.std.specs.Option.{option_copied};
ghost use Rattle.std.specs.Prelude.{[]};
ghost use Rattle.rel_algebra.specs.Handlers.{with_value};
ghost use Rattle.rel_algebra.specs.Loops.{for_each, looping};
ghost use Rattle.rel_algebra.specs.Meaning.{answer, does_all, inside as context_inside};
ghost use Rattle.routine_views.specs.Views.{query_in};
ghost use Rattle.run_expressions.specs.Content.{world_of};
ghost use Rattle.run_places.specs.Places.{known_of, self_of, scopes_of, context_of, queries_of};
ghost use Rattle.run_places.specs.Ran.{Ran, before_by, after_by};
ghost use Rattle.run_places.specs.Statements.{stmts_in};

use crate::raising::stopped;
use crate::statements::run_list;
use crate::units::{assess, goes_on};
use bound_trees::{BoundExpr, BoundQuery, BoundStmt};
use row_types::Row;
use run_expressions::World;
use run_frames::Frame;
use run_outcomes::{AfterBody, Outcome, after_body};
use run_places::{Place, inside, turns};
use sql_values::NoMemory;

/// A loop, by what is tested before its body and what is tested after it.
#[cycle(run)]
pub fn run_loop(
    before: Option<&BoundExpr>,
    body: &[BoundStmt],
    until: Option<&BoundExpr>,
    frame: &mut Frame,
    world: &mut World,
    place: &Place,
) -> Result<Outcome, NoMemory>
    ensures { Ran world.old world.new frame.new result
        (looping place.now.level
        (before_by (known_of place.now) (option_copied before.entry) (self_of place.now)
        (scopes_of place.now))
        (does_all (stmts_in (known_of place.now) body.now (queries_of place.now))
        (context_inside (context_of place.now)))
        (after_by (known_of place.now) (option_copied until.entry) (self_of place.now)
        (scopes_of place.now)) frame.old (world_of world.old)) }
{
    let inner = inside(place)?;
    loop {
        match goes_on(before, true, frame, world, place) {
            Ok(true) => {}
            Ok(false) => return Ok(Outcome::Next),
            Err(stop) => return stopped(stop, frame, world, place),
        }
        match turns(world) {
            Ok(true) => {}
            Ok(false) => return Ok(Outcome::Spent),
            Err(NoMemory) => return Err(NoMemory),
        }
        let outcome = run_list(body, frame, world, &inner)?;
        match after_body(place.level, outcome) {
            AfterBody::Again => {}
            AfterBody::Ends(outcome) => return Ok(outcome),
        }
        match goes_on(until, false, frame, world, place) {
            Ok(true) => {}
            Ok(false) => return Ok(Outcome::Next),
            Err(stop) => return stopped(stop, frame, world, place),
        }
    }
}

/// FOR (14.13), over the rows of its query, which are made at its start.
#[cycle(run)]
pub fn run_for(
    query: &BoundQuery,
    body: &[BoundStmt],
    frame: &mut Frame,
    world: &mut World,
    place: &Place,
) -> Result<Outcome, NoMemory>
    ensures { Ran world.old world.new frame.new result
        (with_value (scopes_of place.now)
        (answer (query_in (known_of place.now) query.now) (self_of place.now) [])
        (λ rows. for_each place.now.level rows
        (does_all (stmts_in (known_of place.now) body.now (queries_of place.now))
        (context_inside (context_of place.now)))) frame.old (world_of world.old)) }
{
    match assess(query, frame, world, place) {
        Ok(rows) => run_rows(rows.as_slice(), body, frame, world, place),
        Err(stop) => stopped(stop, frame, world, place),
    }
}

// The statements of FOR for each of these rows, whose columns are variables there.
#[cycle(run)]
fn run_rows(
    rows: &[Row],
    body: &[BoundStmt],
    frame: &mut Frame,
    world: &mut World,
    place: &Place,
) -> Result<Outcome, NoMemory>
    ensures { Ran world.old world.new frame.new result
        (for_each place.now.level rows.now
        (does_all (stmts_in (known_of place.now) body.now (queries_of place.now))
        (context_inside (context_of place.now))) frame.old (world_of world.old)) }
{
    let inner = inside(place)?;
    for row in rows {
        match turns(world) {
            Ok(true) => {}
            Ok(false) => return Ok(Outcome::Spent),
            Err(NoMemory) => return Err(NoMemory),
        }
        let extent = frame.extent();
        frame.declare_row(row.as_slice())?;
        let outcome = run_list(body, frame, world, &inner)?;
        frame.cut(extent);
        match after_body(place.level, outcome) {
            AfterBody::Again => {}
            AfterBody::Ends(outcome) => return Ok(outcome),
        }
    }
    Ok(Outcome::Next)
}
