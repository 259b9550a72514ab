//! Statements, in their order, and the branches of IF and CASE (ISO/IEC 9075-4, 14.6 and 14.7).

ghost use Rattle.std.specs.Prelude.{◌≡◌};
ghost use Rattle.std.specs.Option.{option_copied};
ghost use Rattle.rel_algebra.specs.Doing.{Doing};
ghost use Rattle.rel_algebra.specs.Meaning.{does, does_all, does_else};
ghost use Rattle.routine_views.specs.Views.{stmt_in};
ghost use Rattle.run_expressions.specs.Content.{world_of};
ghost use Rattle.run_places.specs.Places.{known_of, context_of, queries_of};
ghost use Rattle.run_places.specs.Ran.{Ran, does_choice};
ghost use Rattle.run_places.specs.Statements.{stmts_in, branches_in};
ghost use Rattle.run_routines.specs.Otherwise.{does_otherwise, lacks};

use crate::assigning::run_set;
use crate::blocks::run_block;
use crate::cursors::{run_close, run_fetch, run_open};
use crate::diagnosing::run_get_diagnostics;
use crate::loops::{run_for, run_loop};
use crate::passing::run_call;
use crate::raising::{fail, stopped};
use crate::selecting::run_select_into;
use crate::signals::{run_resignal, run_signal};
use crate::units::evaluate;
use crate::writing::{DataChange, run_change};
use bound_trees::{BoundBranch, BoundStmt};
use run_choices::Raise;
use run_expressions::{World, passes};
use run_frames::Frame;
use run_operands::done_at_once;
use run_outcomes::{Outcome, level_of};
use run_places::Place;
use sql_conditions::EngineCondition;
use sql_values::{NoMemory, Value};

/// What a statement does.
#[cycle(run)]
pub fn run_stmt(
    stmt: &BoundStmt,
    frame: &mut Frame,
    world: &mut World,
    place: &Place,
) -> Result<Outcome, NoMemory>
    ensures { Ran world.old world.new frame.new result
        (does (stmt_in (known_of place.now) stmt.now (queries_of place.now)) (context_of place.now)
        frame.old (world_of world.old)) }
{
    match stmt {
        BoundStmt::Insert(insert, listed) => {
            let change = DataChange::Insert(listed);
            run_change(change, &insert.table, &insert.source, frame, world, place)
        }
        BoundStmt::Update(update) => {
            let change = DataChange::Update(update.targets.as_slice());
            run_change(change, &update.table, &update.rows, frame, world, place)
        }
        BoundStmt::Delete(delete) => {
            run_change(
                DataChange::Delete,
                &delete.table,
                &delete.rows,
                frame,
                world,
                place,
            )
        }
        BoundStmt::Block(block) => run_block(block, frame, world, place),
        BoundStmt::If(branches, otherwise) => {
            let (branches, otherwise) = (branches.as_slice(), otherwise.as_slice());
            run_branches(branches, None, otherwise, false, frame, world, place)
        }
        BoundStmt::Case(None, branches, otherwise) => {
            let (branches, otherwise) = (branches.as_slice(), otherwise.as_slice());
            run_branches(branches, None, otherwise, true, frame, world, place)
        }
        BoundStmt::Case(Some(operand), branches, otherwise) => {
            let (branches, otherwise) = (branches.as_slice(), otherwise.as_slice());
            match evaluate(operand, frame, world, place) {
                Ok(x) => run_branches(branches, Some(&x), otherwise, true, frame, world, place),
                Err(stop) => stopped(stop, frame, world, place),
            }
        }
        BoundStmt::Loop(body) => run_loop(None, body.as_slice(), None, frame, world, place),
        BoundStmt::While(test, body) => {
            run_loop(Some(test), body.as_slice(), None, frame, world, place)
        }
        BoundStmt::Repeat(body, test) => {
            run_loop(None, body.as_slice(), Some(test), frame, world, place)
        }
        BoundStmt::Set(target, expr) => run_set(target, expr, frame, world, place),
        BoundStmt::SelectInto(query, targets) => {
            run_select_into(query, targets.as_slice(), frame, world, place)
        }
        BoundStmt::Open(slot) => run_open(*slot, frame, world, place),
        BoundStmt::Fetch(slot, targets) => {
            run_fetch(*slot, targets.as_slice(), frame, world, place)
        }
        BoundStmt::Close(slot) => run_close(*slot, frame, world, place),
        BoundStmt::Signal(signal) => run_signal(signal, frame, world, place),
        BoundStmt::Resignal(signal) => run_resignal(signal, frame, world, place),
        BoundStmt::For(query, _, body) => run_for(query, body.as_slice(), frame, world, place),
        BoundStmt::Leave(outwards) => Ok(Outcome::Leaving(level_of(*outwards, place.level))),
        BoundStmt::Iterate(outwards) => Ok(Outcome::Iterating(level_of(*outwards, place.level))),
        BoundStmt::Return(expr) => match evaluate(expr, frame, world, place) {
            Ok(value) => Ok(Outcome::Returning(value)),
            Err(stop) => stopped(stop, frame, world, place),
        },
        BoundStmt::Call(call) => run_call(call, frame, world, place),
        BoundStmt::GetDiagnostics(statement) => {
            run_get_diagnostics(statement, frame, world, place)
        }
    }
}

/// Statements in their order, as long as each ends with Next.
#[cycle(run)]
pub fn run_list(
    stmts: &[BoundStmt],
    frame: &mut Frame,
    world: &mut World,
    place: &Place,
) -> Result<Outcome, NoMemory>
    ensures { Ran world.old world.new frame.new result
        (does_all (stmts_in (known_of place.now) stmts.now (queries_of place.now))
        (context_of place.now) frame.old (world_of world.old)) }
{
    for stmt in stmts {
        match run_next(stmt, frame, world, place) {
            Ok(Outcome::Next) => {}
            Ok(outcome) => return Ok(outcome),
            Err(NoMemory) => return Err(NoMemory),
        }
    }
    Ok(Outcome::Next)
}

// A statement of a list. One that is done at once is not run.
#[cycle(run)]
fn run_next(
    stmt: &BoundStmt,
    frame: &mut Frame,
    world: &mut World,
    place: &Place,
) -> Result<Outcome, NoMemory>
    ensures { Ran world.old world.new frame.new result
        (does (stmt_in (known_of place.now) stmt.now (queries_of place.now)) (context_of place.now)
        frame.old (world_of world.old)) }
{
    if done_at_once(world.allocator(), stmt, frame) {
        return Ok(Outcome::Next);
    }
    run_stmt(stmt, frame, world, place)
}

/// The statements of the first branch whose test passes, by the operand of CASE or without one, and
/// else those of ELSE.
#[cycle(run)]
fn run_branches(
    branches: &[BoundBranch],
    operand: Option<&Value>,
    otherwise: &[BoundStmt],
    wants_else: bool,
    frame: &mut Frame,
    world: &mut World,
    place: &Place,
) -> Result<Outcome, NoMemory>
    ensures { Ran world.old world.new frame.new result
        (does_choice (option_copied operand.entry)
        (branches_in (known_of place.now) branches.now (queries_of place.now))
        (context_of place.now)
        (does_otherwise wants_else (stmts_in (known_of place.now) otherwise.now
        (queries_of place.now)) (context_of place.now)) frame.old (world_of world.old)) }
{
    for branch in branches {
        match evaluate(&branch.test, frame, world, place) {
            Ok(value) => {
                if passes(operand, &value) {
                    return run_list(branch.body.as_slice(), frame, world, place);
                }
            }
            Err(stop) => return stopped(stop, frame, world, place),
        }
    }
    run_else(otherwise, wants_else, frame, world, place)
}

// Whether ELSE is wanted, and isn't there.
fn lacks_else(wants_else: bool, otherwise: &[BoundStmt]) -> bool
    ensures { result ≡ lacks wants_else otherwise.now }
{
    match (wants_else, otherwise) {
        (true, []) => true,
        _ => false,
    }
}

// The statements of ELSE, without which CASE raises.
#[cycle(run)]
fn run_else(
    otherwise: &[BoundStmt],
    wants_else: bool,
    frame: &mut Frame,
    world: &mut World,
    place: &Place,
) -> Result<Outcome, NoMemory>
    ensures { Ran world.old world.new frame.new result
        (does_otherwise wants_else (stmts_in (known_of place.now) otherwise.now
        (queries_of place.now)) (context_of place.now) frame.old (world_of world.old)) }
{
    if lacks_else(wants_else, otherwise) {
        return fail(
            Raise::of(EngineCondition::CaseNotFound),
            frame,
            world,
            place,
        );
    }
    run_list(otherwise, frame, world, place)
}
