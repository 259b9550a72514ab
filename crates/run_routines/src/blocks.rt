//! Compound statements (ISO/IEC 9075-4, 14.1): their declarations, their statements, the handlers at
//! their end, and what an ATOMIC one raises as a whole.

ghost use Rattle.std.specs.Prelude.{◌≡◌, ◌≤◌, [], ◌∷◌, ◌++◌, length, map};
ghost use Rattle.rel_algebra.specs.Compounds.{exit_or, exited, exited_or, left as left_by};
ghost use Rattle.rel_algebra.specs.Compounds.{raising_whole, sealed_or};
ghost use Rattle.rel_algebra.specs.Doing.{first_of};
ghost use Rattle.rel_algebra.specs.Handlers.{best_here};
ghost use Rattle.rel_algebra.specs.States.{state_in};
ghost use Rattle.rel_algebra.specs.Meaning.{declare as declare_by, does, does_all, inside_scopes};
ghost use Rattle.routine_views.specs.Views.{block_in, query_in, variables as variables_in};
ghost use Rattle.run_expressions.specs.Content.{Content, world_of};
ghost use Rattle.run_expressions.specs.Ending.{Ended};
ghost use Rattle.run_outcomes.specs.Outcomes.{outcome_of};
ghost use Rattle.run_outcomes.specs.Scopes.{scopes_by};
ghost use Rattle.run_places.specs.Acting.{acts_of};
ghost use Rattle.run_places.specs.Blocks.{IsSince, body_by, handlings_by, made, statements_by};
ghost use Rattle.run_places.specs.Places.{context_of, known_of, queries_in, queries_of, scopes_of};
ghost use Rattle.run_places.specs.Places.{self_of};
ghost use Rattle.run_places.specs.Ran.{Ran};
ghost use Rattle.run_places.specs.Statements.{stmts_in};

use crate::raising::{act, fail};
use crate::statements::run_list;
use crate::units::default_of;
use atomic_undo::Mark;
use bound_trees::{BoundBlock, BoundQuery, BoundStmt, BoundVariables};
use run_choices::Raise;
use run_expressions::{Stop, World};
use run_frames::Frame;
use run_outcomes::{Outcome, Scope, choose_here, left, with_scope};
use run_places::{Onward, Place, back_if, sealed, seen_outside, takes_back, with_cursors, within};
use sql_values::NoMemory;

/// A compound statement. What was declared leaves as it ends, in whatever way.
#[cycle(run)]
pub fn run_block(
    block: &BoundBlock,
    frame: &mut Frame,
    world: &mut World,
    place: &Place,
) -> Result<Outcome, NoMemory>
    ensures { Ran world.old world.new frame.new result
        (does (block_in (known_of place.now) block.now (queries_of place.now))
        (context_of place.now) frame.old (world_of world.old)) }
{
    let mark = world.mark();
    let extent = frame.extent();
    match declare(block.variables.as_slice(), frame, world, place) {
        Ok(()) => match run_declared(block, mark, frame, world, place) {
            Ok(outcome) => {
                frame.cut(extent);
                seal(block.atomic, mark, outcome, frame, world, place)
            }
            Err(NoMemory) => Err(NoMemory),
        },
        Err(Stop::Raised(raise)) => {
            frame.cut(extent);
            raise_whole(block.atomic, mark, raise, frame, world, place)
        }
        Err(Stop::Spent) => {
            frame.cut(extent);
            Ok(Outcome::Spent)
        }
        Err(Stop::NoMemory) => Err(NoMemory),
    }
}

// The variables of a compound statement, after those in sight. A default is evaluated once for all
// variables of its declaration. Where one stops, those before it stay.
#[cycle(run)]
fn declare(
    variables: &[BoundVariables],
    frame: &mut Frame,
    world: &mut World,
    place: &Place,
) -> Result<(), Stop>
    ensures ends { Ended world.old world.new (made result frame.new)
        (declare_by (variables_in (known_of place.now) variables.now) (self_of place.now) frame.old
        (world_of world.old)) }
    ensures kept { first_of (length frame.old.variables) (length frame.old.cursors) frame.new
        ≡ frame.old }
{
    for group in variables {
        match default_of(group, frame, world, place) {
            Ok(value) => match frame.declare(group.count, &value) {
                Ok(()) => {}
                Err(NoMemory) => return Err(Stop::NoMemory),
            },
            Err(stop) => return Err(stop),
        }
    }
    Ok(())
}

// What follows the declarations of variables: the cursors, all closed, and the statements.
#[cycle(run)]
fn run_declared(
    block: &BoundBlock,
    mark: Mark,
    frame: &mut Frame,
    world: &mut World,
    place: &Place,
) -> Result<Outcome, NoMemory>
    requires known { mark ≤ length world.old.book.entries }
    ensures { (start : Content) → IsSince mark start world.old →
        Ran start world.new frame.new result (statements_by place.now block.now
        start.memory.tables frame.old (world_of world.old)) }
{
    match frame.declare_cursors(block.cursors.len()) {
        Ok(()) => {}
        Err(NoMemory) => return Err(NoMemory),
    }
    match with_cursors(world.allocator(), &*place.cursors, block.cursors.as_slice()) {
        Ok(queries) => run_scoped(block, queries.as_slice(), mark, frame, world, place),
        Err(NoMemory) => Err(NoMemory),
    }
}

// The statements of a compound statement, with its handlers in sight, and what follows them; by the
// queries of the cursors that they see.
#[cycle(run)]
fn run_scoped(
    block: &BoundBlock,
    queries: &[&BoundQuery],
    mark: Mark,
    frame: &mut Frame,
    world: &mut World,
    place: &Place,
) -> Result<Outcome, NoMemory>
    requires known { mark ≤ length world.old.book.entries }
    ensures { (start : Content) → IsSince mark start world.old →
        Ran start world.new frame.new result (body_by place.now block.now
        (queries_in (known_of place.now) queries.now) start.memory.tables frame.old
        (world_of world.old)) }
{
    let outer = seen_outside(&*place, block.atomic);
    let extent = frame.extent();
    let own = Scope {
        handlers: block.handlers.as_slice(),
        queries: &*queries,
        level: place.level,
        variables: extent.variables,
        cursors: extent.cursors,
    };
    match with_scope(world.allocator(), outer, own) {
        Ok(scopes) => {
            let statements = block.statements.as_slice();
            run_inside(
                statements,
                &own,
                outer,
                scopes.as_slice(),
                mark,
                frame,
                world,
                place,
            )
        }
        Err(NoMemory) => Err(NoMemory),
    }
}

// The statements inside these compound statements, of which the last is their own; the handlers at
// its end; and LEAVE with its label, which ends it.
#[cycle(run)]
fn run_inside(
    statements: &[BoundStmt],
    own: &Scope,
    outer: &[Scope],
    scopes: &[Scope],
    mark: Mark,
    frame: &mut Frame,
    world: &mut World,
    place: &Place,
) -> Result<Outcome, NoMemory>
    requires inside { scopes.now ≡ outer.now ++ own.now ∷ [] }
    requires known { mark ≤ length world.old.book.entries }
    ensures { (start : Content) → IsSince mark start world.old →
        Ran start world.new frame.new result (left_by place.now.level (exited own.now.level
        (handlings_by place.now outer.now own.now) start.memory.tables
        (does_all (stmts_in (known_of place.now) statements.now
        (queries_in (known_of place.now) own.now.queries.now))
        (inside_scopes (scopes_by (acts_of place.now) scopes.now) (context_of place.now))
        frame.old (world_of world.old)))) }
{
    let inner = within(&*place, &*own.queries, &*scopes)?;
    match run_list(statements, frame, world, &inner) {
        Ok(outcome) => match close(own, outer, mark, outcome, frame, world, place) {
            Ok(outcome) => Ok(left(place.level, outcome)),
            Err(NoMemory) => Err(NoMemory),
        },
        Err(NoMemory) => Err(NoMemory),
    }
}

// The end of the statements of a compound statement: where they go to its end, its handler acts.
#[cycle(run)]
fn close(
    own: &Scope,
    outer: &[Scope],
    mark: Mark,
    outcome: Outcome,
    frame: &mut Frame,
    world: &mut World,
    place: &Place,
) -> Result<Outcome, NoMemory>
    requires known { mark ≤ length world.old.book.entries }
    ensures { (start : Content) → IsSince mark start world.old →
        Ran start world.new frame.new result (exited_or own.now.level
        (handlings_by place.now outer.now own.now) start.memory.tables (outcome_of outcome)
        frame.old (world_of world.old)) }
{
    match outcome {
        Outcome::Exiting(level, raise) => {
            if level == own.level {
                return exit(own, outer, mark, raise, frame, world, place);
            }
            Ok(Outcome::Exiting(level, raise))
        }
        other => Ok(other),
    }
}

// The handler of a compound statement acts at its end: an EXIT handler, or an UNDO handler once the
// changes of tables since the start are taken back.
#[cycle(run)]
fn exit(
    own: &Scope,
    outer: &[Scope],
    mark: Mark,
    raise: Raise,
    frame: &mut Frame,
    world: &mut World,
    place: &Place,
) -> Result<Outcome, NoMemory>
    requires known { mark ≤ length world.old.book.entries }
    ensures { (start : Content) → IsSince mark start world.old →
        Ran start world.new frame.new result (exit_or (best_here (state_in raise)
        (handlings_by place.now outer.now own.now)) own.now.level raise start.memory.tables
        frame.old (world_of world.old)) }
{
    let state = raise.state();
    match choose_here(&state, own.handlers) {
        Some(handler) => {
            back_if(takes_back(handler.handler_type), mark, world);
            act(handler, own, outer, &raise, frame, world, place)
        }
        None => Ok(Outcome::Exiting(own.level, raise)),
    }
}

// What an ATOMIC compound statement raises, it raises as a whole.
#[cycle(run)]
fn seal(
    atomic: bool,
    mark: Mark,
    outcome: Outcome,
    frame: &mut Frame,
    world: &mut World,
    place: &Place,
) -> Result<Outcome, NoMemory>
    requires known { mark ≤ length world.old.book.entries }
    ensures { (start : Content) → IsSince mark start world.old →
        Ran start world.new frame.new result (sealed_or atomic (scopes_of place.now)
        start.memory.tables (outcome_of outcome) frame.old (world_of world.old)) }
{
    match sealed(atomic, mark, outcome, world) {
        Onward::Fails(raise) => fail(raise, frame, world, place),
        Onward::Ends(outcome) => Ok(outcome),
    }
}

// A compound statement raises as a whole; one that is ATOMIC is undone first.
#[cycle(run)]
fn raise_whole(
    atomic: bool,
    mark: Mark,
    raise: Raise,
    frame: &mut Frame,
    world: &mut World,
    place: &Place,
) -> Result<Outcome, NoMemory>
    requires known { mark ≤ length world.old.book.entries }
    ensures { (start : Content) → IsSince mark start world.old →
        Ran start world.new frame.new result (raising_whole atomic (scopes_of place.now)
        start.memory.tables raise frame.old (world_of world.old)) }
{
    back_if(atomic, mark, world);
    fail(raise, frame, world, place)
}
