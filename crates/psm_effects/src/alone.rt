//! CALL and compound statements, and queries that have no plan, in a world of the tables: they are
//! run step by step.

ghost use Rattle.std.specs.Prelude.{◌≡◌, [], IfOk, OnErr};
ghost use Rattle.rel_algebra.specs.Meaning.{ask, run, run_call};
ghost use Rattle.reply_text.specs.Texts.{rows_text};
ghost use Rattle.routine_views.specs.Routines.{routines_of};
ghost use Rattle.routine_views.specs.Views.{arguments, query_in, stmt_in};
ghost use Rattle.run_expressions.specs.Content.{world_of as plain_world};
ghost use Rattle.run_places.specs.Places.{no_routine};
ghost use Rattle.viewing_laws.specs.Standing.{CallsStandBefore};
ghost use Rattle.psm_effects.specs.Conclusions.{database, IsEffect, KeepsShapes, stop_in};
ghost use Rattle.psm_effects.specs.Effects.{ended, given_text, replied};

use crate::conclude::{conclude, stop_reply};
use bound_trees::{BoundCall, BoundQuery, BoundStmt};
use catalog_store::Catalog;
use kept_queries::KeptPlans;
use reply_text::{Reply, done_reply, records_reply};
use run_expressions::{Stop, World};
use run_outcomes::Outcome;
use run_routines::{call_alone, run_alone, run_query};
use sql_values::NoMemory;
use std::mem::drop;

/// Answers a query row by row.
pub(crate) fn ask_in(
    query: &BoundQuery,
    world: &mut World,
    catalog: &Catalog,
    kept: &KeptPlans,
) -> Result<Reply, NoMemory>
    requires calls { CallsStandBefore catalog.now }
    requires kept { kept.now ≡ catalog.now }
    ensures ok { IfOk result (λ r. IsEffect (replied rows_text (database catalog.now world.old.memory)
        (ask (query_in (no_routine catalog.now) query.now) (plain_world world.old))) r (database catalog.now world.new.memory)) }
    ensures err { OnErr result (world.new.memory.tables ≡ world.old.memory.tables) }
    ensures shapes { KeepsShapes world.old.memory world.new.memory }
{
    let mark = world.mark();
    match run_query(query, world, catalog, kept) {
        Ok(rows) => {
            let reply = records_reply(world.allocator(), rows.as_slice());
            drop(rows);
            conclude(reply, mark, world)
        }
        Err(stop) => stop_reply(stop, mark, world),
    }
}

/// Does a CALL (ISO/IEC 9075-2, 15.1), and replies the values that it gives back.
pub(crate) fn call_in(
    call: &BoundCall,
    world: &mut World,
    catalog: &Catalog,
    kept: &KeptPlans,
) -> Result<Reply, NoMemory>
    requires calls { CallsStandBefore catalog.now }
    requires kept { kept.now ≡ catalog.now }
    ensures ok { IfOk result (λ r. IsEffect (replied given_text (database catalog.now world.old.memory)
        (run_call (routines_of catalog.now call.now.procedure)
        (arguments (no_routine catalog.now) call.now.arguments) (plain_world world.old))) r (database catalog.now world.new.memory)) }
    ensures err { OnErr result (world.new.memory.tables ≡ world.old.memory.tables) }
    ensures shapes { KeepsShapes world.old.memory world.new.memory }
{
    let mark = world.mark();
    match call_alone(call, world, catalog, kept) {
        Ok(values) => {
            let reply = done_reply(world.allocator(), values.as_slice(), None);
            drop(values);
            conclude(reply, mark, world)
        }
        Err(stop) => stop_reply(stop, mark, world),
    }
}

// What a compound statement stops with, if it does.
fn stop_of(outcome: Outcome) -> Option<Stop>
    ensures { result ≡ stop_in outcome }
{
    match outcome {
        Outcome::Raising(raise) => Some(Stop::Raised(raise)),
        Outcome::Spent => Some(Stop::Spent),
        _ => None,
    }
}

/// Runs a compound statement (ISO/IEC 9075-4, 14.1).
pub(crate) fn run_in(
    stmt: &BoundStmt,
    world: &mut World,
    catalog: &Catalog,
    kept: &KeptPlans,
) -> Result<Reply, NoMemory>
    requires calls { CallsStandBefore catalog.now }
    requires kept { kept.now ≡ catalog.now }
    ensures ok { IfOk result (λ r. IsEffect (ended (database catalog.now world.old.memory)
        (run (stmt_in (no_routine catalog.now) stmt.now []) (plain_world world.old))) r (database catalog.now world.new.memory)) }
    ensures err { OnErr result (world.new.memory.tables ≡ world.old.memory.tables) }
    ensures shapes { KeepsShapes world.old.memory world.new.memory }
{
    let mark = world.mark();
    match run_alone(stmt, world, catalog, kept) {
        Ok(outcome) => match stop_of(outcome) {
            Some(stop) => stop_reply(stop, mark, world),
            None => conclude(done_reply(world.allocator(), &[], None), mark, world),
        },
        Err(NoMemory) => stop_reply(Stop::NoMemory, mark, world),
    }
}
