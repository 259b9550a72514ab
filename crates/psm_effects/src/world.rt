//! Statements that run in a world of the tables.

ghost use Rattle.std.specs.Prelude.{◌≡◌, true, IfOk, OnErr};
ghost use Rattle.rel_algebra.specs.Meaning.{ask};
ghost use Rattle.rel_algebra.specs.Plain.{planned};
ghost use Rattle.catalog_store.specs.View.{query_of};
ghost use Rattle.reply_text.specs.Texts.{rows_text};
ghost use Rattle.routine_views.specs.Views.{query_in};
ghost use Rattle.run_expressions.specs.Content.{world_of as plain_world};
ghost use Rattle.run_places.specs.Places.{no_routine};
ghost use Rattle.viewing_laws.specs.Standing.{CallsStandBefore};
ghost use Rattle.psm_effects.specs.Effects.{replied};
ghost use Rattle.psm_effects.specs.Shapes.{IsWhole};
ghost use Rattle.psm_effects.specs.Tasks.{task_effect, PlanFits, TaskFits};
ghost use Rattle.psm_effects.specs.Conclusions.{database, IsEffect, KeepsShapes};

use crate::alone::{ask_in, call_in, run_in};
use crate::change::change_in;
use crate::planned::planned_answer;
use crate::task::Task;
use bound_trees::BoundQuery;
use catalog_store::Catalog;
use kept_queries::KeptPlans;
use plan_exec::Answer;
use reply_text::{Reply, area_reply, rows_reply};
use row_types::Steps;
use run_expressions::World;
use sql_values::NoMemory;
use std::alloc::Global;
use std::marker::Brand;
use std::mem::replace;
use std::sync::ledger::{Blank, Ledger};
use table_store::Tables;

// Answers a query in a world by its plan.
fn answer_in<L: Ledger>(
    query: &BoundQuery,
    world: &mut World,
    catalog: &Catalog,
    steps: &mut Steps<L>,
) -> Result<Reply, NoMemory>
    requires whole { IsWhole (database catalog.now world.old.memory) }
    requires planned { planned (query_of catalog.now query.now) ≡ true }
    ensures ok { IfOk result (λ r. IsEffect (replied rows_text (database catalog.now world.old.memory)
        (ask (query_in (no_routine catalog.now) query.now) (plain_world world.old))) r (database catalog.now world.new.memory)) }
    ensures err { OnErr result (world.new.memory.tables ≡ world.old.memory.tables) }
    ensures shapes { KeepsShapes world.old.memory world.new.memory }
{
    let alloc = world.allocator();
    match planned_answer(alloc, query, catalog, world.tables(), steps)? {
        Answer::Rows(rows) => rows_reply(alloc, rows, steps),
        Answer::Raised(area) => area_reply(alloc, &area),
    }
}

// Answers a query in a world, by its plan where it is said that it has one, and else row by row.
fn answer_by<L: Ledger>(
    query: &BoundQuery,
    by_plan: bool,
    world: &mut World,
    catalog: &Catalog,
    kept: &KeptPlans,
    steps: &mut Steps<L>,
) -> Result<Reply, NoMemory>
    requires whole { IsWhole (database catalog.now world.old.memory) }
    requires calls { CallsStandBefore catalog.now }
    requires kept { kept.now ≡ catalog.now }
    requires fits { PlanFits by_plan catalog.now query.now }
    ensures ok { IfOk result (λ r. IsEffect (replied rows_text (database catalog.now world.old.memory)
        (ask (query_in (no_routine catalog.now) query.now) (plain_world world.old))) r (database catalog.now world.new.memory)) }
    ensures err { OnErr result (world.new.memory.tables ≡ world.old.memory.tables) }
    ensures shapes { KeepsShapes world.old.memory world.new.memory }
{
    if by_plan {
        answer_in(query, world, catalog, steps)
    } else {
        ask_in(query, world, catalog, kept)
    }
}

// Does a task with so many turns in a world of the tables, whose reads of rows are counted by a new
// ledger.
fn in_world<L: Ledger>(
    blank: Blank,
    alloc: Global,
    task: Task,
    by_plan: bool,
    budget: u64,
    catalog: &Catalog,
    kept: &KeptPlans,
    tables: &mut Tables,
) -> Result<Reply, NoMemory>
    requires name { blank.name ≡ L.name }
    requires parts { blank.parts ≡ L.parts }
    requires some { blank.parts ≡ 1 }
    requires whole { IsWhole (database catalog.now tables.old) }
    requires calls { CallsStandBefore catalog.now }
    requires kept { kept.now ≡ catalog.now }
    requires fits { TaskFits by_plan catalog.now task }
    ensures ok { IfOk result (λ r. IsEffect (task_effect budget task.entry (database catalog.now tables.old)) r
        (database catalog.now tables.new)) }
    ensures err { OnErr result (tables.new.tables ≡ tables.old.tables) }
    ensures shapes { KeepsShapes tables.old tables.new }
{
    let (book, share) = blank.open();
    let mut steps = Steps::<L>::new(book, share);
    let mut world = World::new(alloc, replace(tables, Tables::new(alloc)), budget);
    let reply = match task {
        Task::Make(change) => change_in(change, by_plan, &mut world, catalog, kept, &mut steps),
        Task::Answer(query) => answer_by(query, by_plan, &mut world, catalog, kept, &mut steps),
        Task::Call(call) => call_in(call, &mut world, catalog, kept),
        Task::Run(stmt) => run_in(stmt, &mut world, catalog, kept),
    };
    *tables = world.into_tables();
    reply
}

/// Does a task with so many turns in a world of the tables, by a plan where it is said that its
/// query has one. Without memory no table changes.
pub(crate) fn do_task(
    alloc: Global,
    task: Task,
    by_plan: bool,
    budget: u64,
    catalog: &Catalog,
    kept: &KeptPlans,
    tables: &mut Tables,
) -> Result<Reply, NoMemory>
    requires whole { IsWhole (database catalog.now tables.old) }
    requires calls { CallsStandBefore catalog.now }
    requires kept { kept.now ≡ catalog.now }
    requires fits { TaskFits by_plan catalog.now task }
    ensures ok { IfOk result (λ r. IsEffect (task_effect budget task.entry (database catalog.now tables.old)) r
        (database catalog.now tables.new)) }
    ensures err { OnErr result (tables.new.tables ≡ tables.old.tables) }
    ensures shapes { KeepsShapes tables.old tables.new }
{
    in_world::<Brand>(
        Blank::new(1),
        alloc,
        task,
        by_plan,
        budget,
        catalog,
        kept,
        tables,
    )
}
