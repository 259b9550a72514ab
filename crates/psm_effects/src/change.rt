//! Changes of rows in a world of the tables: the rows that they take are those that a plan gives,
//! or where none does, those of the query row by row.

ghost use Rattle.std.specs.Prelude.{◌≡◌, IfOk, OnErr};
ghost use Rattle.row_types.specs.Cells.{value_rows};
ghost use Rattle.rel_algebra.specs.World.{unit};
ghost use Rattle.run_expressions.specs.Content.{world_of as plain_world};
ghost use Rattle.run_expressions.specs.Ending.{Ended};
ghost use Rattle.viewing_laws.specs.Standing.{CallsStandBefore};
ghost use Rattle.psm_effects.specs.Conclusions.{database, IsEffect, KeepsShapes};
ghost use Rattle.psm_effects.specs.Effects.{replied, changed_text};
ghost use Rattle.psm_effects.specs.Shapes.{IsWhole};
ghost use Rattle.psm_effects.specs.Tasks.{rows_query, made, change_of, HasPlan, PlanFits};

use crate::conclude::{conclude, stop_reply};
use crate::planned::planned_answer;
use bound_trees::{BoundDelete, BoundInsert, BoundQuery, BoundUpdate};
use catalog_store::Catalog;
use kept_queries::KeptPlans;
use plan_exec::Answer;
use reply_text::{Reply, done_reply};
use row_types::{RowList, Steps};
use run_changes::{change_rows, remove_rows, store_rows};
use run_expressions::{Raise, Stop, World};
use run_routines::{delete_alone, insert_alone, update_alone};
use sql_values::NoMemory;
use sqlite_items::Items;
use std::sync::ledger::Ledger;

/// What changes the rows of a table.
#[derive(Clone, Copy)]
pub(crate) enum Change<'a> {
    /// An INSERT, with the places of the columns that it lists, where it lists some.
    Insert(&'a BoundInsert, &'a Option<Items<usize>>),
    /// An UPDATE.
    Update(&'a BoundUpdate),
    /// A DELETE.
    Delete(&'a BoundDelete),
}

impl<'a> Change<'a> {
    // The query that gives the rows.
    fn query(&self) -> &'a BoundQuery
        ensures { result.now ≡ rows_query self.now }
    {
        match self {
            Change::Insert(insert, _) => &insert.source,
            Change::Update(update) => &update.rows,
            Change::Delete(delete) => &delete.rows,
        }
    }
}

// Makes a change of the rows that its query gave.
fn make_of<L: Ledger>(
    change: Change<'_>,
    rows: RowList,
    world: &mut World,
    steps: &mut Steps<L>,
) -> Result<u64, Stop>
    ensures { Ended world.old world.new result
        (unit (made change.entry (value_rows rows)) (plain_world world.old)) }
{
    match change {
        Change::Insert(insert, listed) => store_rows(&insert.table, listed, rows, world, steps),
        Change::Update(update) => {
            change_rows(&update.table, update.targets.as_slice(), rows, world, steps)
        }
        Change::Delete(delete) => remove_rows(&delete.table, rows, world, steps),
    }
}

// Makes a change of the rows of a plan: all of them are evaluated first.
fn make<L: Ledger>(
    change: Change<'_>,
    world: &mut World,
    catalog: &Catalog,
    steps: &mut Steps<L>,
) -> Result<u64, Stop>
    requires whole { IsWhole (database catalog.now world.old.memory) }
    requires fits { HasPlan catalog.now (rows_query change) }
    ensures { Ended world.old world.new result
        (change_of change.entry catalog.now (plain_world world.old)) }
{
    let alloc = world.allocator();
    match planned_answer(alloc, change.query(), catalog, world.tables(), steps)? {
        Answer::Rows(rows) => make_of(change, rows, world, steps),
        Answer::Raised(area) => Err(Stop::Raised(Raise::held(alloc, area)?)),
    }
}

// Makes a change of the rows of its query, row by row.
fn make_alone(
    change: Change<'_>,
    world: &mut World,
    catalog: &Catalog,
    kept: &KeptPlans,
) -> Result<u64, Stop>
    requires calls { CallsStandBefore catalog.now }
    requires kept { kept.now ≡ catalog.now }
    ensures { Ended world.old world.new result
        (change_of change.entry catalog.now (plain_world world.old)) }
{
    match change {
        Change::Insert(insert, listed) => insert_alone(insert, listed, world, catalog, kept),
        Change::Update(update) => update_alone(update, world, catalog, kept),
        Change::Delete(delete) => delete_alone(delete, world, catalog, kept),
    }
}

// Makes a change, by a plan where it is said that its query has one.
fn made_by<L: Ledger>(
    change: Change<'_>,
    by_plan: bool,
    world: &mut World,
    catalog: &Catalog,
    kept: &KeptPlans,
    steps: &mut Steps<L>,
) -> Result<u64, Stop>
    requires whole { IsWhole (database catalog.now world.old.memory) }
    requires calls { CallsStandBefore catalog.now }
    requires kept { kept.now ≡ catalog.now }
    requires fits { PlanFits by_plan catalog.now (rows_query change) }
    ensures { Ended world.old world.new result
        (change_of change.entry catalog.now (plain_world world.old)) }
{
    if by_plan {
        make(change, world, catalog, steps)
    } else {
        make_alone(change, world, catalog, kept)
    }
}

/// Makes a change in a world, by a plan where it is said that its query has one, and replies how
/// many rows it stored, changed or removed.
pub(crate) fn change_in<L: Ledger>(
    change: Change<'_>,
    by_plan: bool,
    world: &mut World,
    catalog: &Catalog,
    kept: &KeptPlans,
    steps: &mut Steps<L>,
) -> Result<Reply, NoMemory>
    requires whole { IsWhole (database catalog.now world.old.memory) }
    requires calls { CallsStandBefore catalog.now }
    requires kept { kept.now ≡ catalog.now }
    requires fits { PlanFits by_plan catalog.now (rows_query change) }
    ensures ok { IfOk result (λ r. IsEffect (replied changed_text (database catalog.now world.old.memory)
        (change_of change.entry catalog.now (plain_world world.old))) r (database catalog.now world.new.memory)) }
    ensures err { OnErr result (world.new.memory.tables ≡ world.old.memory.tables) }
    ensures shapes { KeepsShapes world.old.memory world.new.memory }
{
    let mark = world.mark();
    match made_by(change, by_plan, world, catalog, kept, steps) {
        Ok(count) => conclude(done_reply(world.allocator(), &[], Some(count)), mark, world),
        Err(stop) => stop_reply(stop, mark, world),
    }
}
