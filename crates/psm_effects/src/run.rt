//! What a statement does that changes rows, a query, CALL and a compound statement, each in a world
//! of its own. A query is answered by its plan where it is said that it has one, and else row by
//! row; so are the rows of a change.

ghost use Rattle.std.specs.Prelude.{◌≡◌, ℕ, false, IfOk, OnErr};
ghost use Rattle.catalog_store.specs.Catalog.{Catalog as PlainCatalog};
ghost use Rattle.psm_effects.specs.Conclusions.{database, IsEffect};
ghost use Rattle.viewing_laws.specs.Standing.{CallsStandBefore};
ghost use Rattle.psm_effects.specs.Effects.{inserted, updated, deleted, answered, routine_done};
ghost use Rattle.psm_effects.specs.Shapes.{IsWhole};
ghost use Rattle.psm_effects.specs.Database.{Plain};
ghost use Rattle.psm_effects.specs.Tasks.{PlanFits, TaskFits, task_effect};

use crate::change::Change;
use crate::task::Task;
use crate::world::do_task;
use bound_trees::{BoundDelete, BoundInsert, BoundQuery, BoundStmt, BoundUpdate};
use catalog_store::Catalog;
use kept_queries::KeptPlans;
use reply_text::Reply;
use sql_values::NoMemory;
use sqlite_items::Items;
use std::alloc::Global;
use table_store::Tables;

/// Does an INSERT with so many turns, and with the places of the columns that it lists, where it lists some. Without
/// memory no table changes.
pub fn run_insert(
    alloc: Global,
    insert: &BoundInsert,
    listed: &Option<Items<usize>>,
    by_plan: bool,
    budget: u64,
    catalog: &Catalog,
    kept: &KeptPlans,
    tables: &mut Tables,
) -> Result<Reply, NoMemory>
    requires whole { IsWhole (database catalog.now tables.old) }
    requires calls { CallsStandBefore catalog.now }
    requires kept { kept.now ≡ catalog.now }
    requires fits { PlanFits by_plan catalog.now insert.now.source }
    ensures ok { IfOk result (λ r. IsEffect
        (inserted budget insert.now listed.now (database catalog.now tables.old)) r
        (database catalog.now tables.new)) }
    ensures err { OnErr result (tables.new.tables ≡ tables.old.tables) }
    ensures whole { IsWhole (database catalog.now tables.new) }
{
    do_task(
        alloc,
        Task::Make(Change::Insert(insert, listed)),
        by_plan,
        budget,
        catalog,
        kept,
        tables,
    )
}

/// Does an UPDATE with so many turns. Without memory no table changes.
pub fn run_update(
    alloc: Global,
    update: &BoundUpdate,
    by_plan: bool,
    budget: u64,
    catalog: &Catalog,
    kept: &KeptPlans,
    tables: &mut Tables,
) -> Result<Reply, NoMemory>
    requires whole { IsWhole (database catalog.now tables.old) }
    requires calls { CallsStandBefore catalog.now }
    requires kept { kept.now ≡ catalog.now }
    requires fits { PlanFits by_plan catalog.now update.now.rows }
    ensures ok { IfOk result (λ r. IsEffect (updated budget update.now (database catalog.now tables.old)) r
        (database catalog.now tables.new)) }
    ensures err { OnErr result (tables.new.tables ≡ tables.old.tables) }
    ensures whole { IsWhole (database catalog.now tables.new) }
{
    do_task(
        alloc,
        Task::Make(Change::Update(update)),
        by_plan,
        budget,
        catalog,
        kept,
        tables,
    )
}

/// Does a DELETE with so many turns. Without memory no table changes.
pub fn run_delete(
    alloc: Global,
    delete: &BoundDelete,
    by_plan: bool,
    budget: u64,
    catalog: &Catalog,
    kept: &KeptPlans,
    tables: &mut Tables,
) -> Result<Reply, NoMemory>
    requires whole { IsWhole (database catalog.now tables.old) }
    requires calls { CallsStandBefore catalog.now }
    requires kept { kept.now ≡ catalog.now }
    requires fits { PlanFits by_plan catalog.now delete.now.rows }
    ensures ok { IfOk result (λ r. IsEffect (deleted budget delete.now (database catalog.now tables.old)) r
        (database catalog.now tables.new)) }
    ensures err { OnErr result (tables.new.tables ≡ tables.old.tables) }
    ensures whole { IsWhole (database catalog.now tables.new) }
{
    do_task(
        alloc,
        Task::Make(Change::Delete(delete)),
        by_plan,
        budget,
        catalog,
        kept,
        tables,
    )
}

/// Answers a query with so many turns. The tables stay those of the catalog; without memory none changes.
pub fn run_query(
    alloc: Global,
    query: &BoundQuery,
    by_plan: bool,
    budget: u64,
    catalog: &Catalog,
    kept: &KeptPlans,
    tables: &mut Tables,
) -> Result<Reply, NoMemory>
    requires whole { IsWhole (database catalog.now tables.old) }
    requires calls { CallsStandBefore catalog.now }
    requires kept { kept.now ≡ catalog.now }
    requires fits { PlanFits by_plan catalog.now query.now }
    ensures ok { IfOk result (λ r. IsEffect (answered budget query.now (database catalog.now tables.old)) r
        (database catalog.now tables.new)) }
    ensures err { OnErr result (tables.new.tables ≡ tables.old.tables) }
    ensures whole { IsWhole (database catalog.now tables.new) }
{
    do_task(
        alloc,
        Task::Answer(query),
        by_plan,
        budget,
        catalog,
        kept,
        tables,
    )
}

// What is done for a statement that a routine may have too.
fn routine_task<'a>(stmt: &'a BoundStmt) -> Task<'a>
    ensures effect { (budget : ℕ) (db : Plain) →
        task_effect budget result db ≡ routine_done budget stmt.now db }
    ensures fits { (catalog : PlainCatalog) → TaskFits false catalog result }
{
    match stmt {
        BoundStmt::Call(call) => Task::Call(call),
        _ => Task::Run(stmt),
    }
}

/// Does a statement that a routine may have too, with so many turns: a CALL (ISO/IEC 9075-2, 15.1),
/// or a compound statement (ISO/IEC 9075-4, 14.1). Without memory no table changes.
pub fn run_routine(
    alloc: Global,
    stmt: &BoundStmt,
    budget: u64,
    catalog: &Catalog,
    kept: &KeptPlans,
    tables: &mut Tables,
) -> Result<Reply, NoMemory>
    requires whole { IsWhole (database catalog.now tables.old) }
    requires calls { CallsStandBefore catalog.now }
    requires kept { kept.now ≡ catalog.now }
    ensures ok { IfOk result (λ r. IsEffect (routine_done budget stmt.now (database catalog.now tables.old)) r
        (database catalog.now tables.new)) }
    ensures err { OnErr result (tables.new.tables ≡ tables.old.tables) }
    ensures whole { IsWhole (database catalog.now tables.new) }
{
    do_task(
        alloc,
        routine_task(stmt),
        false,
        budget,
        catalog,
        kept,
        tables,
    )
}
