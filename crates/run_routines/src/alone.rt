//! Statements of a script, which stand in no routine.

ghost use Rattle.std.specs.Prelude.{◌≡◌, [], IfOk};
ghost use Rattle.rel_algebra.specs.Changes.{delete as deletes, insert as inserts, update as updates};
ghost use Rattle.rel_algebra.specs.Meaning.{ask, run, run_call};
ghost use Rattle.rel_algebra.specs.World.{no_frame, no_self, unit};
ghost use Rattle.routine_views.specs.Routines.{routines_of};
ghost use Rattle.routine_views.specs.Views.{arguments as arguments_in, query_in, stmt_in};
ghost use Rattle.run_expressions.specs.Content.{Stays, world_of};
ghost use Rattle.run_expressions.specs.Ending.{Ended};
ghost use Rattle.run_places.specs.Places.{no_routine};
ghost use Rattle.run_routines.specs.Scripts.{IsEnd};
ghost use Rattle.run_routines.specs.Writing.{writes};
ghost use Rattle.viewing_laws.specs.Standing.{CallsStandBefore};

use crate::passing::perform;
use crate::statements::run_stmt;
use crate::units::assess;
use crate::writing::{DataChange, changed};
use bound_trees::{BoundCall, BoundDelete, BoundInsert, BoundQuery, BoundStmt, BoundUpdate};
use catalog_store::Catalog;
use kept_queries::KeptPlans;
use row_types::Row;
use run_expressions::{Stop, World};
use run_frames::Frame;
use run_outcomes::Outcome;
use run_places::in_no_routine;
use sql_values::{Name, NoMemory, Value};
use sqlite_items::Items;

/// The rows of a query that is a statement (ISO/IEC 9075-2, 7.17). Where it raises, the tables are
/// as before it.
pub fn run_query(
    query: &BoundQuery,
    world: &mut World,
    catalog: &Catalog,
    kept: &KeptPlans,
) -> Result<Items<Row>, Stop>
    requires calls { CallsStandBefore catalog.now }
    requires kept { kept.now ≡ catalog.now }
    ensures { Ended world.old world.new result
        (ask (query_in (no_routine catalog.now) query.now) (world_of world.old)) }
{
    let place = in_no_routine(catalog, kept);
    let frame = Frame::empty(world.allocator());
    assess(query, &frame, world, &place)
}

/// INSERT (ISO/IEC 9075-2, 14.11), with the places of the listed columns, where some are listed: how
/// many rows are stored. All are evaluated first; where it raises, the tables are as before it.
pub fn insert_alone(
    insert: &BoundInsert,
    listed: &Option<Items<usize>>,
    world: &mut World,
    catalog: &Catalog,
    kept: &KeptPlans,
) -> Result<u64, Stop>
    requires calls { CallsStandBefore catalog.now }
    requires kept { kept.now ≡ catalog.now }
    ensures { Ended world.old world.new result (inserts insert.now.table listed.now
        (query_in (no_routine catalog.now) insert.now.source) (world_of world.old)) }
{
    let change = DataChange::Insert(listed);
    change_alone(change, &insert.table, &insert.source, world, catalog, kept)
}

/// UPDATE (14.14): how many rows are changed. All are met, and all values evaluated, first; where it
/// raises, the tables are as before it.
pub fn update_alone(
    update: &BoundUpdate,
    world: &mut World,
    catalog: &Catalog,
    kept: &KeptPlans,
) -> Result<u64, Stop>
    requires calls { CallsStandBefore catalog.now }
    requires kept { kept.now ≡ catalog.now }
    ensures { Ended world.old world.new result (updates update.now.table update.now.targets
        (query_in (no_routine catalog.now) update.now.rows) (world_of world.old)) }
{
    let change = DataChange::Update(update.targets.as_slice());
    change_alone(change, &update.table, &update.rows, world, catalog, kept)
}

/// DELETE (14.9): how many rows are removed. All are met first; where it raises, the tables are as
/// before it.
pub fn delete_alone(
    delete: &BoundDelete,
    world: &mut World,
    catalog: &Catalog,
    kept: &KeptPlans,
) -> Result<u64, Stop>
    requires calls { CallsStandBefore catalog.now }
    requires kept { kept.now ≡ catalog.now }
    ensures { Ended world.old world.new result (deletes delete.now.table
        (query_in (no_routine catalog.now) delete.now.rows) (world_of world.old)) }
{
    change_alone(
        DataChange::Delete,
        &delete.table,
        &delete.rows,
        world,
        catalog,
        kept,
    )
}

// How many rows a data change statement writes.
fn change_alone(
    change: DataChange,
    table: &Name,
    query: &BoundQuery,
    world: &mut World,
    catalog: &Catalog,
    kept: &KeptPlans,
) -> Result<u64, Stop>
    requires calls { CallsStandBefore catalog.now }
    requires kept { kept.now ≡ catalog.now }
    ensures { Ended world.old world.new result
        (unit (writes change.entry table.now (query_in (no_routine catalog.now) query.now) no_self
        no_frame) (world_of world.old)) }
{
    let place = in_no_routine(catalog, kept);
    let frame = Frame::empty(world.allocator());
    changed(change, table, query, &frame, world, &place)
}

/// CALL (15.1): the values of the OUT and INOUT parameters, in their order. The arguments are a
/// unit; what the procedure did stays, also where it raises.
pub fn call_alone(
    call: &BoundCall,
    world: &mut World,
    catalog: &Catalog,
    kept: &KeptPlans,
) -> Result<Items<Value>, Stop>
    requires calls { CallsStandBefore catalog.now }
    requires kept { kept.now ≡ catalog.now }
    ensures { Ended world.old world.new result
        (run_call (routines_of catalog.now call.now.procedure)
        (arguments_in (no_routine catalog.now) call.now.arguments) (world_of world.old)) }
{
    let place = in_no_routine(catalog, kept);
    let frame = Frame::empty(world.allocator());
    perform(
        &call.procedure,
        call.arguments.as_slice(),
        &frame,
        world,
        &place,
    )
}

/// A statement that is no query and no CALL, such as a compound statement (ISO/IEC 9075-4, 14.1):
/// how it ends. No frame is left of it.
pub fn run_alone(
    stmt: &BoundStmt,
    world: &mut World,
    catalog: &Catalog,
    kept: &KeptPlans,
) -> Result<Outcome, NoMemory>
    requires calls { CallsStandBefore catalog.now }
    requires kept { kept.now ≡ catalog.now }
    ensures ends { IfOk result (λ o. IsEnd o world.new
        (run (stmt_in (no_routine catalog.now) stmt.now []) (world_of world.old))) }
    ensures stays { Stays world.old world.new }
{
    let place = in_no_routine(catalog, kept);
    let mut frame = Frame::empty(world.allocator());
    run_stmt(stmt, &mut frame, world, &place)
}
