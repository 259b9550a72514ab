//! Rows that are stored in a table (ISO/IEC 9075-2, 14.11).

ghost use Rattle.std.specs.Prelude.{◌≡◌, ◌≤◌, ◌+◌, IfOk, length};
ghost use Rattle.row_types.specs.Cells.{value_rows};
ghost use Rattle.row_types.specs.Tables.{table_named};
ghost use Rattle.rel_algebra.specs.World.{unit};
ghost use Rattle.rel_algebra.specs.Writing.{store_in, stored};
ghost use Rattle.run_expressions.specs.Content.{world_of};
ghost use Rattle.run_expressions.specs.Ending.{Ended};

use crate::rows::{row_values, rows_for};
use atomic_undo::Changes;
use row_types::{Row, RowList, Steps};
use run_expressions::{Stop, World, leave};
use sql_values::{Name, NoMemory};
use sqlite_items::Items;
use std::alloc::Global;
use std::sync::ledger::Ledger;

/// Stores rows that all have values in the table of the name, and gives how many they are. Where it
/// raises, the tables are as before it. Each row is read in a step.
pub fn store_rows<L: Ledger>(
    table: &Name,
    new: RowList,
    world: &mut World,
    steps: &mut Steps<L>,
) -> Result<u64, Stop>
    ensures ends { Ended world.old world.new result
        (unit (stored table.now (value_rows new)) (world_of world.old)) }
    ensures steps { steps.new ≤ steps.old + length new }
{
    let rows = row_values(world.allocator(), new, steps)?;
    store_all(table, rows, world)
}

// Stores rows, all or none.
#[tactic(auto, using(run_expressions::proofs::Laws::unit_stops))]
fn store_all(table: &Name, new: Vec<Row>, world: &mut World) -> Result<u64, Stop>
    ensures { Ended world.old world.new result
        (unit (stored table.now new.items) (world_of world.old)) }
{
    let mark = world.mark();
    match store_counted(table, new, world) {
        Ok(count) => Ok(count),
        Err(why) => Err(leave(why, mark, world)),
    }
}

/// Stores rows in the table of the name, and says how many they are.
pub fn store_counted(table: &Name, new: Vec<Row>, world: &mut World) -> Result<u64, Stop>
    ensures { Ended world.old world.new result (stored table.now new.items (world_of world.old)) }
{
    let count = new.len() as u64;
    store(table, new, world)?;
    Ok(count)
}

/// The same rows in a vector.
pub fn in_vec(alloc: Global, rows: Items<Row>) -> Result<Vec<Row>, NoMemory>
    ensures { IfOk result (λ all. all.items ≡ rows) }
{
    let mut left = rows;
    let mut all = Vec::with_capacity(alloc, left.len())?;
    while let Some(row) = left.pop() {
        all.push(row)?;
    }
    all.reverse();
    Ok(all)
}

// Stores rows in the table of a name; where no table has it nothing is stored.
fn store(table: &Name, new: Vec<Row>, world: &mut World) -> Result<(), Stop>
    ensures { Ended world.old world.new result
        (store_in (table_named table.now world.old.memory.tables) table.now new.items
        (world_of world.old)) }
{
    let Some(place) = world.tables().place_of(table) else {
        return Ok(());
    };
    let rows = rows_for(world.allocator(), world.tables().table_at(place), new)?;
    world.change(place, Changes::Insert(rows))?;
    Ok(())
}
