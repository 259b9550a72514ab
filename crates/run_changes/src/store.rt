//! INSERT (ISO/IEC 9075-2, 14.11), of the columns that are listed.

ghost use Rattle.std.specs.Prelude.{◌≡◌, ◌≤◌, ◌+◌, length, Some};
ghost use Rattle.row_types.specs.Cells.{value_rows};
ghost use Rattle.row_types.specs.Tables.{table_named};
ghost use Rattle.rel_algebra.specs.World.{unit};
ghost use Rattle.rel_algebra.specs.Writing.{store_in};
ghost use Rattle.data_change.specs.Writing.{spread_rows as spread_by, stored_in};
ghost use Rattle.run_expressions.specs.Content.{world_of};
ghost use Rattle.run_expressions.specs.Ending.{Ended};

use crate::making::make;
use crate::targets::spread_rows;
use atomic_undo::Changes;
use row_types::{Row, RowList, Steps};
use run_expressions::{Stop, World, leave};
use run_rows::{row_values, rows_for};
use sql_values::Name;
use sqlite_items::Items;
use std::sync::ledger::Ledger;

/// Stores rows that all have values in the table of the name, each with NULL in the columns that
/// are not listed, and gives how many they are. Where it raises, the tables are as before it. Each
/// row is read in a step.
pub fn store_rows<L: Ledger>(
    table: &Name,
    listed: &Option<Items<usize>>,
    new: RowList,
    world: &mut World,
    steps: &mut Steps<L>,
) -> Result<u64, Stop>
    ensures ends { Ended world.old world.new result
        (unit (stored_in table.now listed.now (value_rows new)) (world_of world.old)) }
    ensures steps { steps.new ≤ steps.old + length new }
{
    let rows = row_values(world.allocator(), new, steps)?;
    store_all(table, listed, rows, world)
}

// Stores rows, all or none.
#[tactic(auto, using(run_expressions::proofs::Laws::unit_stops))]
fn store_all(
    table: &Name,
    listed: &Option<Items<usize>>,
    new: Vec<Row>,
    world: &mut World,
) -> Result<u64, Stop>
    ensures { Ended world.old world.new result
        (unit (stored_in table.now listed.now new.items) (world_of world.old)) }
{
    let mark = world.mark();
    match store_counted(table, listed, new, world) {
        Ok(count) => Ok(count),
        Err(why) => Err(leave(why, mark, world)),
    }
}

/// Stores rows in the table of the name, each with NULL in the columns that are not listed, and
/// gives how many they are.
pub fn store_counted(
    table: &Name,
    listed: &Option<Items<usize>>,
    new: Vec<Row>,
    world: &mut World,
) -> Result<u64, Stop>
    ensures { Ended world.old world.new result
        (stored_in table.now listed.now new.items (world_of world.old)) }
{
    match listed {
        Some(listed) => store_listed(table, listed.as_slice(), new, world),
        None => run_rows::store_counted(table, new, world),
    }
}

// Stores rows of values for the columns that are listed.
fn store_listed(
    table: &Name,
    listed: &[usize],
    new: Vec<Row>,
    world: &mut World,
) -> Result<u64, Stop>
    ensures { Ended world.old world.new result
        (stored_in table.now (Some listed.now) new.items (world_of world.old)) }
{
    let count = new.len() as u64;
    store(table, listed, new, world)?;
    Ok(count)
}

// Stores rows in the table of a name; where no table has it nothing is stored.
fn store(table: &Name, listed: &[usize], new: Vec<Row>, world: &mut World) -> Result<(), Stop>
    ensures { Ended world.old world.new result
        (store_in (table_named table.now world.old.memory.tables) table.now
        (spread_by (Some listed.now) (table_named table.now world.old.memory.tables) new.items)
        (world_of world.old)) }
{
    let Some(place) = world.tables().place_of(table) else {
        return Ok(());
    };
    let stored = world.tables().table_at(place);
    let spread = spread_rows(world.allocator(), stored, listed, new)?;
    let rows = rows_for(world.allocator(), stored, spread)?;
    make(place, Changes::Insert(rows), world)
}
