//! DELETE (ISO/IEC 9075-2, 14.9).

ghost use Rattle.std.specs.Prelude.{◌≡◌, ◌≤◌, ◌+◌, length};
ghost use Rattle.row_types.specs.Cells.{value_rows};
ghost use Rattle.row_types.specs.Tables.{table_named};
ghost use Rattle.rel_algebra.specs.World.{unit};
ghost use Rattle.data_change.specs.Writing.{remove_in, removed};
ghost use Rattle.run_expressions.specs.Content.{world_of};
ghost use Rattle.run_expressions.specs.Ending.{Ended};

use crate::any_places::remove_at;
use crate::places::places_in;
use row_types::{Row, RowList, Steps};
use run_expressions::{Stop, World, leave};
use run_rows::row_values;
use sql_values::Name;
use std::sync::ledger::Ledger;

/// Takes rows out of the table of the name, and gives how many they are. Each is met with all its
/// columns. Where it finds no memory, the tables are as before it. Each row is read in a step.
pub fn remove_rows<L: Ledger>(
    table: &Name,
    met: RowList,
    world: &mut World,
    steps: &mut Steps<L>,
) -> Result<u64, Stop>
    ensures ends { Ended world.old world.new result
        (unit (removed table.now (value_rows met)) (world_of world.old)) }
    ensures steps { steps.new ≤ steps.old + length met }
{
    let rows = row_values(world.allocator(), met, steps)?;
    remove_all(table, rows, world)
}

// Removes rows, all or none.
#[tactic(auto, using(run_expressions::proofs::Laws::unit_stops))]
fn remove_all(table: &Name, met: Vec<Row>, world: &mut World) -> Result<u64, Stop>
    ensures { Ended world.old world.new result
        (unit (removed table.now met.items) (world_of world.old)) }
{
    let mark = world.mark();
    match remove_counted(table, met, world) {
        Ok(count) => Ok(count),
        Err(why) => Err(leave(why, mark, world)),
    }
}

/// Takes rows out of the table of the name, and gives how many they are. They are found by their
/// keys, and may be met in any order. Where it finds no memory some may be gone, and the caller
/// takes that back.
pub fn remove_counted(table: &Name, met: Vec<Row>, world: &mut World) -> Result<u64, Stop>
    ensures { Ended world.old world.new result (removed table.now met.items (world_of world.old)) }
{
    let count = met.len() as u64;
    remove(table, &met, world)?;
    Ok(count)
}

// Removes rows of the table of a name; where no table has it nothing is removed.
fn remove(table: &Name, met: &[Row], world: &mut World) -> Result<(), Stop>
    ensures { Ended world.old world.new result
        (remove_in (table_named table.now world.old.memory.tables) table.now met.now
        (world_of world.old)) }
{
    let Some(place) = world.tables().place_of(table) else {
        return Ok(());
    };
    let places = places_in(world.allocator(), world.tables().table_at(place), met)?;
    remove_at(place, places, world)
}
