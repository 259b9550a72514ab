//! UPDATE (ISO/IEC 9075-2, 14.14).

ghost use Rattle.std.specs.Prelude.{◌≡◌, ◌≤◌, ◌+◌, length};
ghost use Rattle.row_types.specs.Cells.{value_rows};
ghost use Rattle.row_types.specs.Tables.{table_named};
ghost use Rattle.rel_algebra.specs.World.{unit};
ghost use Rattle.data_change.specs.Writing.{change_in, changed};
ghost use Rattle.run_expressions.specs.Content.{world_of};
ghost use Rattle.run_expressions.specs.Ending.{Ended};

use crate::any_places::change_at;
use crate::places::places_in;
use crate::targets::changed_rows;
use row_types::{Row, RowList, Steps};
use run_expressions::{Stop, World, leave};
use run_rows::{row_values, rows_for};
use sql_values::Name;
use std::sync::ledger::Ledger;

/// Puts new values into rows of the table of the name, and gives how many they are. Each is met
/// with all its columns, and the values for the targets after them. Where it raises, the tables are
/// as before it. Each row is read in a step.
pub fn change_rows<L: Ledger>(
    table: &Name,
    targets: &[usize],
    met: RowList,
    world: &mut World,
    steps: &mut Steps<L>,
) -> Result<u64, Stop>
    ensures ends { Ended world.old world.new result
        (unit (changed table.now targets.now (value_rows met)) (world_of world.old)) }
    ensures steps { steps.new ≤ steps.old + length met }
{
    let rows = row_values(world.allocator(), met, steps)?;
    change_all(table, targets, rows, world)
}

// Changes rows, all or none.
#[tactic(auto, using(run_expressions::proofs::Laws::unit_stops))]
fn change_all(
    table: &Name,
    targets: &[usize],
    met: Vec<Row>,
    world: &mut World,
) -> Result<u64, Stop>
    ensures { Ended world.old world.new result
        (unit (changed table.now targets.now met.items) (world_of world.old)) }
{
    let mark = world.mark();
    match change_counted(table, targets, met, world) {
        Ok(count) => Ok(count),
        Err(why) => Err(leave(why, mark, world)),
    }
}

/// Puts new values into rows of the table of the name, and gives how many they are. They are found
/// by their keys, and may be met in any order.
pub fn change_counted(
    table: &Name,
    targets: &[usize],
    met: Vec<Row>,
    world: &mut World,
) -> Result<u64, Stop>
    ensures { Ended world.old world.new result
        (changed table.now targets.now met.items (world_of world.old)) }
{
    let count = met.len() as u64;
    change(table, targets, met, world)?;
    Ok(count)
}

// Changes rows of the table of a name; where no table has it nothing is changed.
fn change(table: &Name, targets: &[usize], met: Vec<Row>, world: &mut World) -> Result<(), Stop>
    ensures { Ended world.old world.new result
        (change_in (table_named table.now world.old.memory.tables) table.now targets.now met.items
        (world_of world.old)) }
{
    let Some(place) = world.tables().place_of(table) else {
        return Ok(());
    };
    let stored = world.tables().table_at(place);
    let places = places_in(world.allocator(), stored, &met)?;
    let changed = changed_rows(world.allocator(), stored, targets, met)?;
    let rows = rows_for(world.allocator(), stored, changed)?;
    change_at(place, places, rows, world)
}
