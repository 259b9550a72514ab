//! One change of the table at a place.

ghost use Rattle.std.specs.Prelude.{◌≡◌, ◌<◌, length};
ghost use Rattle.row_types.specs.Tables.{table_at};
ghost use Rattle.atomic_undo.specs.Applying.{IsFor};
ghost use Rattle.run_expressions.specs.Content.{world_of};
ghost use Rattle.run_expressions.specs.Ending.{Ended};
ghost use Rattle.run_changes.specs.Making.{keep_at, rows_after};

use atomic_undo::Changes;
use run_expressions::{Stop, World};

/// Makes a change in the table at a place, or raises where a row of the result has the key of an
/// earlier one.
pub fn make(place: usize, changes: Changes, world: &mut World) -> Result<(), Stop>
    requires there { place < length world.old.memory.tables }
    requires changes { IsFor (table_at world.old.memory.tables place) changes }
    ensures { Ended world.old world.new result
        (keep_at place (rows_after (table_at world.old.memory.tables place) changes)
        (world_of world.old)) }
{
    world.change(place, changes)?;
    Ok(())
}
