//! How an activation of a routine that calls itself starts.

ghost use Rattle.run_places.specs.Activations.{Started};

use run_expressions::{Stop, World};

/// A turn is taken, and one routine more is active. Where none is left it stops; more active
/// routines than a world counts find no room.
pub fn start(world: &mut World) -> Result<(), Stop>
    ensures { Started world.old world.new result }
{
    world.take_turn()?;
    if world.activate() {
        Ok(())
    } else {
        Err(Stop::NoMemory)
    }
}
