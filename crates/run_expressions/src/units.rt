//! Units: what a unit that stops leaves.

ghost use Rattle.std.specs.Prelude.{◌≡◌, ◌≤◌, length};
ghost use Rattle.run_expressions.specs.Units.{IsLeft};

use crate::{Stop, World};
use atomic_undo::Mark;
use run_choices::is_taken_back;

/// A unit that raises an exception, or finds no memory, leaves the tables as they were at its mark.
/// One that raises another condition leaves them as they are, and so does one that runs out of
/// turns: the whole statement is taken back then.
#[tactic(auto, using(crate::proofs::Left::left_back, crate::proofs::Left::left_same))]
pub fn leave(stop: Stop, mark: Mark, world: &mut World) -> Stop
    requires { mark ≤ length world.old.book.entries }
    ensures same { result ≡ stop }
    ensures left { IsLeft stop mark world.old world.new }
{
    if !is_taken_back(&stop) {
        return stop;
    }
    world.roll_back(mark);
    stop
}
