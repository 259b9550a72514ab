//! What a statement does next where nothing of it is left to run: where an evaluation in it stopped
//! (ISO/IEC 9075-4, 4.8), and at the end of a compound statement (14.1).

ghost use Rattle.std.specs.Prelude.{◌≤◌, length};
ghost use Rattle.run_expressions.specs.Content.{Content};
ghost use Rattle.run_outcomes.specs.Outcomes.{outcome_of};
ghost use Rattle.run_places.specs.Blocks.{IsSince};
ghost use Rattle.run_places.specs.Onward.{IsAfterStop, IsSealed};

use atomic_undo::Mark;
use run_choices::Raise;
use run_expressions::{Stop, World};
use run_outcomes::Outcome;
use sql_values::NoMemory;

/// What a statement does next.
#[derive(Drop)]
pub enum Onward {
    /// It raises an exception.
    Fails(Raise),
    /// It is at its end.
    Ends(Outcome),
}

/// What follows in a statement where an evaluation in it stopped: it raises what is raised, and ends
/// where no turn is left, which no handler takes.
pub fn after_stop(stop: Stop) -> Result<Onward, NoMemory>
    ensures { IsAfterStop stop result }
{
    match stop {
        Stop::Raised(raise) => Ok(Onward::Fails(raise)),
        Stop::Spent => Ok(Onward::Ends(Outcome::Spent)),
        Stop::NoMemory => Err(NoMemory),
    }
}

/// What follows where the statements of a compound statement have ended so. What an ATOMIC one
/// raises it raises as a whole, once its changes of tables are taken back; where it ends otherwise
/// they stay.
pub fn sealed(atomic: bool, mark: Mark, outcome: Outcome, world: &mut World) -> Onward
    requires { mark ≤ length world.old.book.entries }
    ensures { (start : Content) → IsSince mark start world.old →
        IsSealed atomic (outcome_of outcome) start world.old world.new result }
{
    match outcome {
        Outcome::Raising(raise) => {
            if atomic {
                world.roll_back(mark);
                return Onward::Fails(raise);
            }
            Onward::Ends(Outcome::Raising(raise))
        }
        other => Onward::Ends(other),
    }
}
