//! What is done around the actions of handlers (ISO/IEC 9075-4, 14.2) and the runs of loops, where
//! nothing is run.

ghost use Rattle.std.specs.Prelude.{◌≡◌, ◌≤◌, length, true, false, IfOk, OnOk, Ok, Err};
ghost use Rattle.rel_algebra.specs.Doing.{ends, with_diagnostics};
ghost use Rattle.rel_algebra.specs.World.{turn};
ghost use Rattle.run_choices.specs.declared.stop.Stop.TheVariants.{Spent};
ghost use Rattle.run_expressions.specs.Content.{Stays, world_of};
ghost use Rattle.run_expressions.specs.Ending.{Ended};
ghost use Rattle.run_expressions.specs.Units.{IsBackIf};
ghost use Rattle.run_frames.specs.Frames.{with_kept};
ghost use Rattle.run_outcomes.specs.Outcomes.{outcome_of};
ghost use Rattle.run_places.specs.Acting.{stays_after, undoes_by, untaken_by};

use atomic_undo::Mark;
use bound_trees::BoundHandlerType;
use run_choices::Raise;
use run_expressions::{Stop, World};
use run_frames::{Aside, Frame};
use run_outcomes::Outcome;
use sql_values::NoMemory;

/// A statement raises: its conditions, which are handed out, are the current ones too. Both share
/// their area.
pub fn show(raise: Raise, frame: &mut Frame) -> Result<Raise, NoMemory>
    ensures same { IfOk result (λ r. r ≡ raise) }
    ensures shown { OnOk result (frame.new ≡ with_diagnostics raise 0 frame.old) }
{
    match raise.copied() {
        Ok(copy) => {
            frame.set_diagnostics(copy, 0);
            Ok(raise)
        }
        Err(NoMemory) => Err(NoMemory),
    }
}

/// Whether the statement after one that raised is next where a handler of this kind has acted.
pub fn goes_on_after(handler_type: BoundHandlerType) -> bool
    ensures { result ≡ stays_after handler_type }
{
    match handler_type {
        BoundHandlerType::Continue => true,
        BoundHandlerType::Exit => false,
        BoundHandlerType::Undo => false,
    }
}

/// Whether a handler of this kind takes back what was changed since the start of its compound
/// statement.
pub fn takes_back(handler_type: BoundHandlerType) -> bool
    ensures { result ≡ undoes_by handler_type }
{
    match handler_type {
        BoundHandlerType::Exit | BoundHandlerType::Continue => false,
        BoundHandlerType::Undo => true,
    }
}

/// What no handler takes is raised, or dropped.
pub fn untaken(raised: bool, raise: Raise) -> Outcome
    ensures { ends (outcome_of result) ≡ untaken_by raised raise }
{
    if raised {
        return Outcome::Raising(raise);
    }
    Outcome::Next
}

/// What was kept aside while an action ran comes back, where it has ended so.
pub fn come_back(kept: Aside, outcome: Outcome, frame: &mut Frame) -> Result<Outcome, NoMemory>
    ensures same { IfOk result (λ o. o ≡ outcome) }
    ensures kept { OnOk result (frame.new ≡ with_kept kept frame.old) }
{
    match frame.bring_back(kept) {
        Ok(()) => Ok(outcome),
        Err(NoMemory) => Err(NoMemory),
    }
}

/// Takes one turn. Where none is left it says so, and nothing changes.
#[tactic(auto, using(run_expressions::proofs::Laws::turn_ends))]
pub fn turns(world: &mut World) -> Result<bool, NoMemory>
    ensures taken { result ≡ Ok true →
        Ended world.old world.new (Ok tt) (turn (world_of world.old)) }
    ensures spent { result ≡ Ok false →
        Ended {A = Unit {0}} world.old world.new (Err Spent) (turn (world_of world.old)) }
    ensures kept { Stays world.old world.new }
{
    match world.take_turn() {
        Ok(()) => Ok(true),
        Err(Stop::Spent) => Ok(false),
        Err(Stop::Raised(_)) => Err(NoMemory),
        Err(Stop::NoMemory) => Err(NoMemory),
    }
}

/// Takes the changes of tables since a mark back, or nothing.
pub fn back_if(undone: bool, mark: Mark, world: &mut World)
    requires { mark ≤ length world.old.book.entries }
    ensures { IsBackIf undone mark world.old world.new }
{
    if undone {
        world.roll_back(mark);
    }
}
