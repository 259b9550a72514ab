//! Units that stop.

ghost use Rattle.std.specs.Prelude.{◌≡◌};
ghost use Rattle.run_choices.specs.Units.{is_taken_back as taken_back_by};

use crate::Stop;

/// Whether a unit that stops is taken back alone: where it raises an exception, or finds no memory.
/// Where no turn is left the whole statement is taken back instead.
pub fn is_taken_back(stop: &Stop) -> bool
    ensures { result ≡ taken_back_by stop.now }
{
    match stop {
        Stop::Raised(raise) => raise.state().is_exception(),
        Stop::Spent => false,
        Stop::NoMemory => true,
    }
}
