//! The two modes, and what they choose for a query.

ghost use Rattle.std.specs.Prelude.{◌≡◌, true};
ghost use Rattle.run_modes.specs.Modes.{is_by_plan as is_answered_by_plan, mode_of as mode_said};

use crate::calls::calls_function;
use bound_trees::BoundQuery;

/// How the functions are run that a script's queries call.
#[derive(Clone, Copy, Debug, PartialEq, Eq)]
pub enum Mode {
    /// What a function means stands in the plan of the query that calls it.
    Inlining,
    /// A query that calls a function is answered row by row, and each body is run anew.
    Plain,
}

/// The mode of a run, by whether it is said to be plain.
pub fn mode_of(plain: bool) -> Mode
    ensures { result ≡ mode_said plain }
{
    if plain { Mode::Plain } else { Mode::Inlining }
}

/// Whether a query is answered by its plan, where it is said whether it has one. Takes no memory.
pub fn is_by_plan(mode: Mode, has_plan: bool, query: &BoundQuery) -> bool
    ensures exact { result ≡ is_answered_by_plan mode has_plan query.now }
    ensures has { result ≡ true → has_plan ≡ true }
{
    match mode {
        Mode::Inlining => has_plan,
        Mode::Plain => has_plan && !calls_function(query),
    }
}
