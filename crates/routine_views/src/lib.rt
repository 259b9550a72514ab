//! Which plain routine a routine of the catalog stands for: definitions and worked rows, no code.
#![tactic(auto)]

ghost use Rattle.routine_views.specs.Examples.{CallsAreSeen, CompoundsAreSeen, RoutinesAreSeen};

/// A call of the routine in which it stands is a call of itself, and any other holds the tree of
/// the routine that it calls.
pub fn calls_are_seen()
    ensures { CallsAreSeen }
{}

/// OPEN holds its cursor's query, and a handler its action.
pub fn compounds_are_seen()
    ensures { CompoundsAreSeen }
{}

/// A routine's calls are of those that were made before it.
pub fn routines_are_seen()
    ensures { RoutinesAreSeen }
{}
