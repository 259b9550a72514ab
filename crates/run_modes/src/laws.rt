//! Worked rows.

ghost use Rattle.run_modes.specs.Examples.{CallsAreSeen, QueriesAreAnswered};

/// A call is seen wherever an expression stands.
pub fn calls_are_seen()
    ensures { CallsAreSeen }
{}

/// Which queries are answered by their plans in each mode.
pub fn queries_are_answered()
    ensures { QueriesAreAnswered }
{}
