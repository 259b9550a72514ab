//! Worked rows.

ghost use Rattle.routine_form.specs.Examples.{ExpressionsWeigh, StatementsWeigh};
ghost use Rattle.routine_form.specs.Examples.{CompoundStatementsWeigh};

/// What expressions call counts, each function as often as it is called.
pub fn expressions_weigh()
    ensures { ExpressionsWeigh }
{}

/// A statement counts itself, what it calls, and the handlers in sight.
pub fn statements_weigh()
    ensures { StatementsWeigh }
{}

/// Into an ATOMIC compound statement no handler outside it looks.
pub fn compound_statements_weigh()
    ensures { CompoundStatementsWeigh }
{}
