//! What is said of each statement of a script.

ghost use Rattle.psm_session.specs.Typed.{StatementsAreTyped};

/// A statement that is read of a script, and has no fault, is bound to a well typed one.
pub fn statements_are_typed()
    ensures { StatementsAreTyped }
{}
