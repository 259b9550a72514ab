//! Worked rows.

ghost use Rattle.typing_trees.specs.Examples.{ExpressionsHaveKinds, QueriesHaveKinds};
ghost use Rattle.typing_trees.specs.Examples.{StatementsAreTyped};

/// What is asked of the parts of an expression.
pub fn expressions_have_kinds()
    ensures { ExpressionsHaveKinds }
{}

/// Rows of VALUES, FROM with ON, groups and ORDER BY.
pub fn queries_have_kinds()
    ensures { QueriesHaveKinds }
{}

/// Targets, handlers, labels, cursors, arguments and defaults.
pub fn statements_are_typed()
    ensures { StatementsAreTyped }
{}
