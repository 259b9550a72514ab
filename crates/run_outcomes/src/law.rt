//! Worked rows of outcomes and of the choice of handlers. The functions do nothing; their contracts
//! are the rows.

ghost use Rattle.run_outcomes.specs.Examples.{LabelsAreLeft, BodiesEnd, HandlersAreChosen};

/// LEAVE of an outer label ends all that stands in between.
pub fn labels_are_left()
    ensures { LabelsAreLeft }
{}

/// What functions and procedures give, by how their bodies end.
pub fn bodies_end()
    ensures { BodiesEnd }
{}

/// The innermost compound statement is taken, and in it a handler that names the state.
pub fn handlers_are_chosen()
    ensures { HandlersAreChosen }
{}
