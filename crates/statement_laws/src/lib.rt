//! How statements go on, step by step: the laws by which code that runs them is proved
//! (`rel_algebra` says what they mean).
#![tactic(auto)]

ghost use Rattle.statement_laws.specs.Calls.{ActivationsGoOn, BodiesGoOn, CallsGoOn};
ghost use Rattle.statement_laws.specs.Compounds.{CompoundGoesOn, ExitGoesOn, SealGoesOn};
ghost use Rattle.statement_laws.specs.Declarations.{DeclarationsGoOn};
ghost use Rattle.statement_laws.specs.Examples.{StatementsWorked};
ghost use Rattle.statement_laws.specs.InTurn.{BranchesGoOn, ElseGoesOn, GoesInTurn, ListGoesOn};
ghost use Rattle.statement_laws.specs.InTurn.{MatchingGoesOn};
ghost use Rattle.statement_laws.specs.Loops.{LoopTests, LoopsGoOn, RowsGoOn, RunsBody};
ghost use Rattle.statement_laws.specs.Passing.{ArgumentsGoOn};
ghost use Rattle.statement_laws.specs.Raising.{TakenAsChosen};
ghost use Rattle.statement_laws.specs.Values.{EvaluationsGoOn};

/// A statement goes on with what an evaluation gives, raises what it raises, and ends where no turn
/// is left.
#[tactic(auto, using(crate::proofs::Values::evaluations))]
pub fn evaluations_go_on()
    ensures { EvaluationsGoOn }
{}

/// Where a statement raises, the chosen handler acts; where none is chosen an exception is raised,
/// and another condition dropped.
#[tactic(auto, using(crate::proofs::Raising::taken_as_chosen))]
pub fn taken_as_chosen()
    ensures { TakenAsChosen }
{}

/// A statement is done where the one before it ends with Next, and only then.
#[tactic(auto, using(crate::proofs::InTurn::goes_in_turn))]
pub fn goes_in_turn()
    ensures { GoesInTurn }
{}

/// So are the statements of a list, from any one on.
#[tactic(auto, using(crate::proofs::InTurn::list_goes_on))]
pub fn list_goes_on()
    ensures { ListGoesOn }
{}

/// CASE without ELSE raises where no test is true.
#[tactic(auto, using(crate::proofs::InTurn::else_goes_on))]
pub fn else_goes_on()
    ensures { ElseGoesOn }
{}

/// Of branches the first whose test is true is done, and none after it is looked at.
#[tactic(auto, using(crate::proofs::InTurn::branches_go_on))]
pub fn branches_go_on()
    ensures { BranchesGoOn }
{}

/// With an operand the first whose value is equal is done.
#[tactic(auto, using(crate::proofs::InTurn::matching_goes_on))]
pub fn matching_goes_on()
    ensures { MatchingGoesOn }
{}

/// The test of a WHILE or a REPEAT goes on, ends the loop, or raises as the loop as a whole.
#[tactic(auto, using(crate::proofs::Loops::loop_tests))]
pub fn loop_tests()
    ensures { LoopTests }
{}

/// A run of a body takes a turn, and ends the loop at its level or doesn't.
#[tactic(auto, using(crate::proofs::Loops::runs_body))]
pub fn runs_body()
    ensures { RunsBody }
{}

/// What is left of a loop, before each run of its body, ends as the whole: told by some number
/// above the turns that are left.
#[tactic(auto, using(crate::proofs::Loops::loop_goes_on))]
pub fn loops_go_on()
    ensures { LoopsGoOn }
{}

/// FOR goes on from row to row, and what its body declares leaves.
#[tactic(auto, using(crate::proofs::Loops::rows_go_on))]
pub fn rows_go_on()
    ensures { RowsGoOn }
{}

/// Variables are declared one declaration after another; what a default raises ends it.
#[tactic(auto, using(crate::proofs::Declarations::declarations_go_on))]
pub fn declarations_go_on()
    ensures { DeclarationsGoOn }
{}

/// Arguments are evaluated, and assigned to their parameters, one after another.
#[tactic(auto, using(crate::proofs::Passing::arguments_go_on))]
pub fn arguments_go_on()
    ensures { ArgumentsGoOn }
{}

/// At the end of a statement list an EXIT or UNDO handler of its compound statement acts.
#[tactic(auto, using(crate::proofs::Compounds::exit_goes_on))]
pub fn exit_goes_on()
    ensures { ExitGoesOn }
{}

/// What an ATOMIC compound statement raises, it raises as a whole, and is undone.
#[tactic(auto, using(crate::proofs::Compounds::seal_goes_on))]
pub fn seal_goes_on()
    ensures { SealGoesOn }
{}

/// A compound statement ends by its declarations, its statements and its handlers, one after
/// another.
#[tactic(auto, using(crate::proofs::Compounds::compound_goes_on))]
pub fn compound_goes_on()
    ensures { CompoundGoesOn }
{}

/// CALL has three steps: its arguments, the procedure, and the values that come back.
#[tactic(auto, using(crate::proofs::Calls::call_goes_on))]
pub fn calls_go_on()
    ensures { CallsGoOn }
{}

/// A routine that calls itself takes a turn, and is one more active one while its body runs.
#[tactic(auto, using(crate::proofs::Calls::activations_go_on))]
pub fn activations_go_on()
    ensures { ActivationsGoOn }
{}

/// A call ends by how its body ends.
#[tactic(auto, using(crate::proofs::Calls::bodies_go_on))]
pub fn bodies_go_on()
    ensures { BodiesGoOn }
{}

/// Ends of worked statements.
#[tactic(auto, using(crate::proofs::Examples::statements_worked))]
pub fn statements_worked()
    ensures { StatementsWorked }
{}
