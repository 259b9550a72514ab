//! Worked rows of what statements mean (`rel_algebra`), which hold by computation.
#![tactic(auto)]

ghost use Rattle.meaning_rows.specs.HandlerRows.{ContinueInFunction, InnermostThenNamed};
ghost use Rattle.meaning_rows.specs.HandlerRows.{EndsWithoutReturn, Resignals};
ghost use Rattle.meaning_rows.specs.HandlerRows.{ContinueInsideCompound, DefaultRaises};
ghost use Rattle.meaning_rows.specs.HandlerRows.{UnhandledIsDropped, ActionsHaveTheirOwn};
ghost use Rattle.meaning_rows.specs.HandlerRows.{ActionsSeeOutside, ActionsLeave};
ghost use Rattle.meaning_rows.specs.PlaceRows.{ContinuePlaces};
ghost use Rattle.meaning_rows.specs.AtomicRows.{UndoTakesBackFirst, AtomicBlockAndSignal};
ghost use Rattle.meaning_rows.specs.AtomicRows.{NoTurnLeft, UnitsTakeBack};
ghost use Rattle.meaning_rows.specs.LoopRows.{TurnsOfWhile, GivenBack, AllOrNoneStored};
ghost use Rattle.meaning_rows.specs.LoopRows.{SelfCallsTakeTurns, ProceduresCallThemselves};
ghost use Rattle.meaning_rows.specs.LoopRows.{NullOnNull, ValueAssignedAtCall, CaseNotFound};
ghost use Rattle.meaning_rows.specs.LoopRows.{IntoAndNotFound, LeaveAndIterate};
ghost use Rattle.meaning_rows.specs.CursorRows.{CursorSum, ForLoops, CursorStates};
ghost use Rattle.meaning_rows.specs.CursorRows.{StackedDiagnostics, CurrentDiagnostics};

/// CONTINUE goes on after the statement that raised: its action counts, and nothing is stored.
pub fn continue_in_function()
    ensures { ContinueInFunction }
{}

/// The innermost compound statement with a matching handler is taken; in it one that names the
/// state goes before a general one.
pub fn innermost_then_named()
    ensures { InnermostThenNamed }
{}

/// A function whose body comes to its end raises 2F005.
pub fn ends_without_return()
    ensures { EndsWithoutReturn }
{}

/// RESIGNAL raises the handled conditions again, with a new condition first or with another text
/// where these are written.
pub fn resignals()
    ensures { Resignals }
{}

/// CONTINUE goes on inside a compound statement that is not ATOMIC, and after one that is.
pub fn continue_inside_compound()
    ensures { ContinueInsideCompound }
{}

/// What a default raises, its compound statement raises as a whole: no handler of its own takes it.
pub fn default_raises()
    ensures { DefaultRaises }
{}

/// Warnings and no data that no handler takes are dropped; an exception is raised.
pub fn unhandled_is_dropped()
    ensures { UnhandledIsDropped }
{}

/// The variables of an action and those of the statement that raised have the same slots, and are
/// others.
pub fn actions_have_their_own()
    ensures { ActionsHaveTheirOwn }
{}

/// An action sees the handlers outside its compound statement alone.
pub fn actions_see_outside()
    ensures { ActionsSeeOutside }
{}

/// LEAVE in an action ends the compound statement around that the action names, wherever it was
/// raised.
pub fn actions_leave()
    ensures { ActionsLeave }
{}

/// Where CONTINUE goes on, for each kind of statement: for a test, a query of FOR or a RETURN after
/// the statement as a whole.
pub fn continue_places()
    ensures { ContinuePlaces }
{}

/// UNDO takes back what its compound statement did before its action runs; EXIT does not.
pub fn undo_takes_back_first()
    ensures { UndoTakesBackFirst }
{}

/// An ATOMIC compound statement that raises is undone, and raises as a whole; one that is left is
/// not undone.
pub fn atomic_block_and_signal()
    ensures { AtomicBlockAndSignal }
{}

/// No handler takes that no turn is left.
pub fn no_turn_left()
    ensures { NoTurnLeft }
{}

/// What an evaluation wrote is taken back where it raises, and what the statements before it wrote
/// stays.
pub fn units_take_back()
    ensures { UnitsTakeBack }
{}

/// A loop takes a turn at each start of its body.
pub fn turns_of_while()
    ensures { TurnsOfWhile }
{}

/// OUT and INOUT parameters give their values back, to a script and into variables.
pub fn given_back()
    ensures { GivenBack }
{}

/// All values that a CALL gives back are converted before one is stored, and none is after an
/// exception.
pub fn all_or_none_stored()
    ensures { AllOrNoneStored }
{}

/// A function that calls itself takes a turn at each activation, and raises at the twenty-fifth.
pub fn self_calls_take_turns()
    ensures { SelfCallsTakeTurns }
{}

/// The same of a procedure that calls itself.
pub fn procedures_call_themselves()
    ensures { ProceduresCallThemselves }
{}

/// With RETURNS NULL ON NULL INPUT the body is not run where an argument is NULL.
pub fn null_on_null()
    ensures { NullOnNull }
{}

/// The value of a function is assigned to the type of its result when its body has ended.
pub fn value_assigned_at_call()
    ensures { ValueAssignedAtCall }
{}

/// CASE without ELSE raises 20000 where no test is true.
pub fn case_not_found()
    ensures { CaseNotFound }
{}

/// SELECT INTO that meets no row raises 02000 and stores nothing.
pub fn into_and_not_found()
    ensures { IntoAndNotFound }
{}

/// LEAVE ends the loop or compound statement that it names; ITERATE starts the next run of its
/// body.
pub fn leave_and_iterate()
    ensures { LeaveAndIterate }
{}

/// A loop over a cursor, whose handler for no data ends it; a closed cursor cannot be closed.
pub fn cursor_sum()
    ensures { CursorSum }
{}

/// FOR runs its statements for each row of its query, whose rows are made at its start.
pub fn for_loops()
    ensures { ForLoops }
{}

/// OPEN, FETCH and CLOSE by the state of the cursor; it is closed as its compound statement ends.
pub fn cursor_states()
    ensures { CursorStates }
{}

/// GET STACKED DIAGNOSTICS and RESIGNAL read the conditions that the innermost action around their
/// text handles.
pub fn stacked_diagnostics()
    ensures { StackedDiagnostics }
{}

/// The current diagnostics after each statement, and ROW_COUNT.
pub fn current_diagnostics()
    ensures { CurrentDiagnostics }
{}
