//! Worked rows of frames. The functions do nothing; their contracts are the rows.

ghost use Rattle.run_frames.specs.Examples.{BlocksLeave, ActionsHaveTheirOwn, CursorsMoveOn};

/// What a block declared leaves with it, and what it stored stays.
pub fn blocks_leave()
    ensures { BlocksLeave }
{}

/// A variable of an action and one that it doesn't see have the same slot; both keep their values.
pub fn actions_have_their_own()
    ensures { ActionsHaveTheirOwn }
{}

/// A cursor gives its rows in their order, and then none.
pub fn cursors_move_on()
    ensures { CursorsMoveOn }
{}
