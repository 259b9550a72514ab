//! Levels: how many compound statements and loops are around what a label stands for.

ghost use Rattle.std.specs.Prelude.{◌≡◌, ◌-◌, suc};
ghost use Rattle.rel_algebra.specs.Doing.{Doing};
ghost use Rattle.rel_algebra.specs.Compounds.{left_or};
ghost use Rattle.rel_algebra.specs.Loops.{again_or};
ghost use Rattle.run_outcomes.specs.Outcomes.{outcome_of, follows};

use crate::Outcome;

/// What follows a run of a loop's body.
#[derive(Drop)]
pub enum AfterBody {
    /// What the loop does next.
    Again,
    /// The end of the loop.
    Ends(Outcome),
}

/// The level of a label that stands so many compound statements and loops outwards.
pub fn level_of(outwards: usize, level: usize) -> usize
    ensures { result ≡ level - suc outwards }
{
    if outwards < level {
        level - outwards - 1
    } else {
        0
    }
}

/// How a compound statement ends where its statements end so: LEAVE with its label ends it.
pub fn left(level: usize, outcome: Outcome) -> Outcome
    ensures { outcome_of result ≡ left_or level (outcome_of outcome) }
{
    match outcome {
        Outcome::Leaving(l) if l == level => Outcome::Next,
        other => other,
    }
}

/// What follows a run of the body of the loop at a level: ITERATE with its label goes on, and LEAVE
/// with its label ends it.
pub fn after_body(level: usize, outcome: Outcome) -> AfterBody
    ensures { (go : Doing) → again_or level (outcome_of outcome) go ≡ follows result go }
{
    match outcome {
        Outcome::Next => AfterBody::Again,
        Outcome::Iterating(l) if l == level => AfterBody::Again,
        Outcome::Leaving(l) if l == level => AfterBody::Ends(Outcome::Next),
        other => AfterBody::Ends(other),
    }
}
