//! The plans of functions whose bodies are statements: each statement as steps over one row of
//! registers, each handler's action as steps where it acts.
#![tactic(auto)]

ghost use Rattle.plan_bodies.specs.Examples.{BlocksPlanned};

mod block;
mod emit;
mod inline;
mod known;

pub use block::plan_block;
pub use inline::inline_body;

/// The plan of RETURN alone is its expression's; that of a block around it is one Apply (ISO/IEC
/// 9075-2, 10.4): worked rows.
pub fn blocks_planned()
    ensures { BlocksPlanned }
{}
