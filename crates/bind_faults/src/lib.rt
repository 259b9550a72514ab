//! Name faults: their kinds, where they stand, and which of several is answered.
#![tactic(auto)]

ghost use Rattle.std.specs.Prelude.{◌≡◌};
ghost use Rattle.bind_faults.specs.Least.{LeastStandsFirst, NoneIsLeastOfNone, KindsStandInOrder};

mod fault;
mod least;
mod notes;

pub use fault::{Fault, FaultKind};
pub use least::{merge, note, note_if};
pub use notes::Notes;

/// The least fault is one of the faults, and none stands before it, by place and then kind.
pub fn least_stands_first()
    ensures { LeastStandsFirst }
{}

/// There is no least fault exactly where there is no fault.
#[tactic(auto, using(crate::proofs::Sooner::is_free))]
pub fn none_is_least_of_none()
    ensures { NoneIsLeastOfNone }
{}

/// At one place the kinds decide in their order, and an earlier place decides before them.
pub fn kinds_stand_in_order()
    ensures { KindsStandInOrder }
{}
