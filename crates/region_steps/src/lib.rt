//! One row on its way through Extend and Keep nodes, in memory that is used again: where it stays
//! as it is nothing is worked out, and cells that stay where they are aren't copied.
#![tactic(auto)]

mod choices;
mod guards;
mod idle;
mod keeping;
mod kept;
mod registers;
mod truths;

pub use choices::{cell_here, chosen};
pub use idle::{Idle, idle_of};
pub use registers::Registers;
pub use truths::truth_in_place;
