//! How a script is run: which queries are answered by their plans, and which row by row.
#![tactic(auto, using(crate::proofs::Joined::calls_in_both))]

mod calls;
mod laws;
mod mode;

pub use calls::calls_function;
pub use laws::{calls_are_seen, queries_are_answered};
pub use mode::{Mode, is_by_plan, mode_of};
