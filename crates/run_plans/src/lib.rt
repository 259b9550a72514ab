//! Queries and calls that are answered by a kept plan: which plan is kept at a place, and how it is
//! run.
#![tactic(auto)]

mod calling;
mod choosing;
mod outside;
mod running;
mod sights;
mod widths;

pub use calling::{call_plan_for, run_call_plan};
pub use choosing::kept_for;
pub use running::run_kept;
