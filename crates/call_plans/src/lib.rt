//! Plans of single calls of functions.
#![tactic(auto)]

mod calls;
mod nodes;

pub use calls::{CallPlan, call_plan, calls_mean};
