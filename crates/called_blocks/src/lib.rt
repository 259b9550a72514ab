//! The plans of the blocks that a query calls, directly or in the bodies of others.
#![tactic(auto)]

mod making;
mod planning;

pub use planning::query_blocks;
