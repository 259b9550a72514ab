//! The plans of the queries in bodies.
#![tactic(auto)]

mod blocks;
mod bodies;
mod calls;
mod columns;
mod expression_calls;
mod outermost;
mod routines;
mod statement_calls;
mod under_rows;

pub use bodies::keep_body;
pub use outermost::MOST_KEPT;
pub use routines::{Asking, keep_blocks, keep_called};
