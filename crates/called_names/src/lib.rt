//! The names of the functions that are called, and which of them are reached.
#![tactic(auto)]

mod calls;
mod reaching;

pub use calls::{note_expr, note_query};
pub use reaching::reached;
