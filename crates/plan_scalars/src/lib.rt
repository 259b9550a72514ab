//! What a scalar is on a row: one call, which runs no routine and knows nothing of plans.
#![tactic(auto)]

mod places;
mod scalars;

pub use places::value_in_place;
pub use plan_rows::{is_true, outcome_cell, own_cell};
pub use scalars::{eval, eval_on};
