//! Whether bound queries and expressions have plans.
#![tactic(auto)]

mod planned;

pub use planned::{callee_planned, is_planned, is_planned_expr};
