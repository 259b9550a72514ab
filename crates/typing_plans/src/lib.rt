//! That well typed trees have well formed plans.
#![tactic(auto)]

mod plans;

pub use plans::{plans_worked, trees_kinded, trees_shaped, typed_plans_fit, typed_plans_kinded};
