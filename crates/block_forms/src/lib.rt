//! Which functions whose bodies are blocks may have plans.
#![tactic(auto)]

mod filled;
mod forms;
mod laws;

pub use forms::may_be_planned;
pub use laws::forms_are_planned;
