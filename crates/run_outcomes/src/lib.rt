//! How statements end, and which handler takes what they raise.
#![tactic(auto)]

mod choice;
mod ending;
mod law;
mod levels;
mod outcome;

pub use choice::{Chosen, Scope, choose, choose_here, with_scope};
pub use ending::{outs, returned};
pub use law::{bodies_end, handlers_are_chosen, labels_are_left};
pub use levels::{AfterBody, after_body, left, level_of};
pub use outcome::Outcome;
