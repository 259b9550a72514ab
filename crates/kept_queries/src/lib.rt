//! Queries with their plans, by where they stand.
#![tactic(auto)]

mod around;
mod keeping;
mod plans;
mod sight;

pub use around::Around;
pub use keeping::{KeptQuery, find, keep, kept_last, kept_mean};
pub use plans::KeptPlans;
pub use sight::InSight;
