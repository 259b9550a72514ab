//! The text of plans, line by line, and how many of some nodes they have.
#![tactic(auto)]

mod condition_words;
mod counts;
mod lines;
mod lists;
mod nodes;
mod put;
mod reply;
mod scalars;
mod words;

pub use counts::{lookup_count, once_count};
pub use lines::put_plan;
pub use rel_algebra::apply_count;
pub use reply::plan_reply;
