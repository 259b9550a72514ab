//! Rows in groups by some of their columns, in which NULL equals NULL (ISO/IEC 9075-2, 7.13). The
//! groups stand in the order of their first rows, and a group is found by its key in a time that
//! doesn't grow with their number. Nothing here knows of plans.
#![tactic(auto)]

mod column_fold;
mod finished_group;
mod folding;
mod groups;
mod kept_rows;
mod law;

pub use finished_group::FinishedGroup;
pub use folding::Folding;
pub use groups::{Groups, build};
pub use law::foldings_are_of_groups;
