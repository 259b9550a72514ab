//! Nodes that act row by row: each row goes through a stretch of them before the next one is read,
//! and is received as a row of a list or folded into a group. Nothing here runs an inner plan.
#![tactic(auto)]

mod ends;
mod groups;
mod inner;
mod joined;
mod last;
mod leaves;
mod lists;
mod moved_pairs;
mod pairs;
mod pass;
mod received;
mod scratch;
mod sides;
mod stretches;

pub use ends::{sorted_passed, values_passed};
pub use groups::grouped_passed;
pub use inner::inner_pairs;
pub use last::{Last, Way};
pub use leaves::{add_passed, leaf_passed};
pub use received::{Received, Wanted};
pub use scratch::Scratch;
pub use sides::{Sides, sides_passed};
pub use stretches::stretch_len;
