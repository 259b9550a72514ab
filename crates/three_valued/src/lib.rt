//! Three-valued logic: AND, OR and NOT over TRUE, FALSE and UNKNOWN.
#![tactic(auto)]

mod truth;

pub use truth::{Truth, and, not, or};
