//! Whether two bound queries are equal, and a bound query once more.
#![tactic(auto)]

mod copied;
mod leaves;
mod same;

pub use copied::copied_query;
pub use same::same_query;
