//! What is decided while expressions and queries are run row by row: which row a column is of, what
//! a subquery's rows come to, which result a CASE takes, and which unit is taken back. No tree, no
//! catalog and no table is known here.
#![tactic(auto)]

mod raise;
mod sight;
mod stop;
mod subqueries;
mod units;
mod values;

pub use raise::Raise;
pub use sight::{RowsInSight, column, under};
pub use stop::Stop;
pub use subqueries::{exists, member, single};
pub use units::is_taken_back;
pub use values::{among, assign_at, is_false, is_true, opposite, passes, value_at};
