//! The rows of a table that the first conjuncts of a SELECT can let through, by the table's key. The
//! others need not be read: one of these conjuncts leaves them out, and none of them raises, writes
//! or takes a turn.
#![tactic(auto)]

mod met;
mod terms;

pub use met::met_rows;
