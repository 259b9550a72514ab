//! Names of the direct SQL statements (ISO/IEC 9075-2, 22.1) that hold no statement of a routine,
//! and of functions that only return a value: whether each name stands for something, and the
//! statement with its names resolved.
#![tactic(auto, using(bind_faults::proofs::Laws::noted_append))]

mod bound;
mod call;
mod change;
mod definition;
mod query;
mod returning;

pub use bound::{Bound, BoundStatement};
pub use call::bind_direct_call;
pub use change::{bind_direct_delete, bind_direct_insert, bind_direct_update};
pub use definition::{bind_direct_drop, bind_direct_table, created, created_function};
pub use query::{bind_direct_query, bind_explain};
pub use returning::bind_returning;
