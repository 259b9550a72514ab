//! Names of INSERT, UPDATE and DELETE: whether each stands for something, and the change with its
//! names resolved. A change is judged by what is in sight outside of it, at the top as in a
//! routine.
#![tactic(auto, using(bind_faults::proofs::Laws::noted_append))]

mod change;
mod insert;
mod target;

pub use change::{bind_delete, bind_update};
pub use insert::{ListedInsert, bind_insert};
