//! Effects: what a statement whose names are resolved does to the catalog and the tables, and what
//! it replies. Each is a function of its parts; no statement is read or bound here.
#![tactic(auto)]

mod alone;
mod change;
mod conclude;
mod creation;
mod drop;
mod explained;
mod law;
mod planned;
mod prepared;
mod run;
mod task;
mod world;

pub use creation::create;
pub use drop::drop_object;
pub use explained::explain_query;
pub use law::queries_without_plans;
pub use prepared::{Prepared, prepare_query, run_plan};
pub use run::{run_delete, run_insert, run_query, run_routine, run_update};
