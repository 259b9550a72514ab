//! Queries as statements hold them: with ORDER BY, a SELECT by its parts, and a query of a script
//! with its least fault.
#![tactic(auto, using(bind_faults::proofs::Laws::noted_append))]

mod order;
mod runs;
mod select_parts;

pub use order::{Asked, bind_ordered, bind_ordered_typed, bind_query};
pub use runs::all_run;
pub use select_parts::{SelectParts, bind_select_parts};
