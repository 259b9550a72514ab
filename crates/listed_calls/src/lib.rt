//! That the heads of routines list what their bodies call.
#![tactic(auto)]

mod listed;

pub use listed::{calls_kept, calls_noted, new_routines_list};
