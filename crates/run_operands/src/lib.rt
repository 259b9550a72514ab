//! Expressions whose values are there at once: literals, columns and variables, which are read
//! where they lie, and a word or an operator over these; and SET of such. No tree below them is run.
#![tactic(auto)]

mod done;
mod there;
mod values;

pub use done::done_at_once;
pub use values::at_once;
