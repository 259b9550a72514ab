//! How heavy a routine's body is: what a plan that stands in its place would hold.
#![tactic(auto, using(crate::proofs::Sums::add_alone, crate::proofs::Sums::add_further))]

mod calls;
mod laws;
mod sum;
mod weighing;

pub use laws::{compound_statements_weigh, expressions_weigh, statements_weigh};
pub use sum::HEAVIEST;
pub use weighing::{weight, weight_of_return};
