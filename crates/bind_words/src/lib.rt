//! The bound trees of what has operands alone: words, chains, the argument of an aggregate, and the
//! conjuncts of a test. No name is sought here, and no kind is asked for.
#![tactic(auto)]

mod argument;
mod conjunction;
mod words;

pub use argument::argument_of;
pub use conjunction::conjuncts;
pub use words::{chain_of, missing, opposite, over, tree_of, value_of};
