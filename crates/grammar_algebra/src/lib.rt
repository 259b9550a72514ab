//! Grammars over tokens, read with one token ahead.
#![tactic(auto)]

mod example;
mod fault;
mod input;
mod language;
mod stage;

pub use example::{reads_declarations, reads_example};
pub use fault::{ParseError, ParseFault};
pub use input::{Input, name_in, number_in, text_in};
pub use language::{Ending, Part, Staged, reads_part, reads_whole, stands_in_turn};
pub use stage::Stage;

/// How many constructs may be open at once in a statement.
pub const MOST_OPEN: u32 = 24;
