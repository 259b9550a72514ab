//! How a parser answers: what was read or why nothing was, with its place, the `;` after it, and how
//! many constructs may still be opened. It knows no tree.
#![tactic(auto)]

mod answers;

pub use answers::{answered, room_left, semicolon_after};
