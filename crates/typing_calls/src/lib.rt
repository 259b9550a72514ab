//! That what is well typed calls what stands around it.
#![tactic(auto)]

mod calling;

pub use calling::{bodies_typed, typed_calls_stand};
