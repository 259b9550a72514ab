//! Declarations of compound statements, and the columns of FOR as variables: what they bring in
//! sight, with their names resolved.
#![tactic(auto, using(bind_faults::proofs::Laws::noted_append))]

ghost use Rattle.bind_declarations.specs.Examples.{DeclarationsStand};

mod declared;
mod handlers;
mod loops;

pub use declared::{
    Declared, declare_condition, declare_cursor, declare_variables, nothing_declared,
};
pub use handlers::{bind_values, handler_of};
pub use loops::{next_slot, scope_of_columns};

/// What declarations bring in sight, and what is asked of their names.
pub fn declarations_stand()
    ensures { DeclarationsStand }
{}
