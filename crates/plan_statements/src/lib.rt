//! The steps of statements of one step, of tests, and of the parts of compound statements.
#![tactic(auto)]

mod choices;
mod compound;
mod simple;
mod storing;

pub use choices::{put_operand, put_test};
pub use compound::{
    BlockCodes, block_codes, declare, declared_width, exits_of, free_after, has_default, null_of,
    out_of, put_ending, put_sealed, scope_of, with_marks,
};
pub use simple::{emit_value, pushing, put_engine, put_resignal, put_return, put_set, put_signal};
pub use storing::{put_get, put_into};
