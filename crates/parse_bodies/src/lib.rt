//! The parser of statements of routines and of what holds them, by recursive descent, over those of
//! queries and of statements that hold none. Each function gives what the grammar's reader gives for
//! its rule, and where it fails leaves the input at the token that does not go on with what was
//! read.
#![tactic(auto)]

mod begins;
mod statements;

pub use statements::{labelled_of, stmt, structure};
