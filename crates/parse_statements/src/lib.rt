//! The parser of whole statements of a script and of definitions, by recursive descent, over those
//! of queries and of statements of routines. Each function gives what the grammar's reader gives for
//! its rule, and where it fails leaves the input at the token that does not go on with what was
//! read.
#![tactic(auto)]

mod begins;
mod parse;
mod routines;
mod script;

pub use parse::{parse_ddl, parse_statement};
