//! The parser of what holds expressions or queries, but no other statement: statements that store,
//! go over cursors, raise conditions or leave, and declarations of variables and cursors. It stands
//! over the parser of queries. Each function gives what the grammar's reader gives for its rule,
//! and where it fails leaves the input at the token that does not go on with what was read.
#![tactic(auto)]

mod calls;
mod conditions;
mod cursors;
mod declarations;
mod delete;
mod filter;
mod insert;
mod leaving;
mod parse;
mod queries;
mod simple;
mod targets;
mod update;

pub use calls::call;
pub use declarations::{named_cursor, named_declaration};
pub use parse::{parse_dml, parse_query};
pub use queries::{explain, for_query};
pub use simple::{begins_dml, dml, simple_statement};
