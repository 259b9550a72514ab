//! Types of bound trees: when an expression, a query and a statement are well typed.
#![tactic(auto)]

mod law;

pub use law::{expressions_have_kinds, queries_have_kinds, statements_are_typed};
