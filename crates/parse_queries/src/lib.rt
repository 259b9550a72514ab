//! The parser of expressions and queries, by recursive descent: an expression holds queries, and a
//! query expressions. Each function gives what the grammar's reader gives for its rule, and where
//! it fails leaves the input at the token that does not go on with what was read.
#![tactic(auto)]

mod order;
mod parts;
mod queries;

pub use order::ordered_query;
pub use queries::{
    after, conditions, expr, from_clause, if_after, if_expr, query, select_list, table_expression,
};
