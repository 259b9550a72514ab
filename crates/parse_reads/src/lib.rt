//! What comes of what was read, or of why it was not: each function here takes the answer of one
//! that read, and gives what the grammar's reader makes of it. So a parser gives up no tree by its
//! own type where a later part is refused. No function here reads but a token after what was read.
#![tactic(auto)]

mod expressions;
mod parts;

pub use expressions::{
    aggregate_read, cases_read, cast_read, chain_read, char_length_read, compared_read,
    exists_read, modulo_read, prefixed_read, subquery_read,
};
pub use parts::{appended, begun_read, closed, pair_read, paired, put};
