//! The nodes that parsers make of the parts that they read, and what they decide beside reading:
//! what holds where nothing is written. No function here reads a part of an expression, a query or a
//! statement.
#![tactic(auto)]

mod defaults;
mod expressions;
mod lists;
mod queries;
mod statements;

pub use defaults::{area_or_current, mode_or_in, next_stage};
pub use expressions::{
    applied, calls, cast_of, cast_to, chained, column_name_of, exists_of, is_or_not, predicate_of,
    prefixed, qualified, subquery, substring_of, unqualified,
};
pub use lists::{begun, ended_by, if_one, only, pair, with_first};
pub use queries::{derived, inner_joined, left_joined, selected};
pub use statements::{case_of, fetch_of, if_of, insert_of, selected_into, update_of, variables_of};
