//! What is decided of cells and of rows: what words make of cells, whether a test keeps a row, what
//! the rows of a query inside an expression come to, and which condition is the first. Nothing here
//! goes over a plan or a scalar, and nothing calls itself.
#![tactic(auto)]

mod cells;
mod connectives;
mod finding;
mod firsts;
mod outer;
mod subqueries;
mod tests;

pub use cells::{
    Evaluated, any_of, arithmetic_cell, compared_cell, is_true, outcome_cell, part, remainder,
    unary_cell, unary_value,
};
pub use connectives::{SoFar, and_with, or_with};
pub use finding::{argument, column, own_cell};
pub use firsts::{Values, collect_values, take_value};
pub use outer::{add_or_nulls, add_where_true};
pub use subqueries::{among_cell, exists_cell, single_cell, subqueries_collapse};
pub use tests::{Tested, filtered};
