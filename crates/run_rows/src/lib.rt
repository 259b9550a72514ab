//! Rows and lists of rows, made where no tree is run: rows side by side, rows as groups give them,
//! rows as a table can hold them and stored in it; and what stands in a query, read.
#![tactic(auto)]

mod following;
mod from;
mod groups;
mod joins;
mod parts;
mod rows;
mod storing;
mod widths;

pub use following::{
    applied, assigned, exists_of, finished, kept, member_of, ordered, single_of, some_row,
    value_of, with_argument, with_found, with_itself, with_kept, with_parts, with_row, with_rows,
    with_value,
};
pub use from::{JoinedRows, closed, crossed, past_comma, table_rows};
pub use groups::{group_row, no_rows};
pub use joins::pair;
pub use parts::{item_source, values_in};
pub use rows::{cut, row_values, rows_for};
pub use storing::{in_vec, store_counted, store_rows};
pub use widths::source_width;
