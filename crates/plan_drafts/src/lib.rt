//! Plans under way: what the plan of a query is made of, where no expression is emitted.
#![tactic(auto)]

mod chosen;
mod ends;
mod folds;
mod groups;
mod joins;
mod keys;
mod listing;
mod parameters;
mod rows;
mod tables;

pub use chosen::{add_row, closed_plan, empty_columns, numbered_draft};
pub use ends::{
    case_over, chained, column_read, guarded_call, literal, parameter_read, put_column,
};
pub use folds::{fold_over, is_folded};
pub use groups::group;
pub use joins::{
    Joined, PairTest, after_comma, begun, crossing, kept, outer, pair_columns, pair_test, whole,
};
pub use keys::{Key, Waiting, key_of};
pub use listing::{list, listed_plan, sorted};
pub use parameters::parameter_types;
pub use rows::{first_width, lists_plan, values_in};
pub use tables::{columns_of, draft_nothing, draft_table, settled, source_in};
