//! The parts of the parser that hold no expression themselves: words, signs, names, types, lists
//! with commas, and the parts of queries beside their expressions. Each function that reads gives
//! what the grammar's reader gives for its rule, and where it fails leaves the input at the token
//! that does not go on with what was read.
#![tactic(auto)]

mod begins;
mod commas;
mod names;
mod order;
mod place;
mod queries;
mod types;
mod words;

pub use begins::{
    begins_expr, begins_more, begins_predicate_part, begins_query, begins_when_clause,
};
pub use commas::{ListItem, comma_list};
pub use names::{alias, bracketed_names, column_list, column_names, idents, if_alias};
pub use order::order_by;
pub use place::{anchor, anchor_in, choice, ident};
pub use queries::{begins_from_item, group_by, naming, select_word, values_word};
pub use types::data_type;
pub use words::{
    as_type, begins_compared, begins_link, begins_literal, comparison_sign, dotted, function_word,
    if_not, if_sign, in_word, is_all_rows, is_lone_literal, literal, operator, tested, word_of,
};
