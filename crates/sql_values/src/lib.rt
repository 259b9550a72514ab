//! The values of SQL: types, whole numbers, texts and truth values with NULL, and the operations on
//! them.
#![tactic(auto)]

mod arithmetic;
mod casts;
mod extremes;
mod fold;
mod law;
mod operators;
mod spellings;
mod texts;
mod value;

pub use arithmetic::{add, cmp, div, modulo, mul, neg, sub};
pub use casts::{assign, cast};
pub use fold::{Fold, FoldKind};
pub use law::{folds_are_of_lists, reads_what_is_spelled};
pub use operators::{Comparison, Operator};
pub use sql_texts::{MOST_TEXT, Name, NoMemory, Text};
pub use texts::{char_length, concat, substring};
pub use value::{SqlType, Value, ValueFault};
