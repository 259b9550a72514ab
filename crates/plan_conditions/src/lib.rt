//! Words that read a cell which may be a condition, and the cells of SELECT INTO: what handlers,
//! SIGNAL, RESIGNAL and GET DIAGNOSTICS do, as words of plans. Nothing here goes over a plan or a
//! scalar, and nothing calls itself.
#![tactic(auto)]

mod asked;
mod handled;
mod into;
mod raised;
mod word;

pub use asked::{class_cell, item_cell, number_cell};
pub use handled::matches_cell;
pub use into::{into_cells, into_collapses, raised_cells};
pub use raised::{push_cell, retext_cell};
pub use word::{word_cell, word_of_one, word_of_two};
