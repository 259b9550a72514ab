//! That bound trees stay well typed while other things are made and dropped.
#![tactic(auto)]

mod lasting;

pub use lasting::{
    bodies_outlast_others, dropping_leaves_typed, making_leaves_itself, making_leaves_typed,
    same_catalogs_decide, statements_use_names, unused_leaves_typed, used_names_decide,
};
