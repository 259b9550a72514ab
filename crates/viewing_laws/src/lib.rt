//! Laws on which plain routine each name of a catalog stands for.
#![tactic(auto)]

mod viewing;

pub use viewing::{
    adding_leaves_views, bodies_call, dropping_leaves_views, heads_suffice, names_worked,
    planned_views, plans_worked, routine_is, views_decided,
};
