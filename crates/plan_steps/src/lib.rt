//! The steps of which plans of bodies are made: nodes that act at one code alone, over one row of
//! registers; what stands around a statement; and where a raised area goes.
#![tactic(auto)]

mod dispatch;
mod place;
mod sight;
mod step;
mod words;

pub use dispatch::{
    Aim, At, Reached, Spot, area_in, dispatched, judge, own_store, put_scope, raise, spot_of,
    store_if,
};
pub use place::{Marks, Place, code_at, column_at, in_action, label_code, names, with_columns};
pub use sight::{Scope, Sight, acts, handler_count, has_continue, seen_outside};
pub use step::{Store, columns_from, cut, go, grow_by, join, jump, nodes_over};
pub use words::{after, case_of, code_is, on_column, sum, tag};
