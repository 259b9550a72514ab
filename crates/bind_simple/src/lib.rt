//! Names of the statements of routines and blocks that hold no statement: where a statement stands,
//! and what each such statement stands for there, with its names resolved.
#![tactic(auto, using(bind_faults::proofs::Laws::noted_append))]

ghost use Rattle.bind_simple.specs.Examples.{StatementsStand};

mod anchors;
mod arguments;
mod call;
mod diagnostics;
mod place;
mod signals;
mod simple;
mod state;
mod storing;
mod target;

pub use anchors::{anchor_of_column, anchor_of_query};
pub use call::bind_call;
pub use place::{Surroundings, seen_from, with_labels, with_scopes};
pub use signals::{bind_resignal, bind_signal};
pub use simple::{
    bind_changed, bind_close, bind_fetched, bind_get, bind_insertion, bind_iterate, bind_leave,
    bind_open, bind_removed, bind_return, misplaced,
};
pub use state::{note_condition, note_state, state_named, state_of};
pub use storing::{Assigned, SelectedInto, bind_select_into, bind_set};
pub use target::{bind_of_kind, bind_value};

/// What labels, targets, cursors, conditions and calls stand for by where a statement stands.
pub fn statements_stand()
    ensures { StatementsStand }
{}
