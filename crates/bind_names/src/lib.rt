//! What a name stands for in sight, what its use asks by itself, and what is in sight further
//! inside. Nothing is owned here and no tree is made.
#![tactic(auto, using(bind_faults::proofs::Laws::noted_append))]

mod asked;
mod calls;
mod columns;
mod groups;
mod hits;
mod items;
mod levels;
mod scopes;

pub use asked::{Join, keeps_unmatched, note_table, note_width};
pub use calls::{function_in_sight, function_named, note_call};
pub use columns::stands_for;
pub use groups::column_of;
pub use hits::place_in_row;
pub use items::any_named;
pub use levels::{at_levels, may_stand, ungrouped, without_aggregates};
pub use scopes::{condition_named, cursor_named, variable_named};
