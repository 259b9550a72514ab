//! The rules by which statements and definitions are judged, each in a function of its own: names
//! that stand twice, keys, what DROP refuses, heights, labels, arguments, targets, handlers and
//! loops. No tree is bound here.
#![tactic(auto, using(bind_faults::proofs::Laws::noted_append))]

ghost use Rattle.bind_rules.specs.Examples.{HeightsEnd};

mod access;
mod arguments;
mod changes;
mod definitions;
mod drops;
mod handlers;
mod heights;
mod keys;
mod labels;
mod names;
mod structures;
mod targets;

pub use access::writes;
pub use arguments::{Wanted, is_in, note_given, note_value};
pub use changes::{inside_writing, note_assigned, note_where};
pub use definitions::result_of;
pub use drops::{is_function, is_procedure, is_table, note_removal};
pub use handlers::{note_twice, note_undo};
pub use heights::{MOST_HEIGHT, height_above, note_height};
pub use keys::{is_key, note_keys, takes_no_null};
pub use labels::{Label, Labelled, barred, entered, label_named, note_end, note_label};
pub use names::{add_place, copied, indexed, note_list, note_repeated, note_taken, places_in};
pub use structures::{kind_of_tests, loops};
pub use targets::{note_found, note_return, variable_of};

/// A routine has a height of 8 at most.
pub fn heights_end()
    ensures { HeightsEnd }
{}
