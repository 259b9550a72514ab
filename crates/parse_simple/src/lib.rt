//! The parts of statements that hold no expression, no query and no other statement: definitions of
//! tables, parameters and characteristics of routines, DROP, labels, what handlers wait for, what
//! SIGNAL raises, and GET DIAGNOSTICS. Each function gives what the grammar's reader gives for its
//! rule, and where it fails leaves the input at the token that does not go on with what was read.
#![tactic(auto)]

mod conditions;
mod create;
mod declarations;
mod diagnostics;
mod drop;
mod labels;
mod routines;

pub use conditions::{if_signal_value, signal_value};
pub use create::{create_table, create_word};
pub use declarations::{atomic, begins_variables, condition, handled, handler_type, more_names};
pub use diagnostics::get_diagnostics;
pub use drop::drop_object;
pub use labels::{end_label, if_label};
pub use routines::{
    bracketed_modal_parameters, bracketed_parameters, characteristics, returns_type,
};
