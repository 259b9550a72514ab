//! What plans of expressions are made of: nodes over a plan in the making, scalars over these, the
//! places where names are read, and the plans of functions, which stand in the places of calls.
#![tactic(auto)]

mod asked;
mod assigning;
mod cases;
mod copied;
mod draft;
mod guards;
mod merge;
mod moved;
mod moved_plans;
mod scalars;
mod scope;
mod words;

pub use asked::{Asked, answered, ask};
pub use assigning::{assigned, assigned_at};
pub use cases::against;
pub use draft::Draft;
pub use guards::argument_checks;
pub use merge::merge_kept;
pub use scalars::{check, compare, guard, one, turned_scalars, two, unary};
pub use scope::{NameSources, Parameters, Place, Span, is_inner};
pub use words::{listed, word_over};
