//! Places: what stands around an expression or a statement of a routine while it runs, and what of
//! it the meaning speaks. No tree is run here.
#![tactic(auto)]

mod callee;
mod further;
mod getting;
mod onward;
mod own;
mod parts;
mod passing;
mod place;
mod raised;
mod selecting;
mod starting;
mod starts;
mod texts;
mod widths;

pub use callee::{Callee, named, procedure_named};
pub use further::{in_action, inside, outermost, seen_outside, with_cursors, within};
pub use getting::{get, number_of};
pub use onward::{Onward, after_stop, sealed};
pub use own::{
    SelfCall, any_null, own_modes, own_named, own_parameters, own_procedure, refused, self_call,
};
pub use parts::{item_source, values_in};
pub use passing::{store, taken, variables_of, with_passed};
pub use place::{Own, Place, RoutineBody};
pub use raised::{back_if, come_back, goes_on_after, show, takes_back, turns, untaken};
pub use run_outcomes::Scope;
pub use selecting::one_row;
pub use starting::start;
pub use starts::{in_no_routine, in_routine};
pub use texts::{again, message_of, text_of};
pub use widths::source_width;
