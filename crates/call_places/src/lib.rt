//! In how many places of its text a query calls what has a plan, and what has none.
#![tactic(auto)]

mod calls;
mod laws;
mod places;

pub use calls::call_places;
pub use laws::places_are_counted;
pub use places::CallPlaces;
