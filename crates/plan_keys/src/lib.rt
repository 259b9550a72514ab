//! Which rows of a table the Filters above a Scan can let through, by the table's key. The others
//! need not be read: the Filters leave them out, and none of them raises. The same by comparisons of
//! its columns with values, from wherever these come.
#![tactic(auto)]

mod bounds;
mod places;
mod reading;
mod sides;
mod terms;

pub use places::{Places, places_by, places_met};
pub use sides::turned;
pub use terms::Term;
