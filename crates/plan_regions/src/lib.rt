//! Plans that make one row of one row, by nodes that add cells and nodes that keep some of them:
//! the bodies of functions. Such a plan is read once, and then worked out for one outer row after
//! another.
#![tactic(auto)]

mod reading;
mod region;
mod values;
mod widths;

pub use reading::region_of;
pub use region::{Region, Step};
pub use values::region_value;
