//! What expressions and queries are run in, and what stands at their ends: the world of tables and
//! turns, the frame, and what words make of values; and what a unit that stops leaves of the world.
//! What is decided by values alone is run_choices'. No tree is run here.
#![tactic(auto)]

mod units;
mod values;
mod world;

pub use run_choices::{
    Raise, RowsInSight, Stop, assign_at, column, exists, is_false, is_true, member, passes, single,
    under,
};
pub use run_frames::{Arguments, Frame};
pub use units::leave;
pub use values::operation_value;
pub use world::World;
