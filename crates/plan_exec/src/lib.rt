//! Plans, run: the rows of a plan over the tables, within its work.
#![tactic(auto)]

mod collapse;
mod collecting;
mod into;
mod opened;
mod outer;
mod region_rows;
mod running;
mod settling;
mod taking;

pub use collecting::{Answer, collect};
pub use plan_rows::{Values, collect_values};
pub use running::{execute, execute_under};
