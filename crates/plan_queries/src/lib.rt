//! The plans of queries and of functions.
#![tactic(auto)]

ghost use Rattle.plan_queries.specs.Examples.{JoinsPlanned, GroupsPlanned};

mod asking;
mod conjuncts;
mod emit;
mod from;
mod functions;
mod joins;
mod plans;
mod selects;
mod values;

pub use asking::emit_folded;
pub use emit::emit_expr;
pub use functions::{plan_function, with_plan};
pub use plans::{plan_query, plan_within};

/// The plans of worked queries over joined tables, commas and derived tables (ISO/IEC 9075-2, 7.5
/// and 7.10), and in an order.
pub fn joins_planned()
    ensures { JoinsPlanned }
{}

/// The plans of worked queries over groups (7.13), with HAVING (7.14) and of aggregates alone.
pub fn groups_planned()
    ensures { GroupsPlanned }
{}
