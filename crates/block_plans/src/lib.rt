//! The plans of blocks, and which routine a call runs where blocks have plans.
#![tactic(auto)]

ghost use Rattle.block_plans.specs.Laws.{BareViews};

mod blocks;
mod functions;

pub use blocks::{BlockPlan, BlockPlans};
pub use functions::Functions;

/// Where no block has a plan, trees stand for what they stand for in the catalog.
pub fn bare_views()
    ensures { BareViews }
{}
