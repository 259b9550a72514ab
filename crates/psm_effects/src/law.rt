//! The worked rows of what can be prepared. The function does nothing; its contract is the law.

ghost use Rattle.psm_effects.specs.Examples.{QueriesWithoutPlans};

/// A query that calls a function without a plan, a procedure, a table or nothing has no plan.
pub fn queries_without_plans()
    ensures { QueriesWithoutPlans }
{}
