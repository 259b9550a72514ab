//! What has a plan where blocks have plans is what the routines of the catalog run: a law, no code.
#![tactic(auto)]

ghost use Rattle.block_views.specs.Running.{SeenAsRun};

/// What has a plan where blocks have plans stands for the same tree in no routine.
pub fn seen_as_run()
    ensures { SeenAsRun }
{}
