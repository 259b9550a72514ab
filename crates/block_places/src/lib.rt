//! What queries that call blocks stand for where they stand.
#![tactic(auto)]

ghost use Rattle.block_places.specs.Seen.{SeenInPlace};

/// What has a plan where blocks have plans is the same tree by the views of the catalog's routines,
/// outside of routines and in one that no call runs.
pub fn seen_in_place()
    ensures { SeenInPlace }
{}
