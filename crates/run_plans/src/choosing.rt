//! Which plan is kept of a query at a place.

ghost use Rattle.std.specs.Prelude.{◌≡◌, IfSome};
ghost use Rattle.rel_algebra.specs.Joins.{table_width};
ghost use Rattle.rel_algebra.specs.Meaning.{answer};
ghost use Rattle.scanned_tables.specs.Scans.{AreWide};
ghost use Rattle.routine_views.specs.Views.{query_in};
ghost use Rattle.run_choices.specs.Sight.{seen};
ghost use Rattle.run_expressions.specs.Content.{world_of};
ghost use Rattle.run_places.specs.Places.{known_of, own_in, self_of};
ghost use Rattle.kept_queries.specs.Keeping.{IsKept};
ghost use Rattle.run_plans.specs.Ending.{kept_end};
ghost use Rattle.run_plans.specs.Sights.{sight_of};

use crate::sights::in_sight;
use crate::widths::are_wide;
use bound_trees::BoundQuery;
use kept_queries::{InSight, KeptQuery, kept_mean};
use rel_algebra::kept_tables_fit;
use run_expressions::{Frame, RowsInSight, World};
use run_places::Place;
use sql_values::NoMemory;
use std::alloc::Global;
use table_store::Tables;

/// A kept plan by which a query at a place ends: the plan has as many arguments as there are
/// variables, the rows in sight have as many values as those that it was made under, and each table
/// that it reads has as many columns as it has in the plan. What is missed is only slower.
pub fn kept_for<'a>(
    place: &Place<'a>,
    query: &BoundQuery,
    rows: &RowsInSight,
    frame: &Frame,
    world: &World,
) -> Option<&'a KeptQuery>
    ensures { IfSome result (λ k. answer (query_in (known_of place.now) query.now)
        (self_of place.now) (seen rows.now) frame.now (world_of world.now) ≡
        kept_end k.now (seen rows.now) frame.now (world_of world.now)) }
{
    kept_mean();
    kept_tables_fit();
    let stored = world.tables();
    let _rows = stored.len();
    match kept_under(
        world.allocator(),
        place,
        query,
        frame.variables().len(),
        rows,
    ) {
        Some(kept) => if_wide(kept, stored),
        None => None,
    }
}

// A kept query, where each table that its plan reads has as many columns as it has there.
fn if_wide<'a>(kept: &'a KeptQuery, tables: &Tables) -> Option<&'a KeptQuery>
    ensures same { IfSome result (λ k. k.now ≡ kept.now) }
    ensures wide { IfSome result (λ _. AreWide kept.now.tables (table_width tables.now.tables)) }
{
    if are_wide(kept.tables.as_slice(), tables) {
        return Some(kept);
    }
    None
}

// What is kept of a query over so many variables and under such rows. Without memory nothing is
// looked for.
fn kept_under<'a>(
    alloc: Global,
    place: &Place<'a>,
    query: &BoundQuery,
    variables: usize,
    rows: &RowsInSight,
) -> Option<&'a KeptQuery>
    ensures kept { IfSome result (λ k. IsKept place.now.catalog.now (own_in place.now.own) k.now) }
    ensures query { IfSome result (λ k. k.now.query ≡ query.now) }
    ensures sight { IfSome result (λ k. k.now.in_sight ≡ sight_of variables (seen rows.now)) }
{
    match in_sight(alloc, variables, rows) {
        Ok(sight) => kept_at(place, query, &sight),
        Err(NoMemory) => None,
    }
}

// What is kept of a query where so much is in sight, for the routine around a place, or for what is
// run outside of routines.
fn kept_at<'a>(place: &Place<'a>, query: &BoundQuery, sight: &InSight) -> Option<&'a KeptQuery>
    ensures kept { IfSome result (λ k. IsKept place.now.catalog.now (own_in place.now.own) k.now) }
    ensures query { IfSome result (λ k. k.now.query ≡ query.now) }
    ensures sight { IfSome result (λ k. k.now.in_sight ≡ sight.now) }
{
    match place.own {
        Some(own) => place.kept.find(Some(own.name), query, sight),
        None => place.kept.find(None, query, sight),
    }
}
