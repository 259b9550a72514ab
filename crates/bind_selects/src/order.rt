//! ORDER BY (ISO/IEC 9075-2, 10.10 and 14.3), and the public call for a query.

ghost use Rattle.std.specs.Prelude.{◌≡◌, true, [], IfOk, OnOk};
ghost use Rattle.bind_faults.specs.Faults.{noted, taken};
ghost use Rattle.bind_sight.specs.Sight.{seen_by, over_catalog};
ghost use Rattle.bind_queries.specs.Binds.{Binds, HasPlan};
ghost use Rattle.bind_queries.specs.Order as spec;
ghost use Rattle.bind_queries.specs.Queries.{judge_query};
ghost use Rattle.bind_queries.specs.Runs.{IsNew};
ghost use Rattle.bind_selects.specs.Asked.{asked, IsTypedIn};

use crate::runs::all_run;
use bind_faults::{Fault, Notes};
use bind_parts::{NameFault, TypedQuery, ordered_by};
use bind_queries::bind_typed;
use bind_sight::Sight;
use bound_trees::BoundQuery;
use catalog_store::Catalog;
use sql_values::NoMemory;
use std::alloc::Global;
use syntax_trees::{OrderedQuery, Query};

/// A query with its ORDER BY, its columns and its names resolved, and what is noted on the way.
pub fn bind_ordered_typed(
    alloc: Global,
    ordered: &OrderedQuery,
    outside: &Sight<'_>,
    notes: &mut Notes,
) -> Result<TypedQuery, NoMemory>
    ensures value { IfOk result (λ q. q ≡ (spec.judge_ordered_typed ordered.now (seen_by outside.now)).value) }
    ensures notes { OnOk result (notes.new ≡ taken notes.old
        (spec.judge_ordered_typed ordered.now (seen_by outside.now))) }
{
    let query = bind_typed(alloc, &ordered.query, &[], outside, notes)?;
    ordered_by(alloc, ordered.order.as_slice(), query, notes)
}

/// A query with its ORDER BY, its names resolved, and what is noted on the way.
pub fn bind_ordered(
    alloc: Global,
    ordered: &OrderedQuery,
    outside: &Sight<'_>,
    notes: &mut Notes,
) -> Result<BoundQuery, NoMemory>
    ensures value { IfOk result (λ q. q ≡ (spec.judge_ordered ordered.now (seen_by outside.now)).value) }
    ensures notes { OnOk result (notes.new ≡ taken notes.old
        (spec.judge_ordered ordered.now (seen_by outside.now))) }
{
    let query = bind_ordered_typed(alloc, ordered, outside, notes)?;
    Ok(query.tree)
}

/// A bound query, and whether it can be run: whether all functions that it calls have plans.
#[derive(Drop)]
pub struct Asked {
    pub query: BoundQuery,
    pub runs: bool,
}

// A query, and the least fault in it.
fn bind_top(
    alloc: Global,
    query: &Query,
    sight: &Sight<'_>,
    catalog: &Catalog,
    least: &mut Option<Fault>,
) -> Result<Asked, NoMemory>
    ensures value { IfOk result
        (λ a. a ≡ (asked catalog.now
        (judge_query [] query.now (over_catalog catalog.now (seen_by sight.now)))).value) }
    ensures faults { OnOk result (least.new ≡ noted least.old
        (judge_query [] query.now (over_catalog catalog.now (seen_by sight.now))).faults) }
{
    let sight = Sight {
        levels: sight.levels,
        scopes: sight.scopes,
        catalog,
        own: sight.own,
        writing: sight.writing,
    };
    let mut notes = Notes::after(alloc, *least);
    let bound = bind_typed(alloc, query, &[], &sight, &mut notes)?;
    *least = notes.least;
    let runs = all_run(notes.uses.as_slice(), catalog);
    Ok(Asked {
        query: bound.tree,
        runs,
    })
}

/// A query with its names resolved, by what is in sight outside of it and the catalog, and whether
/// it can be run. Fault: exactly where it has a fault, and then the least, by place and then kind.
/// What can be run has a plan, where the routine in whose body it stands, if any, is new. It is well
/// typed in all that has what is in sight.
#[tactic(auto, using(bind_faults::proofs::Laws::is_free))]
pub fn bind_query(
    alloc: Global,
    query: &Query,
    sight: &Sight<'_>,
    catalog: &Catalog,
) -> Result<Asked, NameFault>
    ensures binds { Binds (asked catalog.now
        (judge_query [] query.now (over_catalog catalog.now (seen_by sight.now)))) result }
    ensures fits { IfOk result (λ a. IsNew catalog.now (seen_by sight.now).own → a.runs ≡ true →
        HasPlan catalog.now a.query) }
    ensures typed { IfOk result (λ a. IsTypedIn (over_catalog catalog.now (seen_by sight.now))
        a.query) }
{
    let _entries = catalog.len();
    let mut least = None;
    let bound = bind_top(alloc, query, sight, catalog, &mut least)?;
    match least {
        None => Ok(bound),
        Some(fault) => Err(NameFault::Fault(fault)),
    }
}
