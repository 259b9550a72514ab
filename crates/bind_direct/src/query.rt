//! Queries and EXPLAIN (ISO/IEC 9075-2, 22.2).

ghost use Rattle.std.specs.Prelude.{◌≡◌, IfOk, OnOk};
ghost use Rattle.bind_faults.specs.Faults.{noted};
ghost use Rattle.bind_sight.specs.Sight.{at_top};
ghost use Rattle.bind_queries.specs.Order.{judge_ordered};
ghost use Rattle.bind_direct.specs.Direct as spec;

use crate::bound::{Bound, BoundStatement};
use bind_faults::{Fault, Notes};
use bind_selects::{Asked, all_run, bind_ordered};
use bind_sight::Sight;
use catalog_store::Catalog;
use sql_values::NoMemory;
use std::alloc::Global;
use syntax_trees::OrderedQuery;

// A query outside of which no name is in sight but those of the catalog.
fn bind_asked(
    alloc: Global,
    ordered: &OrderedQuery,
    catalog: &Catalog,
    least: &mut Option<Fault>,
) -> Result<Asked, NoMemory>
    ensures value { IfOk result (λ a. a.query ≡ (judge_ordered ordered.now (at_top catalog.now)).value) }
    ensures runs { IfOk result (λ a. a.runs ≡ spec.runs_over catalog.now
        (judge_ordered ordered.now (at_top catalog.now))) }
    ensures faults { OnOk result (least.new ≡ noted least.old
        (judge_ordered ordered.now (at_top catalog.now)).faults) }
{
    let sight = Sight {
        levels: &[],
        scopes: &[],
        catalog,
        own: &None,
        writing: false,
    };
    let mut notes = Notes::after(alloc, *least);
    let query = bind_ordered(alloc, ordered, &sight, &mut notes)?;
    *least = notes.least;
    let runs = all_run(notes.uses.as_slice(), catalog);
    Ok(Asked { query, runs })
}

/// A direct query.
pub fn bind_direct_query(
    alloc: Global,
    query: &OrderedQuery,
    catalog: &Catalog,
    least: &mut Option<Fault>,
) -> Result<BoundStatement, NoMemory>
    ensures value { IfOk result (λ b. b ≡ (spec.direct_query query.now catalog.now).value) }
    ensures faults { OnOk result (least.new ≡ noted least.old
        (spec.direct_query query.now catalog.now).faults) }
{
    let asked = bind_asked(alloc, query, catalog, least)?;
    Ok(BoundStatement {
        bound: Bound::Query(asked.query),
        by_plan: asked.runs,
    })
}

/// EXPLAIN of a query, which is bound alone.
pub fn bind_explain(
    alloc: Global,
    query: &OrderedQuery,
    catalog: &Catalog,
    least: &mut Option<Fault>,
) -> Result<BoundStatement, NoMemory>
    ensures value { IfOk result (λ b. b ≡ (spec.explained query.now catalog.now).value) }
    ensures faults { OnOk result (least.new ≡ noted least.old
        (spec.explained query.now catalog.now).faults) }
{
    let asked = bind_asked(alloc, query, catalog, least)?;
    Ok(BoundStatement {
        bound: Bound::Explain(asked.query),
        by_plan: false,
    })
}
