//! The places in which scripts and the bodies of routines start.

ghost use Rattle.std.specs.Prelude.{◌≡◌, []};
ghost use Rattle.rel_algebra.specs.Meaning.{no_context};
ghost use Rattle.viewing_laws.specs.Standing.{CallsStandBefore};
ghost use Rattle.run_places.specs.Places.{context_of, known_of, no_routine, queries_of, self_cost};
ghost use Rattle.run_places.specs.Starts.{StartsBody};

use crate::place::{Own, Place};
use catalog_store::Catalog;
use kept_queries::KeptPlans;

/// The place of a statement of a script, by the catalog and the plans that are kept in it.
pub fn in_no_routine<'a>(catalog: &'a Catalog, kept: &'a KeptPlans) -> Place<'a>
    requires calls { CallsStandBefore catalog.now }
    requires kept { kept.now ≡ catalog.now }
    ensures known { known_of result ≡ no_routine catalog.now }
    ensures context { context_of result ≡ no_context }
    ensures cursors { queries_of result ≡ [] }
    ensures cost { self_cost result ≡ 0 }
{
    Place {
        catalog,
        kept,
        own: None,
        cursors: &[],
        scopes: &[],
        level: 0,
        stacked: None,
    }
}

/// The place of the body of a routine.
pub fn in_routine<'a>(own: Own<'a>, catalog: &'a Catalog, kept: &'a KeptPlans) -> Place<'a>
    requires calls { CallsStandBefore catalog.now }
    requires kept { kept.now ≡ catalog.now }
    ensures { StartsBody catalog.now own.entry result }
{
    Place {
        catalog,
        kept,
        own: Some(own),
        cursors: &[],
        scopes: &[],
        level: 0,
        stacked: None,
    }
}
