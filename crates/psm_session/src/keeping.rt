//! Which plans are kept for a statement that is about to be run. They change nothing of what it
//! does.

ghost use Rattle.std.specs.Prelude.{◌≡◌};
ghost use Rattle.viewing_laws.specs.Standing.{CallsStandBefore};

use bind_direct::Bound;
use body_queries::{Asking, keep_called};
use catalog_store::Catalog;
use kept_queries::KeptPlans;
use run_modes::Mode;
use std::alloc::Global;

// What a statement asks of the interpreter, which a definition and an EXPLAIN do not.
fn asking_of<'a>(stmt: &'a Bound) -> Option<Asking<'a>> {
    match stmt {
        Bound::Create(_, _) | Bound::Drop(_) | Bound::Explain(_) => None,
        Bound::Insert(insert, _) => Some(Asking::Query(&insert.source)),
        Bound::Update(update) => Some(Asking::Query(&update.rows)),
        Bound::Delete(delete) => Some(Asking::Query(&delete.rows)),
        Bound::Query(query) => Some(Asking::Query(query)),
        Bound::Routine(stmt) => Some(Asking::Statement(stmt)),
    }
}

// Those of what a statement asks of the interpreter.
fn keep_asked(alloc: Global, stmt: &Bound, catalog: &Catalog, kept: &mut KeptPlans)
    requires kept { kept.old ≡ catalog.now }
    requires calls { CallsStandBefore catalog.now }
    ensures { kept.new ≡ kept.old }
{
    match asking_of(stmt) {
        Some(asking) => {
            let _ = keep_called(alloc, asking, catalog, kept);
        }
        None => {}
    }
}

/// Keeps the plans of the blocks that a statement calls, and of the queries in it and in the bodies
/// of the routines that it calls, in the mode that inlines. In the plain one none is kept. A
/// statement that is done by plans calls no routine without one. Where there is no memory for a
/// plan, what it is of goes row by row.
pub(crate) fn keep_plans(
    alloc: Global,
    mode: Mode,
    by_plan: bool,
    stmt: &Bound,
    catalog: &Catalog,
    kept: &mut KeptPlans,
)
    requires kept { kept.old ≡ catalog.now }
    requires calls { CallsStandBefore catalog.now }
    ensures { kept.new ≡ kept.old }
{
    if by_plan {
        return;
    }
    match mode {
        Mode::Inlining => keep_asked(alloc, stmt, catalog, kept),
        Mode::Plain => *kept = KeptPlans::new(alloc, catalog),
    }
}
