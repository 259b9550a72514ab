//! CALL (ISO/IEC 9075-2, 15.1).

ghost use Rattle.std.specs.Prelude.{◌≡◌, true, IfOk, OnOk};
ghost use Rattle.bind_faults.specs.Faults.{noted};
ghost use Rattle.bind_direct.specs.Direct as spec;

use crate::bound::{Bound, BoundStatement};
use bind_faults::{Fault, Notes};
use bind_simple::{Surroundings, bind_call};
use bound_trees::BoundStmt;
use catalog_store::Catalog;
use sql_values::NoMemory;
use statement_trees::Call;
use std::alloc::Global;

/// A direct CALL, which has no plan.
pub fn bind_direct_call(
    alloc: Global,
    call: &Call,
    catalog: &Catalog,
    least: &mut Option<Fault>,
) -> Result<BoundStatement, NoMemory>
    ensures value { IfOk result (λ b. b ≡ (spec.direct_call call.now catalog.now).value) }
    ensures faults { OnOk result (least.new ≡ noted least.old
        (spec.direct_call call.now catalog.now).faults) }
{
    let place = Surroundings {
        scopes: &[],
        labels: &[],
        returns: None,
        own: &None,
        procedure: &None,
        catalog,
    };
    let mut notes = Notes::after(alloc, *least);
    let call = bind_call(alloc, true, call, &place, &mut notes)?;
    *least = notes.least;
    Ok(BoundStatement {
        bound: Bound::Routine(BoundStmt::Call(call)),
        by_plan: false,
    })
}
