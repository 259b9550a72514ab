//! A list that is settled, on its way through the nodes above it.

ghost use Rattle.std.specs.Prelude.{◌≡◌, ◌+◌, ◌≤◌, [], ◌∷◌, length, IfOk};
ghost use Rattle.row_types.specs.Cells.{Poisoned};
ghost use Rattle.row_types.specs.OuterRows.{outer_rows};
ghost use Rattle.rel_algebra.specs.Plan.{collected, finished};
ghost use Rattle.plan_nodes.specs.Fates.{passed};
ghost use Rattle.plan_nodes.specs.Receiving.{received as received_by};

use crate::collecting::{Answer, collect};
use plan_nodes::{Received, values_passed};
use plan_rows::collect_values;
use rel_algebra::Node;
use row_types::{Outer, PlanRow, RowList, Steps};
use sql_conditions::Area;
use sql_values::{NoMemory, Value};
use sqlite_items::Boxed;
use std::alloc::Global;
use std::sync::ledger::Ledger;

// One row, poisoned by an area.
fn poisoned(alloc: Global, area: Area) -> Result<RowList, NoMemory>
    ensures { IfOk result (λ rows. rows ≡ Poisoned area ∷ []) }
{
    let mut rows = RowList::new(alloc);
    rows.push(PlanRow::poisoned(Boxed::new(alloc, area)?))?;
    Ok(rows)
}

/// What nodes make of a list that is settled, received after others: where a row of the list has an
/// area, one row that is poisoned by the first. Each row of the list is a step.
pub fn settled_passed<L: Ledger>(
    alloc: Global,
    rows: RowList,
    nodes: &[Node],
    into: Received,
    outer: &Outer,
    args: &[Value],
    steps: &mut Steps<L>,
) -> Result<Received, NoMemory>
    ensures rows { IfOk result (λ out. out ≡ received_by into
        (passed nodes.now (outer_rows outer.now) args.now (finished (collected rows)))) }
    ensures work { steps.new ≤ steps.old + length rows }
{
    if into.takes_whole(nodes) {
        let list = settled(alloc, rows, steps)?;
        return Ok(Received::Rows(list));
    }
    let values = collect_values(alloc, rows, steps)?;
    values_passed(alloc, values, nodes, into, outer, args)
}

// A list, settled. Its rows stay where they lie.
fn settled<L: Ledger>(
    alloc: Global,
    rows: RowList,
    steps: &mut Steps<L>,
) -> Result<RowList, NoMemory>
    ensures rows { IfOk result (λ out. out ≡ finished (collected rows)) }
    ensures work { steps.new ≤ steps.old + length rows }
{
    match collect(rows, steps)? {
        Answer::Rows(rows) => Ok(rows),
        Answer::Raised(area) => poisoned(alloc, area),
    }
}
