//! Finished lists of rows on their way through the nodes above them.

ghost use Rattle.std.specs.Prelude.{◌≡◌, ◌+◌, ◌≤◌, length, reverse, IfOk, Ok, OnOk};
ghost use Rattle.row_types.specs.OuterRows.{outer_rows};
ghost use Rattle.row_types.specs.Sorting.{in_order};
ghost use Rattle.rel_algebra.specs.Endings.{after};
ghost use Rattle.rel_algebra.specs.Plan.{collected, finished, shown_rows};
ghost use Rattle.plan_rows.specs.Firsts.{values_end};
ghost use Rattle.plan_nodes.specs.Fates.{passed};
ghost use Rattle.plan_nodes.specs.Receiving.{received as received_by};
ghost use Rattle.plan_nodes.specs.Ways.{way_rows};

use crate::last::Way;
use crate::leaves::{add_passed, keep_each};
use crate::received::Received;
use crate::scratch::Scratch;
use plan_rows::{Values, collect_values};
use rel_algebra::Node;
use row_sort::sorted;
use row_types::{Outer, PlanRow, Row, RowList, SortKey, Steps, ValuesInSight};
use sql_values::{NoMemory, Value};
use sqlite_items::Items;
use std::alloc::Global;
use std::sync::ledger::Ledger;

/// What nodes make of a list that is settled and then put in the order of these columns, received
/// after others. Each row of the list is a step.
pub fn sorted_passed<L: Ledger>(
    alloc: Global,
    rows: RowList,
    keys: &[SortKey],
    nodes: &[Node],
    into: Received,
    outer: &Outer,
    args: &[Value],
    steps: &mut Steps<L>,
) -> Result<Received, NoMemory>
    ensures rows { IfOk result (λ out. out ≡ received_by into
        (passed nodes.now (outer_rows outer.now) args.now
        (finished (after (collected rows) (λ rs. Ok (in_order keys.now rs)))))) }
    ensures work { steps.new ≤ steps.old + length rows }
{
    match collect_values(alloc, rows, steps)? {
        Values::Rows(rows) => {
            let rows = sorted(alloc, rows, keys)?;
            rows_passed(alloc, rows, nodes, into, outer, args)
        }
        Values::Raised(area) => into.with_poisoned(alloc, area),
    }
}

/// What nodes make of rows of values, received after others; where there is an area instead, one
/// row poisoned by it.
pub fn values_passed(
    alloc: Global,
    values: Values,
    nodes: &[Node],
    into: Received,
    outer: &Outer,
    args: &[Value],
) -> Result<Received, NoMemory>
    ensures { IfOk result (λ out. out ≡ received_by into
        (passed nodes.now (outer_rows outer.now) args.now (finished (values_end values)))) }
{
    match values {
        Values::Rows(rows) => rows_passed(alloc, rows, nodes, into, outer, args),
        Values::Raised(area) => into.with_poisoned(alloc, area),
    }
}

// What nodes make of rows of values, received after others. Where there is no node and no other
// row, they go on as they lie.
fn rows_passed(
    alloc: Global,
    rows: Items<Row>,
    nodes: &[Node],
    into: Received,
    outer: &Outer,
    args: &[Value],
) -> Result<Received, NoMemory>
    ensures { IfOk result (λ out. out ≡ received_by into
        (passed nodes.now (outer_rows outer.now) args.now (shown_rows rows))) }
{
    if into.takes_whole(nodes) {
        let list = handed_on(alloc, rows)?;
        return Ok(Received::Rows(list));
    }
    each_passed(alloc, rows.as_slice(), nodes, into, outer, args)
}

// The same, row by row.
fn each_passed(
    alloc: Global,
    rows: &[Row],
    nodes: &[Node],
    into: Received,
    outer: &Outer,
    args: &[Value],
) -> Result<Received, NoMemory>
    ensures { IfOk result (λ out. out ≡ received_by into
        (passed nodes.now (outer_rows outer.now) args.now (shown_rows rows.now))) }
{
    let room = if keep_each(nodes) { rows.len() } else { 0 };
    let mut received = into.with_room(alloc, room)?;
    let way = Way::through(nodes);
    add_rows(&mut received, alloc, &way, rows, outer, args)?;
    Ok(received)
}

// Receives what comes, on this way, of rows of values.
fn add_rows(
    received: &mut Received,
    alloc: Global,
    way: &Way,
    rows: &[Row],
    outer: &Outer,
    args: &[Value],
) -> Result<(), NoMemory>
    ensures { OnOk result (received.new ≡ received_by received.old
        (way_rows way.now (outer_rows outer.now) args.now (shown_rows rows.now))) }
{
    let mut scratch = Scratch::new(alloc);
    for row in rows {
        scratch.clear();
        let values = ValuesInSight::of(row.as_slice());
        add_passed(received, alloc, way, &values, &mut scratch, outer, args)?;
    }
    Ok(())
}

// Rows of values as rows of a plan. They are moved.
#[tactic(auto, using(crate::proofs::Read::turned_twice, std::proofs::lemmas::Grind::common_steps))]
fn handed_on(alloc: Global, rows: Items<Row>) -> Result<RowList, NoMemory>
    ensures { IfOk result (λ out. out ≡ shown_rows rows) }
{
    let turned = turned(alloc, rows)?;
    listed_back(alloc, turned)
}

/// The same rows, the last first.
pub(crate) fn turned(alloc: Global, rows: Items<Row>) -> Result<Items<Row>, NoMemory>
    ensures { IfOk result (λ out. out ≡ reverse rows) }
{
    let mut left = rows;
    let mut out = Items::from_vec(Vec::with_capacity(alloc, left.len())?);
    while let Some(row) = left.pop() {
        out.push(row)?;
    }
    Ok(out)
}

// Rows of values as rows of a plan, the last of them first.
fn listed_back(alloc: Global, rows: Items<Row>) -> Result<RowList, NoMemory>
    ensures { IfOk result (λ out. out ≡ shown_rows (reverse rows)) }
{
    let mut left = rows;
    let mut out = RowList::with_capacity(alloc, left.len())?;
    while let Some(row) = left.pop() {
        out.push(PlanRow::of_values(row))?;
    }
    Ok(out)
}
